// What no contract says: that `does` of specs/Lines.antt is what is meant. The lines wanted here were written by hand.
use crate::line;
use rx_msg::regular_inner::open;

// Calls on one registry of 4 slots, from fresh bytes on, and the line of each.
#[test]
fn line_of_each_call(rt: HostRuntime) {
    let mut state = [0; 1036];
    assert!(rt; open(&mut state, 4).is_ok());
    for (text, printed) in [
        ("R 0 100", "R 0\n"),
        ("R 1 100", "R 0\n"),
        ("P", "P 0 add 100\n"),
        ("U 0", "U 0\n"),
        ("P", "P 0 remove 0 8191\n"),
        ("P", "P 0 add 100\n"),
        ("P", "P 0 nothing\n"),
        ("W 100", "W 0 1\n"),
        ("W 99", "W 0\n"),
        ("U 0", "U 8\n"),
        ("R 128 100", "R 2\n"),
        ("R 2 8192", "R 3\n"),
        ("P 1", "? 17\n"),
    ] {
        assert_eq!(rt;
            line(&mut state, text.as_bytes()).as_str(),
            printed,
            "{text}"
        );
    }
}
