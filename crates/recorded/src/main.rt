// Replays recorded calls: reads lines of four numbers, a call and its three numbers, from standard input, makes each call on
// states of its own, and writes each answer. Its standard input and output are the Rust's own answers, recorded by oracle/compare.
#![tactic(auto)]

ghost use Rattle.std.specs.Prelude.{◌<◌};

use gomxeli::{img, iq, lb, leaves, mcq, reg, req, txm, txr};
use std::io;
use std::io::Read;

/// A line so far: its numbers, and which of them is being read.
#[derive(Clone, Copy)]
struct Line {
    numbers: [u64; 4],
    at: usize,
    ghost within: { at < 4 },
}

impl Line {
    fn new() -> Self {
        Line {
            numbers: [0; 4],
            at: 0,
        }
    }

    /// One more digit; a number of more than 12 digits stays as it is.
    fn digit(&mut self, digit: u8) {
        let number = &mut self.numbers[self.at];
        if *number < 1_000_000_000_000 {
            *number = *number * 10 + u64::from(digit % 10);
        }
    }

    /// A blank ends a number, but for the last.
    fn blank(&mut self) {
        if self.at < 3 {
            self.at += 1;
        }
    }
}

/// A call's code, and the low 32 bits of its numbers.
#[derive(Clone, Copy)]
struct Call {
    code: u64,
    a: u32,
    b: u32,
    c: u32,
}

fn low32(number: u64) -> u32 {
    (number % 4_294_967_296) as u32
}

fn low16(number: u32) -> u16 {
    (number % 65_536) as u16
}

fn low8(number: u32) -> u8 {
    (number % 256) as u8
}

impl From<Line> for Call {
    fn from(line: Line) -> Call {
        let [code, a, b, c] = line.numbers;
        Call {
            code,
            a: low32(a),
            b: low32(b),
            c: low32(c),
        }
    }
}

// The codes are those of the file of recorded calls, each said in one place only: an enum would say them again.

fn lists_call(s: &mut [u8], call: Call) -> u64 {
    match call.code {
        10 => mcq::gomxeli_mcq_open(s, call.a, call.b),
        11 => mcq::gomxeli_mcq_front(s, call.a),
        12 => mcq::gomxeli_mcq_back(s, call.a),
        13 => mcq::gomxeli_mcq_is_empty(s, call.a),
        14 => mcq::gomxeli_mcq_is_front(s, call.a),
        15 => mcq::gomxeli_mcq_is_back(s, call.a),
        16 => mcq::gomxeli_mcq_remove(s, call.a),
        17 => mcq::gomxeli_mcq_move_front(s, call.a, call.b),
        _ => mcq::gomxeli_mcq_move_back(s, call.a, call.b),
    }
}

fn keys_call(s: &mut [u8], call: Call) -> u64 {
    let key = low16(call.a);
    match call.code {
        30 => iq::gomxeli_iq_open(s, call.a, call.b),
        31 => iq::gomxeli_iq_contains(s, key),
        32 => iq::gomxeli_iq_get(s, key),
        33 => iq::gomxeli_iq_get_mut(s, key, call.b),
        34 => iq::gomxeli_iq_insert(s, key, call.b),
        35 => iq::gomxeli_iq_remove(s, key),
        36 => iq::gomxeli_iq_front(s),
        37 => iq::gomxeli_iq_back(s),
        38 => iq::gomxeli_iq_enqueue_front(s, key),
        39 => iq::gomxeli_iq_enqueue_back(s, key),
        _ => iq::gomxeli_iq_dequeue(s, key),
    }
}

fn registry_call(s: &mut [u8], call: Call) -> u64 {
    match call.code {
        60 => reg::gomxeli_reg_open(s, call.a),
        61 => reg::gomxeli_reg_register(s, call.a, call.b),
        62 => reg::gomxeli_reg_unregister(s, call.a),
        63 => reg::gomxeli_reg_poll_pop(s),
        64 => reg::gomxeli_reg_hub_push_start(s, call.a),
        _ => reg::gomxeli_reg_hub_push_next(s),
    }
}

fn image_call(s: &mut [u8], call: Call) -> u64 {
    match call.code {
        70 => img::gomxeli_img_open(s),
        71 => img::gomxeli_img_add_subject(s, call.a),
        72 => img::gomxeli_img_remove_subject_range(s, call.a, call.b),
        _ => img::gomxeli_img_has_subject(s, call.a),
    }
}

fn loop_back_call(s: &mut [u8], call: Call) -> u64 {
    match call.code {
        80 => lb::gomxeli_lb_open(s),
        81 => lb::gomxeli_lb_register(s, call.a, call.b),
        82 => lb::gomxeli_lb_unregister(s, call.a),
        83 => lb::gomxeli_lb_hub_push_start(s, call.a),
        _ => lb::gomxeli_lb_hub_push_next(s),
    }
}

fn requests_call(s: &mut [u8], call: Call) -> u64 {
    match call.code {
        90 => req::gomxeli_req_open(s),
        91 => req::gomxeli_req_register(s, call.a, call.b),
        92 => req::gomxeli_req_unregister(s, call.a),
        _ => req::gomxeli_req_poll_push(s, call.a, low8(call.b)),
    }
}

// A settlement's frame flag and readiness are one number, and so are its priority and length.
fn messages_call(s: &mut [u8], call: Call) -> u64 {
    match call.code {
        100 => txm::gomxeli_txm_open(s),
        101 => txm::gomxeli_txm_register(s, call.a, call.b, low8(call.c)),
        102 => txm::gomxeli_txm_unregister(s, call.a),
        103 => txm::gomxeli_txm_update(s, call.a, low8(call.b)),
        104 => txm::gomxeli_txm_pick(s, low8(call.a), call.b),
        _ => txm::gomxeli_txm_settle(
            s,
            low8(call.a / 256),
            low8(call.a),
            call.b / 65_536,
            call.b % 65_536,
            low8(call.c),
        ),
    }
}

fn responses_call(s: &mut [u8], call: Call) -> u64 {
    match call.code {
        110 => txr::gomxeli_txr_open(s),
        111 => txr::gomxeli_txr_register(s, call.a, low8(call.b)),
        112 => txr::gomxeli_txr_unregister(s, call.a),
        113 => txr::gomxeli_txr_update(s, call.a, low8(call.b)),
        114 => txr::gomxeli_txr_pick(s, low8(call.a), call.b),
        _ => txr::gomxeli_txr_settle(
            s,
            low8(call.a / 256),
            low8(call.a),
            call.b / 65_536,
            call.b % 65_536,
            low8(call.c),
        ),
    }
}

// The last of `a` frame bytes is `b`.
fn frame_call(call: Call) -> u64 {
    let frame = [low8(call.b); 64];
    leaves::gomxeli_is_eot_frame(&frame[..(call.a % 65) as usize])
}

/// A state of each kind, those of two kinds with room for the longest and their lengths.
#[derive(Drop)]
struct States {
    lists: [u8; 514],
    lists_length: usize,
    keys: [u8; 9979],
    keys_length: usize,
    regular: [u8; 1036],
    image: [u8; 1024],
    loop_back: [u8; 389],
    requests: [u8; 385],
    messages: [u8; 1062],
    responses: [u8; 677],
}

impl States {
    fn new() -> Self {
        States {
            lists: [0; 514],
            lists_length: 0,
            keys: [0; 9979],
            keys_length: 0,
            regular: [0; 1036],
            image: [0; 1024],
            loop_back: [0; 389],
            requests: [0; 385],
            messages: [0; 1062],
            responses: [0; 677],
        }
    }

    /// An opening sets its state's length.
    fn sized(&mut self, call: Call) {
        let a = call.a as usize;
        let b = call.b as usize;
        match call.code {
            10 => self.lists_length = 2 + 2 * (a + b),
            30 => self.keys_length = 11 + 8 * b + 4 * ((a + 1) / 4),
            _ => {}
        }
    }

    /// The call's answer.
    fn answer(&mut self, call: Call) -> u64 {
        self.sized(call);
        match call.code / 10 {
            1 => {
                let length = self.lists_length.min(self.lists.len());
                lists_call(&mut self.lists[..length], call)
            }
            3 | 4 => {
                let length = self.keys_length.min(self.keys.len());
                keys_call(&mut self.keys[..length], call)
            }
            5 => frame_call(call),
            6 => registry_call(&mut self.regular, call),
            7 => image_call(&mut self.image, call),
            8 => loop_back_call(&mut self.loop_back, call),
            9 => requests_call(&mut self.requests, call),
            10 => messages_call(&mut self.messages, call),
            _ => responses_call(&mut self.responses, call),
        }
    }
}

// The bytes of a chunk, one after the other: a line's end makes its call and writes the answer.
fn replay(chunk: &[u8], line: &mut Line, states: &mut States, rt: &impl Print) -> io::Result<()> {
    for byte in chunk {
        match *byte {
            b'\n' => {
                let answer = states.answer((*line).into());
                println!(rt; "{answer}")?;
                *line = Line::new();
            }
            b' ' => line.blank(),
            byte if b'0' <= byte => line.digit(byte - b'0'),
            _ => {}
        }
    }
    Ok(())
}

// Reads into a chunk of its own: std's readers by the byte take memory from the heap, and can fail for want of it.
// A proved loop has to end, and nothing says that the input does: the turns go up to a number that no run uses up.
fn main(rt: HostRuntime) -> io::Result<()> {
    let mut states = States::new();
    let mut line = Line::new();
    let mut chunk = [0; 4096];
    let mut input = rt.stdin();
    for _ in 0..u64::MAX {
        let n = input.read(&mut chunk)?;
        if n == 0 {
            break;
        }
        replay(&chunk[..n], &mut line, &mut states, &rt)?;
    }
    Ok(())
}
