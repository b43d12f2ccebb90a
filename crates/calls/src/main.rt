// The program `calls`: reads calls, one a line, makes each on a regular registry of 4 slots, and prints a line for each.
#![tactic(auto)]

ghost use Rattle.std.specs.Prelude.{◌≡◌, OnOk, OnErr};
ghost use Rattle.std.specs.Io.KnownBytes.{Appends};
ghost use Rattle.calls.specs.Reader.{reader, prints_all, prints_last, fed_all, Reads};
ghost use Rattle.calls.specs.Inner.{IsStateWithin, Answered};

use arrayvec::ArrayVec;
use calls_line::{Printed, line_into};
use rx_msg::regular_inner::open;
use std::io;
use std::io::{Read, Write};

// The bytes of a chunk, one after the other; `part` is the line so far. A failed write ends it within the chunk.
fn fed_all<W: Write>(
    s: &mut [u8],
    part: &mut ArrayVec<u8, 32>,
    chunk: &[u8],
    to: &mut W,
) -> io::Result<()>
    ensures taken { OnOk result (reader s.new part.new.items ≡ fed_all (reader s.old part.old.items) chunk.now) }
    ensures printed { OnOk result (Appends (W.contents to.old) (W.contents to.new) (prints_all (reader s.old part.old.items) chunk.now)) }
    ensures stopped { OnErr result (IsStateWithin (reader s.old part.old.items) chunk.now s.new) }
{
    let mut out = Printed::new();
    for byte in chunk {
        if *byte == b'\n' {
            line_into(s, part, &mut out);
            to.write_all(out.as_bytes())?;
            part.clear();
        } else if !part.is_full() {
            part.push(*byte);
        }
    }
    Ok(())
}

// The last line needs no line end.
#[tactic(auto, using(crate::proofs::ReaderLaws::last_none, crate::proofs::ReaderLaws::last_some))]
fn ended<W: Write>(s: &mut [u8], last: &[u8], to: &mut W) -> io::Result<()>
    ensures { OnOk result (Appends (W.contents to.old) (W.contents to.new) (prints_last (reader s.old last.now))) }
{
    if last.is_empty() {
        return Ok(());
    }
    let mut printed = Printed::new();
    line_into(s, last, &mut printed);
    to.write_all(printed.as_bytes())
}

// Reads the input to its end, makes the calls on the registry's bytes `s`, and prints their lines. Not by std's lines, which have no
// greatest length: memory is fixed here.
// A proved loop has to end, and nothing says that the input does: the turns go up to a number that no run uses up.
fn run<R: Read, W: Write>(input: &mut R, s: &mut [u8], to: &mut W) -> io::Result<()>
    ensures { OnOk result (Answered s.old (R.remaining input.old) (R.remaining input.new) (W.contents to.old) (W.contents to.new)) }
{
    let mut part = ArrayVec::new();
    let mut chunk = [0; 4096];
    for _ in 0..u64::MAX {
        let got = input.read(&mut chunk)?;
        if got == 0 {
            break;
        }
        fed_all(s, &mut part, &chunk[..got], to)?;
    }
    ended(s, &part, to)
}

#[tactic(auto, unfolding(regular::specs::Calls::opening))]
fn main(rt: HostRuntime) -> io::Result<()> {
    let mut state = [0; 1036];
    open(&mut state, 4).unwrap();
    run(&mut rt.stdin(), &mut state, &mut io::writer(&rt))
}

// Does nothing: its contract is the theorem that it does not matter how the input is cut, and that its bytes print what its lines print.
fn meaning()
    ensures { Reads }
{}
