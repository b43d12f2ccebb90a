// A line of the program `calls`, taken to the registry's new bytes and the line that is printed.
#![tactic(auto)]

mod parsing;
mod printing;
#[cfg(test)]
mod tests;

ghost use Rattle.std.specs.Prelude.{◌≡◌};
ghost use Rattle.calls_line.specs.Lines.{does, WalkMeans};

use parsing::{Call, parse};
pub use printing::Printed;
use printing::{head, poll, walk};
use rx_msg::regular_inner::{register, unregister};
use state::Refusal;

/// The line `text` on the registry's bytes: what is printed. `line_into` makes no text anew for each line.
pub fn line(s: &mut [u8], text: &[u8]) -> Printed
    ensures { (result.bytes ≡ (does s.old text.now).text) × (s.new ≡ (does s.old text.now).state) }
{
    let mut out = Printed::new();
    line_into(s, text, &mut out);
    out
}

/// The line `text` on the registry's bytes: `out` becomes what is printed. It is lent, so that none is made and moved for each line.
#[tactic(auto, unfolding(crate::specs::Lines::said))]
pub fn line_into(s: &mut [u8], text: &[u8], out: &mut Printed)
    ensures { (out.new.bytes ≡ (does s.old text.now).text) × (s.new ≡ (does s.old text.now).state) }
{
    match parse(text) {
        Some(Call::Register(entry, subject)) => head(out, 'R', register(s, entry, subject).err()),
        Some(Call::Unregister(entry)) => head(out, 'U', unregister(s, entry).err()),
        Some(Call::Poll) => poll(s, out),
        Some(Call::Walk(subject)) => walk(s, out, subject),
        None => head(out, '?', Some(Refusal::NoCall)),
    }
    out.push('\n');
}

// Does nothing: its contract is the theorem that a walk on whole bytes names every active entry on its subject.
pub fn meaning()
    ensures { WalkMeans }
{}
