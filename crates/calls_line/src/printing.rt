// What is printed of a call, but for the line's end.
ghost use Rattle.std.specs.Prelude.{◌≡◌, ◌∷◌, true, [], ◌++◌, ◌+◌, ◌≤◌, ◌<◌, decimal};
ghost use Rattle.arrayvec.specs.ArrayString.{array_string_len};
ghost use Rattle.regular.specs.Steps.{poll_pop, hub_push_start};
ghost use Rattle.regular.specs.Calls.{on, bytes};
ghost use Rattle.calls_line.specs.Lines as lines;
ghost use Rattle.calls_line.specs.Lines.{spaced, refused, of_update, named, walked};

use arrayvec::ArrayString;
use itoa::{Buffer, Integer};
use regular::FilterUpdate;
use rx_msg::regular_inner::{hub_push_next, hub_push_start, poll_pop};
use state::Refusal;

/// What is printed of a line.
pub type Printed = ArrayString<640>;

// A registry has at most so many.
const ENTRIES: usize = 128;

// The number. Not by `write!`, whose contract does not say that it finds room.
fn put_number<I: Integer>(out: &mut Printed, number: I)
    requires { array_string_len out.old + I.MAX_STR_LEN ≤ 640 }
    ensures text { out.new.bytes ≡ out.old.bytes ++ I.text number }
    ensures short { array_string_len out.new ≤ array_string_len out.old + I.MAX_STR_LEN }
{
    out.push_str(Buffer::new().format(number));
}

/// The letter and a refusal's number, or 0.
#[tactic(auto, unfolding(crate::specs::Lines::spaced))]
pub fn head(text: &mut Printed, letter: char, refusal: Option<Refusal>)
    requires { letter < 128 }
    ensures text { text.new.bytes ≡ letter ∷ spaced (decimal (refused refusal) ∷ []) }
    ensures short { array_string_len text.new ≤ 5 }
{
    text.clear();
    text.push(letter);
    text.push(' ');
    put_number(text, refusal.map_or(0, u8::from));
}

// What a poll hands out.
#[tactic(auto, unfolding(crate::specs::Lines::spaced))]
fn put_update(out: &mut Printed, update: Option<FilterUpdate>)
    requires { array_string_len out.old ≤ 5 }
    ensures text { out.new.bytes ≡ out.old.bytes ++ spaced (of_update update) }
    ensures short { array_string_len out.new < 640 }
{
    match update {
        Some(FilterUpdate::AddSubject(subject)) => {
            out.push_str(" add ");
            put_number(out, subject);
        }
        Some(FilterUpdate::RemoveSubjectRange(first, last)) => {
            out.push_str(" remove ");
            put_number(out, first);
            out.push(' ');
            put_number(out, last);
        }
        None => out.push_str(" nothing"),
    }
}

/// A poll: the update that it hands out, or `nothing`.
#[tactic(auto, unfolding(crate::specs::Lines::spaced))]
pub fn poll(s: &mut [u8], out: &mut Printed)
    ensures text { out.new.bytes ++ 10 ∷ [] ≡ (lines.once 80 of_update s.old (on poll_pop s.old)).text }
    ensures short { array_string_len out.new < 640 }
    ensures state { s.new ≡ bytes s.old (on poll_pop s.old) }
{
    let popped = poll_pop(s);
    head(out, 'P', popped.err());
    if let Ok(update) = popped {
        put_update(out, update);
    }
}

// The entries that a walk names, at most 128, while more follow.
#[tactic(auto, using(crate::proofs::WalkLaws::walked_more, crate::proofs::WalkLaws::walked_end, crate::proofs::WalkLaws::walked_full))]
fn put_names(s: &mut [u8], out: &mut Printed)
    requires { array_string_len out.old ≤ 5 }
    ensures text { out.new.bytes ≡ out.old.bytes ++ spaced (named 128 true s.old) }
    ensures short { array_string_len out.new < 640 }
    ensures state { s.new ≡ walked 128 true s.old }
{
    for _ in 0..ENTRIES {
        let Ok(Some(pushed)) = hub_push_next(s) else {
            return;
        };
        out.push(' ');
        put_number(out, pushed.entry);
        if !pushed.more {
            return;
        }
    }
}

/// A walk: each entry on the subject.
#[tactic(auto, unfolding(crate::specs::Lines::spaced, crate::specs::Lines::named, crate::specs::Lines::walked))]
pub fn walk(s: &mut [u8], out: &mut Printed, subject: u32)
    ensures text { out.new.bytes ++ 10 ∷ [] ≡ (lines.walk s.old (on (hub_push_start subject) s.old)).text }
    ensures short { array_string_len out.new < 640 }
    ensures state { s.new ≡ (lines.walk s.old (on (hub_push_start subject) s.old)).state }
{
    let started = hub_push_start(s, subject);
    head(out, 'W', started.err());
    if let Ok(true) = started {
        put_names(s, out);
    }
}
