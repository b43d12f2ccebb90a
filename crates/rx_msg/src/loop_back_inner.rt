// `LoopBackInner`'s calls.
ghost use Rattle.std.specs.Prelude.{◌≡◌, length};
ghost use Rattle.state.specs.Outcome.{answer};
ghost use Rattle.loop_back.specs.Steps.{register, unregister, hub_push_start, hub_push_next};
ghost use Rattle.loop_back.specs.Calls.{on, bytes, opening, opened_bytes};

use entry_tree::walk::{Pushed, set_walk, start_on, walk_of};
use entry_tree::{has_entry, position};
use loop_back::{join, leave, next_push, open_registry, whole};
use state::{Entry, Refusal, up_to};

#[tactic(auto, unfolding(loop_back::specs::Calls::opening))]
pub fn open(s: &mut [u8]) -> Result<(), Refusal>
    ensures { (result ≡ answer (opening (length s.old))) × (s.new ≡ opened_bytes s.old (opening (length s.old))) }
{
    if s.len() != 389 {
        return Err(Refusal::NotWhole);
    }
    open_registry(s);
    Ok(())
}

#[tactic(auto, using(loop_back::proofs::Acts::parts), unfolding(loop_back::specs::Steps::register))]
pub fn register(s: &mut [u8], entry: u32, subject: u32) -> Result<(), Refusal>
    ensures { (result ≡ answer (on (register «entry» subject) s.old)) × (s.new ≡ bytes s.old (on (register «entry» subject) s.old)) }
{
    if !whole(s) {
        return Err(Refusal::NotWhole);
    }
    let entry = Entry::try_from(entry)?;
    let subject = up_to(8191, subject)?;
    if has_entry(&s[0..385], entry.number()) {
        return Err(Refusal::Registered);
    }
    join(s, entry, subject);
    Ok(())
}

#[tactic(auto, using(loop_back::proofs::Acts::parts, crate::proofs::LoopBack::steps), unfolding(loop_back::specs::Steps::unregister))]
pub fn unregister(s: &mut [u8], entry: u32) -> Result<(), Refusal>
    ensures { (result ≡ answer (on (unregister «entry») s.old)) × (s.new ≡ bytes s.old (on (unregister «entry») s.old)) }
{
    if !whole(s) {
        return Err(Refusal::NotWhole);
    }
    let entry = Entry::try_from(entry)?;
    let i = position(&s[0..385], entry.number()).ok_or(Refusal::NotRegistered)?;
    leave(s, entry, i);
    Ok(())
}

// Whether an entry is pointed at.
#[tactic(auto, using(loop_back::proofs::Acts::parts), unfolding(loop_back::specs::Steps::hub_push_start))]
pub fn hub_push_start(s: &mut [u8], subject: u32) -> Result<bool, Refusal>
    ensures { (result ≡ answer (on (hub_push_start subject) s.old)) × (s.new ≡ bytes s.old (on (hub_push_start subject) s.old)) }
{
    if !whole(s) {
        return Err(Refusal::NotWhole);
    }
    let subject = up_to(8191, subject)?;
    let w = start_on(&s[0..385], subject);
    set_walk(s, 385, w);
    Ok(w.is_some())
}

#[tactic(auto, using(loop_back::proofs::Acts::parts))]
pub fn hub_push_next(s: &mut [u8]) -> Result<Option<Pushed>, Refusal>
    ensures { (result ≡ answer (on hub_push_next s.old)) × (s.new ≡ bytes s.old (on hub_push_next s.old)) }
{
    if !whole(s) {
        return Err(Refusal::NotWhole);
    }
    let Some(entry) = walk_of(s, 385) else {
        return Ok(None);
    };
    let i = position(&s[0..385], entry).unwrap();
    let w = next_push(&s[0..385], i, entry);
    set_walk(s, 385, w);
    Ok(Some(Pushed {
        entry,
        more: w.is_some(),
    }))
}
