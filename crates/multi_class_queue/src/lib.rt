// `MultiClassQueue`'s calls over lent bytes. `NotWhole`: the bytes are not whole. `Size`: a class or an entry past the size, or sizes not allowed.
#![tactic(auto, using(crate::proofs::Sizes::sizes))]

ghost use Rattle.std.specs.Prelude.{◌≡◌, ◌<◌, length};
ghost use Rattle.state.specs.Outcome.{answer};
ghost use Rattle.multi_class_queue.specs.Inner.{checked, move_checked, class_checked};
ghost use Rattle.multi_class_queue.specs.Calls.{on, bytes, opening, front, back, is_empty, is_front, is_back, remove, move_front, move_back, ListsMean};

use multi_cycle_list::inner::{
    inner_back, inner_front, inner_move_back, inner_move_front, inner_open, inner_remove,
};
use multi_cycle_list::link::Link;
use multi_cycle_list::whole::whole;
use state::Refusal;

#[tactic(auto, unfolding(crate::specs::Calls::opening))]
pub fn open(s: &mut [u8], classes: u32, entries: u32) -> Result<(), Refusal>
    ensures { (result ≡ answer (opening (length s.old) classes entries)) × (s.new ≡ bytes s.old (opening (length s.old) classes entries)) }
{
    if !(1..=32).contains(&classes) || 224 < entries {
        return Err(Refusal::Size);
    }
    let classes = classes as usize;
    let entries = entries as usize;
    if s.len() != 2 + 2 * (classes + entries) {
        return Err(Refusal::NotWhole);
    }
    inner_open(s, classes, entries);
    Ok(())
}

// That the bytes are whole, and then that `x` is below the size in byte `at`.
fn check(s: &[u8], at: usize, x: u32) -> Result<(), Refusal>
    requires { at < 2 }
    ensures { result ≡ checked s.now at x }
{
    if !whole(s) {
        return Err(Refusal::NotWhole);
    }
    if u32::from(s[at]) <= x {
        return Err(Refusal::Size);
    }
    Ok(())
}

// The same for a class and an entry.
fn check_move(s: &[u8], class: u32, entry: u32) -> Result<(), Refusal>
    ensures { result ≡ move_checked s.now class entry }
{
    check(s, 0, class)?;
    if u32::from(s[1]) <= entry {
        return Err(Refusal::Size);
    }
    Ok(())
}

// The calls on the front and the back share `check` and `check_move`; what is left of each is one call of the cycle lists.
#[tactic(auto, using(crate::proofs::Sizes::sizes), unfolding(crate::specs::Calls::front))]
pub fn front(s: &[u8], class: u32) -> Result<Option<u8>, Refusal>
    ensures { result ≡ answer (on (front class) s.now) }
{
    check(s, 0, class)?;
    Ok(inner_front(s, class as usize))
}

#[tactic(auto, using(crate::proofs::Sizes::sizes), unfolding(crate::specs::Calls::back))]
pub fn back(s: &[u8], class: u32) -> Result<Option<u8>, Refusal>
    ensures { result ≡ answer (on (back class) s.now) }
{
    check(s, 0, class)?;
    Ok(inner_back(s, class as usize))
}

#[tactic(auto, using(crate::proofs::Sizes::sizes), unfolding(crate::specs::Calls::is_empty))]
pub fn is_empty(s: &[u8], class: u32) -> Result<bool, Refusal>
    ensures { result ≡ answer (on (is_empty class) s.now) }
{
    check(s, 0, class)?;
    Ok(inner_front(s, class as usize).is_none())
}

// The class that the link of the entry's node leads to, if it leads to one.
fn class_at(s: &[u8], entry: u32, link: Link) -> Result<Option<u8>, Refusal>
    ensures { result ≡ class_checked s.now entry link }
{
    check(s, 1, entry)?;
    let node = usize::from(s[0]) + entry as usize;
    let to = s[link.offset() + 2 * node];
    Ok((to < s[0]).then_some(to))
}

// The class whose front the entry is.
#[tactic(auto, using(crate::proofs::Classes::front_class), unfolding(crate::specs::Calls::is_front))]
pub fn is_front(s: &[u8], entry: u32) -> Result<Option<u8>, Refusal>
    ensures { result ≡ answer (on (is_front entry) s.now) }
{
    class_at(s, entry, Link::Prev)
}

#[tactic(auto, using(crate::proofs::Classes::back_class), unfolding(crate::specs::Calls::is_back))]
pub fn is_back(s: &[u8], entry: u32) -> Result<Option<u8>, Refusal>
    ensures { result ≡ answer (on (is_back entry) s.now) }
{
    class_at(s, entry, Link::Next)
}

#[tactic(auto, unfolding(crate::specs::Calls::remove))]
pub fn remove(s: &mut [u8], entry: u32) -> Result<(), Refusal>
    ensures { (result ≡ answer (on (remove entry) s.old)) × (s.new ≡ bytes s.old (on (remove entry) s.old)) }
{
    check(s, 1, entry)?;
    inner_remove(s, entry as usize);
    Ok(())
}

#[tactic(auto, using(crate::proofs::Sizes::sizes), unfolding(crate::specs::Calls::move_front))]
pub fn move_front(s: &mut [u8], class: u32, entry: u32) -> Result<(), Refusal>
    ensures { (result ≡ answer (on (move_front class entry) s.old)) × (s.new ≡ bytes s.old (on (move_front class entry) s.old)) }
{
    check_move(s, class, entry)?;
    inner_move_front(s, class as usize, entry as usize);
    Ok(())
}

#[tactic(auto, using(crate::proofs::Sizes::sizes), unfolding(crate::specs::Calls::move_back))]
pub fn move_back(s: &mut [u8], class: u32, entry: u32) -> Result<(), Refusal>
    ensures { (result ≡ answer (on (move_back class entry) s.old)) × (s.new ≡ bytes s.old (on (move_back class entry) s.old)) }
{
    check_move(s, class, entry)?;
    inner_move_back(s, class as usize, entry as usize);
    Ok(())
}

// Does nothing: its contract is the theorem of specs/Calls.antt.
pub fn meaning()
    ensures { ListsMean }
{}
