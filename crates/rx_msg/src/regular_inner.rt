// `RegularInner`'s calls.
ghost use Rattle.std.specs.Prelude.{◌≡◌, true, false, [], ◌≤◌, length};
ghost use Rattle.state.specs.Seq.{to_nat};
ghost use Rattle.state.specs.Outcome.{answer};
ghost use Rattle.entry_tree.specs.Pairs.{has_entry};
ghost use Rattle.regular.specs.Steps.{register, unregister, poll_pop, hub_push_start, hub_push_next, inner_step};
ghost use Rattle.regular.specs.Bytes.{whole_b, read, laid};
ghost use Rattle.regular.specs.Calls.{on, bytes, opening, opened_bytes};
ghost use Rattle.regular_change.specs.Inner.{CleanedUp, more};

use entry_tree::position;
use entry_tree::walk::{Pushed, next_on, set_walk, start_on, walk_of};
use multi_cycle_list::inner::inner_front;
use regular::{CallAgain, FilterUpdate, whole};
use regular_activation::activate_known;
use regular_change::change::{
    join, leave_active, leave_inactive, open_registry, pop_clean_up_last, pop_clean_up_queue,
    pop_registration_queue, wait_for,
};
use regular_change::look::{Gap, gap_at, is_active, is_inactive, on_active, on_inactive, slots};
use state::{Entry, Refusal, up_to};

#[tactic(auto, unfolding(regular::specs::Calls::opening))]
pub fn open(s: &mut [u8], slots: u32) -> Result<(), Refusal>
    ensures { (result ≡ answer (opening (length s.old) «slots»)) × (s.new ≡ opened_bytes s.old (opening (length s.old) «slots»)) }
{
    if s.len() != 1036 {
        return Err(Refusal::NotWhole);
    }
    let slots = up_to(65535, slots)?;
    open_registry(s, slots);
    Ok(())
}

// Neither tree has the entry.
#[tactic(auto, using(regular_change::proofs::Looks::known_parts), unfolding(regular::specs::Steps::register))]
fn register_new(s: &mut [u8], entry: Entry, subject: u16) -> Result<bool, Refusal>
    requires { (whole_b s.old ≡ true) × ((subject ≤ 8191) × ((has_entry «entry» (read s.old).inactive ≡ false) × (has_entry «entry» (read s.old).active ≡ false))) }
    ensures { (result ≡ answer (register «entry» subject (read s.old))) × (s.new ≡ bytes s.old (register «entry» subject (read s.old))) }
{
    let n = slots(s);
    if on_inactive(s, subject) {
        wait_for(s, entry, subject, n);
        return Ok(false);
    }
    if on_active(s, subject) {
        join(s, entry, subject);
        return Ok(false);
    }
    if n == 0 {
        return Err(Refusal::NoSubjectSlot);
    }
    wait_for(s, entry, subject, n - 1);
    Ok(true)
}

// Whether that wakes.
#[tactic(auto, using(regular_change::proofs::Looks::known_parts), unfolding(regular::specs::Steps::register))]
pub fn register(s: &mut [u8], entry: u32, subject: u32) -> Result<bool, Refusal>
    ensures { (result ≡ answer (on (register «entry» subject) s.old)) × (s.new ≡ bytes s.old (on (register «entry» subject) s.old)) }
{
    if !whole(s) {
        return Err(Refusal::NotWhole);
    }
    let entry = Entry::try_from(entry)?;
    let subject = up_to(8191, subject)?;
    if is_inactive(s, entry.number()) || is_active(s, entry.number()) {
        return Err(Refusal::Registered);
    }
    register_new(s, entry, subject)
}

// Whether the gap gives a slot back.
fn gives_slot(gap: Gap) -> bool
    ensures { to_nat result ≡ more gap }
{
    match gap {
        Gap::Same | Gap::Withdrawn => false,
        Gap::Marked(_) | Gap::Last => true,
    }
}

#[tactic(auto, using(regular_change::proofs::Looks::known_parts))]
fn unregister_active(s: &mut [u8], entry: u8) -> Result<bool, Refusal>
    requires { (whole_b s.old ≡ true) × ((has_entry «entry» (read s.old).inactive ≡ false) × (has_entry «entry» (read s.old).active ≡ true)) }
    ensures { (result ≡ answer (unregister «entry» (read s.old))) × (s.new ≡ bytes s.old (unregister «entry» (read s.old))) }
{
    let i = position(&s[0..385], entry).unwrap();
    let gap = gap_at(s, i);
    let wake = gives_slot(gap);
    let Some(n) = slots(s).checked_add(u16::from(wake)) else {
        return Err(Refusal::SlotsFull);
    };
    leave_active(s, entry, i, gap, n);
    Ok(wake)
}

// Whether that wakes.
#[tactic(auto, using(regular_change::proofs::Looks::known_parts), unfolding(regular::specs::Steps::unregister))]
pub fn unregister(s: &mut [u8], entry: u32) -> Result<bool, Refusal>
    ensures { (result ≡ answer (on (unregister «entry») s.old)) × (s.new ≡ bytes s.old (on (unregister «entry») s.old)) }
{
    if !whole(s) {
        return Err(Refusal::NotWhole);
    }
    let entry = Entry::try_from(entry)?.number();
    if is_inactive(s, entry) {
        leave_inactive(s, entry);
        return Ok(false);
    }
    if !is_active(s, entry) {
        return Err(Refusal::NotRegistered);
    }
    unregister_active(s, entry)
}

// No head has a mark and the last-gap flag is clear.
#[tactic(auto, using(regular_change::proofs::Looks::known_parts))]
fn pop_registration(s: &mut [u8]) -> Option<Result<FilterUpdate, CallAgain>>
    requires { (whole_b s.old ≡ true) × CleanedUp (read s.old) }
    ensures { (result ≡ (inner_step (read s.old)).says) × (s.new ≡ laid (inner_step (read s.old)).then s.old) }
{
    let entry = inner_front(&s[770..1032], 1)?;
    pop_registration_queue(s, entry)
}

// One inner step.
#[tactic(auto, using(regular_change::proofs::Looks::known_parts))]
fn poll_pop_filter_update(s: &mut [u8]) -> Option<Result<FilterUpdate, CallAgain>>
    requires { whole_b s.old ≡ true }
    ensures { (result ≡ (inner_step (read s.old)).says) × (s.new ≡ laid (inner_step (read s.old)).then s.old) }
{
    if let Some(entry) = inner_front(&s[770..1032], 0) {
        return pop_clean_up_queue(s, entry);
    }
    if s[1034] != 0 {
        return pop_clean_up_last(s);
    }
    pop_registration(s)
}

// From the third inner step on that says 'call again', the others that do are taken at once: that costs as much as some ten of them.
pub fn poll_pop(s: &mut [u8]) -> Result<Option<FilterUpdate>, Refusal>
    ensures { (result ≡ answer (on poll_pop s.old)) × (s.new ≡ bytes s.old (on poll_pop s.old)) }
{
    if !whole(s) {
        return Err(Refusal::NotWhole);
    }
    let mut again: u8 = 0;
    loop {
        match poll_pop_filter_update(s) {
            Some(Ok(update)) => return Ok(Some(update)),
            Some(Err(CallAgain)) if again < 2 => again += 1,
            Some(Err(CallAgain)) => activate_known(s),
            None => return Ok(None),
        }
    }
}

// Whether an entry is pointed at.
#[tactic(auto, using(regular_change::proofs::Looks::known_parts), unfolding(regular::specs::Steps::hub_push_start))]
pub fn hub_push_start(s: &mut [u8], subject: u32) -> Result<bool, Refusal>
    ensures { (result ≡ answer (on (hub_push_start subject) s.old)) × (s.new ≡ bytes s.old (on (hub_push_start subject) s.old)) }
{
    if !whole(s) {
        return Err(Refusal::NotWhole);
    }
    let subject = up_to(8191, subject)?;
    let walk = start_on(&s[0..385], subject);
    set_walk(s, 1035, walk);
    Ok(walk.is_some())
}

#[tactic(auto, using(regular_change::proofs::Looks::known_parts))]
pub fn hub_push_next(s: &mut [u8]) -> Result<Option<Pushed>, Refusal>
    ensures { (result ≡ answer (on hub_push_next s.old)) × (s.new ≡ bytes s.old (on hub_push_next s.old)) }
{
    if !whole(s) {
        return Err(Refusal::NotWhole);
    }
    let Some(entry) = walk_of(s, 1035) else {
        return Ok(None);
    };
    let i = position(&s[0..385], entry).unwrap();
    let walk = next_on(&s[0..385], i);
    set_walk(s, 1035, walk);
    Ok(Some(Pushed {
        entry,
        more: walk.is_some(),
    }))
}
