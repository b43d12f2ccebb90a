// What the transmit registries' calls do once the bytes are known whole. Inner functions: other crates call them, and they may have preconditions.
// Whole bytes are required, and no struct carries that: a change writes its parts one after the other, and in between they are not whole.
#![tactic(auto, using(crate::proofs::Looks::looks))]

ghost use Rattle.std.specs.Prelude.{◌≡◌, [], true, ◌<◌, length, get_or, replicate};
ghost use Rattle.state.specs.Outcome.{answer};
ghost use Rattle.tx_queue.specs.TxQueue as queue;
ghost use Rattle.tx_queue.specs.TxQueue.{sets_of, filled, fresh};
ghost use Rattle.tx_queue.specs.Bytes.{whole_b, read, laid};
ghost use Rattle.tx_queue.specs.Steps as steps;
ghost use Rattle.tx_queue.specs.Steps.{is_open, is_registered, requeued, becomes, sets, started_of, picked, register, unregister, update, pick, settle};
ghost use Rattle.tx_queue.specs.Calls.{bytes};
ghost use Rattle.tx_change.specs.Inner.{with_queues, with_sets, framed, unframed, fits_pick};

use emcyphal_core::PrioritySet;
use format::TailByte;
use multi_cycle_list::inner::{inner_front, inner_move_back, inner_open, inner_remove};
use state::{Entry, Refusal, fill};
use tx_queue::{Frame, Picked, Queue, Settled, first_queue, is_masked, mtu_ok, place, place_at};

// Every byte is written.
pub fn open_queue(s: &mut [u8])
    requires { length s.old ≡ 677 }
    ensures { s.new ≡ laid fresh (replicate 677 0) }
{
    fill(s, 0);
    inner_open(&mut s[0..290], 16, 128);
}

// ---- looking

pub fn is_open(s: &[u8]) -> bool
    requires { length s.now ≡ 677 }
    ensures { result ≡ is_open (read s.now).pick }
{
    s[676] != 0
}

pub fn is_registered(s: &[u8], entry: Entry) -> bool
    requires { length s.now ≡ 677 }
    ensures { result ≡ is_registered (sets_of (read s.now) «entry») }
{
    s[546 + usize::from(entry.number())] != 0
}

// The started set of a registered entry.
fn started(s: &[u8], entry: Entry) -> u8
    requires { (length s.now ≡ 677) × (is_registered (sets_of (read s.now) «entry») ≡ true) }
    ensures { result ≡ started_of (sets_of (read s.now) «entry») }
{
    s[418 + usize::from(entry.number())]
}

// ---- an entry's place

// By reference: an `Option<Queue>` that a call takes by value cannot be used again.
fn wakes(mask: u8, from: &Option<Queue>, to: &Option<Queue>) -> bool
    ensures { result ≡ steps.wakes from.now to.now mask }
{
    match *to {
        Some(queue) => to != from && is_masked(mask, queue),
        None => false,
    }
}

// The entry, which stands in the queue `from`, belongs in the queue `to`.
fn requeue(s: &mut [u8], entry: Entry, from: Option<Queue>, to: Option<Queue>)
    requires { whole_b s.old ≡ true }
    ensures { s.new ≡ with_queues s.old (requeued «from» to «entry» (read s.old).queues) }
{
    let entry = usize::from(entry.number());
    let Some(queue) = to else {
        inner_remove(&mut s[0..290], entry);
        return;
    };
    if to != from {
        inner_move_back(&mut s[0..290], usize::from(queue.number()), entry);
    }
}

// The entry stays a number: `becomes` learns that it is below 128 where it asks for the number.
fn set_sets(s: &mut [u8], entry: usize, ready: u8, started: u8)
    requires { (length s.old ≡ 677) × («entry» < 128) }
    ensures { s.new ≡ with_sets s.old «entry» ready started }
{
    s[290 + entry] = ready;
    s[418 + entry] = started;
    if s[546 + entry] == 0 {
        s[546 + entry] = 1;
    }
}

// The entry, which stands in the queue `from`, gets the sets; any pick is over. Whether that wakes.
pub fn becomes(s: &mut [u8], entry: Entry, from: Option<Queue>, ready: u8, started: u8) -> bool
    requires { whole_b s.old ≡ true }
    ensures wake { result ≡ steps.wakes «from» (queue.place (sets ready started)) (read s.old).mask }
    ensures bytes { s.new ≡ laid (becomes «entry» «from» (sets ready started) (read s.old)) s.old }
{
    let to = place(ready, started);
    let wake = wakes(s[674], &from, &to);
    requeue(s, entry, from, to);
    set_sets(s, usize::from(entry.number()), ready, started);
    s[676] = 0;
    wake
}

pub fn leave(s: &mut [u8], entry: Entry)
    requires { (whole_b s.old ≡ true) × ((read s.old).pick ≡ None) }
    ensures { s.new ≡ laid (becomes «entry» (queue.place (sets_of (read s.old) «entry»)) None (read s.old)) s.old }
{
    let entry = usize::from(entry.number());
    inner_remove(&mut s[0..290], entry);
    s[546 + entry] = 0;
}

// ---- the calls

#[tactic(auto, using(crate::proofs::Looks::looks), unfolding(tx_queue::specs::Steps::register))]
pub fn register(s: &mut [u8], entry: u32, readiness: u8) -> Result<bool, Refusal>
    requires { whole_b s.old ≡ true }
    ensures { (result ≡ answer (register «entry» readiness (read s.old))) × (s.new ≡ bytes s.old (register «entry» readiness (read s.old))) }
{
    let entry = Entry::try_from(entry)?;
    if is_open(s) {
        return Err(Refusal::PickOpen);
    }
    if is_registered(s, entry) {
        return Err(Refusal::Registered);
    }
    Ok(becomes(s, entry, None, readiness, 0))
}

#[tactic(auto, using(crate::proofs::Looks::looks), unfolding(tx_queue::specs::Steps::unregister))]
pub fn unregister(s: &mut [u8], entry: u32) -> Result<bool, Refusal>
    requires { whole_b s.old ≡ true }
    ensures { (result ≡ answer (unregister «entry» (read s.old))) × (s.new ≡ bytes s.old (unregister «entry» (read s.old))) }
{
    let entry = Entry::try_from(entry)?;
    if is_open(s) {
        return Err(Refusal::PickOpen);
    }
    if !is_registered(s, entry) {
        return Err(Refusal::NotRegistered);
    }
    leave(s, entry);
    Ok(false)
}

// The entry's new readiness.
#[tactic(auto, using(crate::proofs::Looks::looks), unfolding(tx_queue::specs::Steps::update))]
pub fn update(s: &mut [u8], entry: u32, readiness: u8) -> Result<bool, Refusal>
    requires { whole_b s.old ≡ true }
    ensures { (result ≡ answer (update «entry» readiness (read s.old))) × (s.new ≡ bytes s.old (update «entry» readiness (read s.old))) }
{
    let entry = Entry::try_from(entry)?;
    if is_open(s) {
        return Err(Refusal::PickOpen);
    }
    if !is_registered(s, entry) {
        return Err(Refusal::NotRegistered);
    }
    let from = place_at(s, usize::from(entry.number()));
    let started = started(s, entry);
    Ok(becomes(s, entry, from, readiness, started))
}

// What a pick of a filled queue names: the queue's front entry, and the entry's started set.
#[derive(Clone, Copy)]
struct Turn {
    queue: Queue,
    entry: Entry,
    started: u8,
}

fn front(s: &[u8], queue: Queue) -> Turn
    requires { (whole_b s.now ≡ true) × (filled (get_or (read s.now).queues queue []) ≡ true) }
    ensures { (result.queue ≡ queue) × ((result.entry ≡ picked queue (read s.now)) × (result.started ≡ started_of (sets_of (read s.now) result.entry))) }
{
    let front = inner_front(&s[0..290], usize::from(queue.number())).unwrap();
    let entry = Entry::try_from(u32::from(front)).unwrap();
    Turn {
        queue,
        entry,
        started: started(s, entry),
    }
}

#[tactic(auto, using(crate::proofs::Looks::looks, crate::proofs::Acts::stores), unfolding(tx_queue::specs::Steps::pick))]
pub fn pick(s: &mut [u8], mask: u8, mtu: u32) -> Result<Option<Picked>, Refusal>
    requires { whole_b s.old ≡ true }
    ensures { (result ≡ answer (pick mask mtu (read s.old))) × (s.new ≡ bytes s.old (pick mask mtu (read s.old))) }
{
    if !mtu_ok(mtu) {
        return Err(Refusal::Range);
    }
    if is_open(s) {
        return Err(Refusal::PickOpen);
    }
    let Some(queue) = first_queue(s, mask) else {
        if !PrioritySet::from_bits(mask).is_empty() {
            s[674] = mask;
        }
        return Ok(None);
    };
    let entry = front(s, queue).entry.number();
    s[675] = mask;
    s[676] = mtu as u8;
    Ok(Some(Picked {
        entry,
        priority: queue.priority(),
    }))
}

// A frame ends the picked entry's transfer or not.
fn settle_frame(s: &mut [u8], turn: Turn, readiness: u8, eot: bool) -> Settled
    requires { whole_b s.old ≡ true }
    ensures { (Ok result ≡ answer (framed eot readiness turn (read s.old))) × (s.new ≡ bytes s.old (framed eot readiness turn (read s.old))) }
{
    let Turn {
        queue,
        entry,
        started,
    } = turn;
    let number = entry.number();
    let priority = queue.priority();
    let mut started = PrioritySet::from_bits(started);
    let wake = if eot {
        started.remove(priority);
        becomes(s, entry, None, readiness, started.into_bits())
    } else {
        started.insert(priority);
        becomes(s, entry, Some(queue), readiness, started.into_bits())
    };
    Settled {
        entry: number,
        wake,
    }
}

// No frame: the pick's mask is stored after the place is worked out.
fn settle_nothing(s: &mut [u8], turn: Turn, readiness: u8) -> Settled
    requires { whole_b s.old ≡ true }
    ensures { (Ok result ≡ answer (unframed readiness turn (get_or s.old 675 0) (read s.old))) × (s.new ≡ bytes s.old (unframed readiness turn (get_or s.old 675 0) (read s.old))) }
{
    let entry = turn.entry.number();
    let mask = s[675];
    let wake = becomes(s, turn.entry, Some(turn.queue), readiness, turn.started);
    s[674] = mask;
    Settled { entry, wake }
}

// A reported frame is not empty, not longer than the pick's mtu, and of the queue's priority.
fn frame_ok(mtu: u8, queue: Queue, frame: Frame) -> bool
    ensures { result ≡ fits_pick mtu queue frame }
{
    frame.length != 0
        && frame.length <= u32::from(mtu)
        && frame.priority == u32::from(queue.priority().into_u8())
}

#[tactic(auto, using(crate::proofs::Looks::looks), unfolding(tx_queue::specs::Steps::settle))]
pub fn settle(s: &mut [u8], frame: Option<Frame>, readiness: u8) -> Result<Settled, Refusal>
    requires { whole_b s.old ≡ true }
    ensures { (result ≡ answer (settle frame readiness (read s.old))) × (s.new ≡ bytes s.old (settle frame readiness (read s.old))) }
{
    if frame.is_some_and(|frame| 7 < frame.priority) {
        return Err(Refusal::Range);
    }
    if !is_open(s) {
        return Err(Refusal::NoPick);
    }
    let queue = first_queue(s, s[675]).unwrap();
    let turn = front(s, queue);
    let Some(frame) = frame else {
        return Ok(settle_nothing(s, turn, readiness));
    };
    if !frame_ok(s[676], queue, frame) {
        return Err(Refusal::BadFrame);
    }
    Ok(settle_frame(s, turn, readiness, TailByte::from(frame.last).eot()))
}
