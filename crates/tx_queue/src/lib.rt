// `TxQueue` over lent bytes: what a pick and a settlement say, an entry's queue, the queue that a pick takes, and whether bytes are whole.
// Inner functions: other crates call them, and they may have preconditions.
// A length stays required where the bytes are a part of a longer slice: a range of a slice is a slice, and no array.
#![tactic(auto)]

ghost use Rattle.std.specs.Prelude.{◌≡◌, [], true, ◌/◌, ◌<◌, length, get_or, IfSome};
ghost use Rattle.state.specs.Seq.{all_b};
ghost use Rattle.multi_cycle_list.specs.Lists.{row};
ghost use Rattle.multi_cycle_list.specs.Nodes as nodes;
ghost use Rattle.emcyphal_core.specs.Priorities.{number, priority_of};
ghost use Rattle.emcyphal_core.specs.Sets.{has, first_of};
ghost use Rattle.tx_queue.specs.TxQueue as queue;
ghost use Rattle.tx_queue.specs.TxQueue.{queue_of, sets_of, filled, first_queue, mtu_b, pick_b};
ghost use Rattle.tx_queue.specs.Bytes.{queue_part, sizes_b, whole_b, read};
ghost use Rattle.tx_queue.specs.Inner.{named_b};

use emcyphal_core::{Priority, PrioritySet};
use multi_cycle_list::inner::inner_front;
use multi_cycle_list::whole::whole_marked;
use std::marker::Model;

/// A queue: twice its priority, and one more for the entries whose transfer is finished.
#[derive(Clone, Copy, Debug, PartialEq, Eq)]
pub struct Queue(u8);

impl Model for Queue {
    ghost use Rattle.std.specs.Prelude.{ℕ, ◌<◌};

    ghost Value = { ℕ };

    ghost view = { λ q. q.0 };

    ghost invariant = { λ q. q.0 < 16 };

    ghost inverse = { λ n. record { 0 = n } };
}

impl Queue {
    fn new(number: u8) -> Queue
        requires { number < 16 }
        ensures { result ≡ number }
    {
        Queue(number)
    }

    pub fn number(self) -> u8
        ensures same { result ≡ self }
        ensures small { result < 16 }
    {
        self.0
    }

    pub fn priority(self) -> Priority
        ensures priority { result ≡ priority_of (self / 2) }
        ensures number { number result ≡ self / 2 }
    {
        Priority::from_u8_truncating(self.0 / 2)
    }
}

/// What a pick takes: an entry, and the priority of the frame that it is asked for.
#[derive(Clone, Copy, Debug, PartialEq, Eq)]
pub struct Picked {
    pub entry: u8,
    pub priority: Priority,
}

/// A frame that the picked entry gave: `last` is its last byte.
#[derive(Clone, Copy, Debug, PartialEq, Eq)]
pub struct Frame {
    pub priority: u32,
    pub length: u32,
    pub last: u8,
}

/// What a settlement says: the entry that had been picked, and the wake flag.
#[derive(Clone, Copy, Debug, PartialEq, Eq)]
pub struct Settled {
    pub entry: u8,
    pub wake: bool,
}

// ---- sets and queues

// The queue that a readiness set and a started set give.
pub fn place(ready: u8, started: u8) -> Option<Queue>
    ensures { result ≡ queue_of (first_of ready) started }
{
    let priority = PrioritySet::from_bits(ready).first()?;
    let finished = !PrioritySet::from_bits(started).contains(priority);
    Some(Queue::new(2 * priority.into_u8() + u8::from(finished)))
}

// The entry's queue. The entry stays a number: `marks_ok` goes over a range of numbers, which gives no `Entry`.
#[tactic(auto, using(crate::proofs::Reading::sets_are))]
pub fn place_at(s: &[u8], entry: usize) -> Option<Queue>
    requires { (length s.now ≡ 677) × («entry» < 128) }
    ensures { result ≡ queue.place (sets_of (read s.now) «entry») }
{
    if s[546 + entry] == 0 {
        return None;
    }
    place(s[290 + entry], s[418 + entry])
}

// The mask has the queue's priority.
pub fn is_masked(mask: u8, queue: Queue) -> bool
    ensures { result ≡ has mask (queue / 2) }
{
    PrioritySet::from_bits(mask).contains(queue.priority())
}

// The class has an entry.
fn is_filled(q: &[u8], class: usize) -> bool
    requires { (nodes.whole_b q.now ≡ true) × (class < nodes.classes q.now) }
    ensures { result ≡ filled (row (nodes.read q.now) class) }
{
    inner_front(q, class).is_some()
}

// The first filled queue of a masked priority.
pub fn first_queue(s: &[u8], mask: u8) -> Option<Queue>
    requires { (length s.now ≡ 677) × ((sizes_b s.now ≡ true) × (nodes.whole_b (queue_part s.now) ≡ true)) }
    ensures first { result ≡ first_queue mask (read s.now) }
    ensures filled { IfSome result (λ queue. filled (get_or (read s.now).queues queue []) ≡ true) }
{
    (0..16)
        .find(|k| is_masked(mask, Queue::new(*k)) && is_filled(&s[0..290], usize::from(*k)))
        .map(Queue::new)
}

// ---- whole

#[tactic(auto, using(crate::proofs::Turns::sizes_are))]
fn sizes(s: &[u8]) -> bool
    requires { length s.now ≡ 677 }
    ensures { result ≡ sizes_b s.now }
{
    s[0] == 16 && s[1] == 128
}

// Each entry's mark, at 16 and its number, names its queue and one more; 0 if none.
fn marks_ok(s: &[u8], seen: &[u8; 256]) -> bool
    requires { length s.now ≡ 677 }
    ensures { result ≡ all_b 128 (named_b s.now seen.now) }
{
    (0..128).all(|entry| seen[16 + entry]
        == place_at(s, entry).map_or(0, |queue| queue.number() + 1))
}

pub fn mtu_ok(mtu: u32) -> bool
    ensures { result ≡ mtu_b mtu }
{
    matches!(mtu, 8 | 64)
}

// A pick that is open could be opened on these queues.
fn pick_ok(s: &[u8]) -> bool
    requires { (length s.now ≡ 677) × ((sizes_b s.now ≡ true) × (nodes.whole_b (queue_part s.now) ≡ true)) }
    ensures { result ≡ pick_b (read s.now) (read s.now).pick }
{
    let mtu = s[676];
    mtu == 0 || mtu_ok(u32::from(mtu)) && first_queue(s, s[675]).is_some()
}

#[tactic(auto, unfolding(crate::specs::Bytes::whole_b))]
pub fn whole(s: &[u8]) -> bool
    ensures { result ≡ whole_b s.now }
{
    if s.len() != 677 || !sizes(s) {
        return false;
    }
    let mut seen = [0; 256];
    whole_marked(&s[0..290], &mut seen) && marks_ok(s, &seen) && pick_ok(s)
}
