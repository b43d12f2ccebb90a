// The registry of message transmission over lent bytes: the entry tree of subjects, and a transmit queue.
#![tactic(auto, using(crate::proofs::Calls::parts))]

ghost use Rattle.std.specs.Prelude.{◌≡◌, length};
ghost use Rattle.state.specs.Seq.{all_b};
ghost use Rattle.state.specs.Outcome.{answer};
ghost use Rattle.tx_msg.specs.Steps.{register, unregister, update, pick, settle};
ghost use Rattle.tx_msg.specs.Bytes.{whole_b};
ghost use Rattle.tx_msg.specs.Calls.{on, bytes, opening, opened_bytes};
ghost use Rattle.tx_msg.specs.Means.{MessagesMeans};
ghost use Rattle.tx_msg.specs.Inner.{same_b};

use entry_tree::whole::pairs_fit;
use entry_tree::{has_subject, insert, position, remove};
use state::{Entry, Refusal, fill, up_to};
use tx_change::{becomes, is_open, is_registered, leave, open_queue};
use tx_queue::{Frame, Picked, Settled};

// Does nothing: its contract is the theorem of specs/Means.antt.
pub fn meaning()
    ensures { MessagesMeans }
{}

// An entry has a subject, and so the mark 3, just if the queue has it registered.
fn subjects_ok(q: &[u8], seen: &[u8; 256]) -> bool
    requires { length q.now ≡ 677 }
    ensures { result ≡ all_b 128 (same_b q.now seen.now) }
{
    (0..128).all(|entry| (seen[2 + entry] == 3) == (q[546 + entry] != 0))
}

#[tactic(auto, unfolding(crate::specs::Bytes::whole_b))]
pub fn whole(s: &[u8]) -> bool
    ensures { result ≡ whole_b s.now }
{
    if s.len() != 1062 || 128 < s[0] || !tx_queue::whole(&s[385..1062]) {
        return false;
    }
    let mut seen = [0; 256];
    pairs_fit(&s[0..385], &mut seen, 8191, false) && subjects_ok(&s[385..1062], &seen)
}

#[tactic(auto, using(crate::proofs::Calls::opened), unfolding(crate::specs::Calls::opening))]
pub fn open(s: &mut [u8]) -> Result<(), Refusal>
    ensures { (result ≡ answer (opening (length s.old))) × (s.new ≡ opened_bytes s.old (opening (length s.old))) }
{
    if s.len() != 1062 {
        return Err(Refusal::NotWhole);
    }
    fill(&mut s[0..385], 0);
    open_queue(&mut s[385..1062]);
    Ok(())
}

// Whether that wakes.
#[tactic(auto, using(crate::proofs::Calls::parts), unfolding(crate::specs::Steps::register))]
pub fn register(s: &mut [u8], entry: u32, subject: u32, readiness: u8) -> Result<bool, Refusal>
    ensures { (result ≡ answer (on (register «entry» subject readiness) s.old)) × (s.new ≡ bytes s.old (on (register «entry» subject readiness) s.old)) }
{
    if !whole(s) {
        return Err(Refusal::NotWhole);
    }
    let entry = Entry::try_from(entry)?;
    let subject = up_to(8191, subject)?;
    if is_open(&s[385..1062]) {
        return Err(Refusal::PickOpen);
    }
    if is_registered(&s[385..1062], entry) {
        return Err(Refusal::Registered);
    }
    if has_subject(&s[0..385], subject) {
        return Err(Refusal::Occupied);
    }
    insert(&mut s[0..385], entry.number(), subject);
    Ok(becomes(&mut s[385..1062], entry, None, readiness, 0))
}

#[tactic(auto, using(crate::proofs::Calls::parts), unfolding(tx_queue::specs::Steps::unregister))]
pub fn unregister(s: &mut [u8], entry: u32) -> Result<bool, Refusal>
    ensures { (result ≡ answer (on (unregister «entry») s.old)) × (s.new ≡ bytes s.old (on (unregister «entry») s.old)) }
{
    if !whole(s) {
        return Err(Refusal::NotWhole);
    }
    let entry = Entry::try_from(entry)?;
    if is_open(&s[385..1062]) {
        return Err(Refusal::PickOpen);
    }
    if !is_registered(&s[385..1062], entry) {
        return Err(Refusal::NotRegistered);
    }
    let i = position(&s[0..385], entry.number()).unwrap();
    remove(&mut s[0..385], i);
    leave(&mut s[385..1062], entry);
    Ok(false)
}

// The entry's new readiness: whether that wakes.
pub fn update(s: &mut [u8], entry: u32, readiness: u8) -> Result<bool, Refusal>
    ensures { (result ≡ answer (on (update «entry» readiness) s.old)) × (s.new ≡ bytes s.old (on (update «entry» readiness) s.old)) }
{
    if !whole(s) {
        return Err(Refusal::NotWhole);
    }
    tx_change::update(&mut s[385..1062], entry, readiness)
}

pub fn pick(s: &mut [u8], mask: u8, mtu: u32) -> Result<Option<Picked>, Refusal>
    ensures { (result ≡ answer (on (pick mask mtu) s.old)) × (s.new ≡ bytes s.old (on (pick mask mtu) s.old)) }
{
    if !whole(s) {
        return Err(Refusal::NotWhole);
    }
    tx_change::pick(&mut s[385..1062], mask, mtu)
}

// What the picked entry's buffer gave: a frame, or none, and its new readiness.
pub fn settle(s: &mut [u8], frame: Option<Frame>, readiness: u8) -> Result<Settled, Refusal>
    ensures { (result ≡ answer (on (settle frame readiness) s.old)) × (s.new ≡ bytes s.old (on (settle frame readiness) s.old)) }
{
    if !whole(s) {
        return Err(Refusal::NotWhole);
    }
    tx_change::settle(&mut s[385..1062], frame, readiness)
}
