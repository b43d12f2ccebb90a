// The registry of response transmission over lent bytes, which are a transmit queue's. Wrappers as short as tx_msg's: of the two
// registries' calls three are alike, and a trait over their bytes, tests and definitions would be longer than what it saves.
#![tactic(auto)]

ghost use Rattle.std.specs.Prelude.{◌≡◌, length};
ghost use Rattle.state.specs.Outcome.{answer};
ghost use Rattle.tx_queue.specs.Steps.{register, unregister, update, pick, settle};
ghost use Rattle.tx_queue.specs.Calls.{on, bytes, opening, opened_bytes};

use state::Refusal;
use tx_queue::{Frame, Picked, Settled, whole};

#[tactic(auto, unfolding(tx_queue::specs::Calls::opening))]
pub fn open(s: &mut [u8]) -> Result<(), Refusal>
    ensures { (result ≡ answer (opening (length s.old))) × (s.new ≡ opened_bytes s.old (opening (length s.old))) }
{
    if s.len() != 677 {
        return Err(Refusal::NotWhole);
    }
    tx_change::open_queue(s);
    Ok(())
}

// Whether that wakes.
pub fn register(s: &mut [u8], entry: u32, readiness: u8) -> Result<bool, Refusal>
    ensures { (result ≡ answer (on (register «entry» readiness) s.old)) × (s.new ≡ bytes s.old (on (register «entry» readiness) s.old)) }
{
    if !whole(s) {
        return Err(Refusal::NotWhole);
    }
    tx_change::register(s, entry, readiness)
}

pub fn unregister(s: &mut [u8], entry: u32) -> Result<bool, Refusal>
    ensures { (result ≡ answer (on (unregister «entry») s.old)) × (s.new ≡ bytes s.old (on (unregister «entry») s.old)) }
{
    if !whole(s) {
        return Err(Refusal::NotWhole);
    }
    tx_change::unregister(s, entry)
}

// The entry's new readiness: whether that wakes.
pub fn update(s: &mut [u8], entry: u32, readiness: u8) -> Result<bool, Refusal>
    ensures { (result ≡ answer (on (update «entry» readiness) s.old)) × (s.new ≡ bytes s.old (on (update «entry» readiness) s.old)) }
{
    if !whole(s) {
        return Err(Refusal::NotWhole);
    }
    tx_change::update(s, entry, readiness)
}

pub fn pick(s: &mut [u8], mask: u8, mtu: u32) -> Result<Option<Picked>, Refusal>
    ensures { (result ≡ answer (on (pick mask mtu) s.old)) × (s.new ≡ bytes s.old (on (pick mask mtu) s.old)) }
{
    if !whole(s) {
        return Err(Refusal::NotWhole);
    }
    tx_change::pick(s, mask, mtu)
}

// What the picked entry's buffer gave: a frame, or none, and its new readiness.
pub fn settle(s: &mut [u8], frame: Option<Frame>, readiness: u8) -> Result<Settled, Refusal>
    ensures { (result ≡ answer (on (settle frame readiness) s.old)) × (s.new ≡ bytes s.old (on (settle frame readiness) s.old)) }
{
    if !whole(s) {
        return Err(Refusal::NotWhole);
    }
    tx_change::settle(s, frame, readiness)
}
