// The registry of request reception over lent bytes.
#![tactic(auto)]

ghost use Rattle.std.specs.Prelude.{◌≡◌, length};
ghost use Rattle.state.specs.Outcome.{answer};
ghost use Rattle.rx_req.specs.Steps.{register, unregister, poll_push};
ghost use Rattle.rx_req.specs.Bytes.{whole_b};
ghost use Rattle.rx_req.specs.Calls.{on, bytes, opening, opened_bytes};
ghost use Rattle.rx_req.specs.Means.{RequestsMeans};

use entry_tree::walk::start_on;
use entry_tree::whole::pairs_fit;
use entry_tree::{has_entry, has_subject, insert, position, remove};
use state::{Entry, Refusal, fill, up_to};

// Does nothing: its contract is the theorem of specs/Means.antt.
pub fn meaning()
    ensures { RequestsMeans }
{}

#[tactic(auto, using(crate::proofs::Testing::pairs_test), unfolding(crate::specs::Bytes::whole_b))]
pub fn whole(s: &[u8]) -> bool
    ensures { result ≡ whole_b s.now }
{
    if s.len() != 385 || 128 < s[0] {
        return false;
    }
    let mut seen = [0; 256];
    pairs_fit(s, &mut seen, 511, false)
}

#[tactic(auto, using(crate::proofs::Calls::opened), unfolding(crate::specs::Calls::opening))]
pub fn open(s: &mut [u8]) -> Result<(), Refusal>
    ensures { (result ≡ answer (opening (length s.old))) × (s.new ≡ opened_bytes s.old (opening (length s.old))) }
{
    if s.len() != 385 {
        return Err(Refusal::NotWhole);
    }
    fill(s, 0);
    Ok(())
}

#[tactic(auto, using(crate::proofs::Calls::parts), unfolding(crate::specs::Steps::register))]
pub fn register(s: &mut [u8], entry: u32, service: u32) -> Result<(), Refusal>
    ensures { (result ≡ answer (on (register «entry» service) s.old)) × (s.new ≡ bytes s.old (on (register «entry» service) s.old)) }
{
    if !whole(s) {
        return Err(Refusal::NotWhole);
    }
    let entry = Entry::try_from(entry)?.number();
    let service = up_to(511, service)?;
    if has_entry(s, entry) {
        return Err(Refusal::Registered);
    }
    if has_subject(s, service) {
        return Err(Refusal::Occupied);
    }
    insert(s, entry, service);
    Ok(())
}

#[tactic(auto, using(crate::proofs::Calls::parts), unfolding(crate::specs::Steps::unregister))]
pub fn unregister(s: &mut [u8], entry: u32) -> Result<(), Refusal>
    ensures { (result ≡ answer (on (unregister «entry») s.old)) × (s.new ≡ bytes s.old (on (unregister «entry») s.old)) }
{
    if !whole(s) {
        return Err(Refusal::NotWhole);
    }
    let entry = Entry::try_from(entry)?.number();
    let i = position(s, entry).ok_or(Refusal::NotRegistered)?;
    remove(s, i);
    Ok(())
}

// The entry that gets a frame of a request.
#[tactic(auto, using(crate::proofs::Calls::parts), unfolding(crate::specs::Steps::poll_push))]
pub fn poll_push(s: &[u8], service: u32, loop_back: bool) -> Result<Option<u8>, Refusal>
    ensures { result ≡ answer (on (poll_push service loop_back) s.now) }
{
    if !whole(s) {
        return Err(Refusal::NotWhole);
    }
    let service = up_to(511, service)?;
    Ok(if loop_back {
        None
    } else {
        start_on(s, service)
    })
}
