// `IndexQueue`'s calls over lent bytes. `NotWhole`: the bytes are not whole. `Size`: sizes not allowed. `NotTaken`: an insert not taken, with its key and value.
// `NoKey`: a key without an entry. `ValueGone`: a key whose value was handed back.
#![tactic(auto)]

ghost use Rattle.std.specs.Prelude.{◌≡◌, true, ◌<◌, length};
ghost use Rattle.state.specs.Outcome.{answer};
ghost use Rattle.multi_cycle_list.specs.Lists.{first, row};
ghost use Rattle.index_entries.specs.Keys.{found, missing, slot};
ghost use Rattle.index_entries.specs.Bytes.{whole_b, read, entries};
ghost use Rattle.index_queue.specs.Inner.{find, find_value, key_moved, Below};
ghost use Rattle.index_queue.specs.Calls.{on, bytes, opened_bytes, opening, contains, get, get_mut, insert, remove, front, back, key_in, key_at, enqueue_front, enqueue_back, dequeue, KeysMean};

use index_entries::change::{
    Move, free_entry, open_entries, queue_move, spend, store_value, take_entry,
};
use index_entries::look::{Held, get_index, held_at, lists_end, word};
use index_whole::whole;
use multi_cycle_list::inner::{inner_back, inner_front};
use state::Refusal;

#[tactic(auto, unfolding(crate::specs::Calls::opening))]
pub fn open(s: &mut [u8], k_max: u32, entries: u32) -> Result<(), Refusal>
    ensures { (result ≡ answer (opening (length s.old) k_max entries)) × (s.new ≡ opened_bytes s.old (opening (length s.old) k_max entries)) }
{
    if 8191 < k_max || 222 < entries {
        return Err(Refusal::Size);
    }
    let k = k_max as usize;
    let n = entries as usize;
    if s.len() != 11 + 8 * n + 4 * ((k + 1) / 4) {
        return Err(Refusal::NotWhole);
    }
    open_entries(s, k_max as u16, n);
    Ok(())
}

// The key's entry, if any.
fn find(s: &[u8], key: u16) -> Result<Option<usize>, Refusal>
    ensures { result ≡ find s.now key }
{
    if whole(s) {
        Ok(get_index(s, key))
    } else {
        Err(Refusal::NotWhole)
    }
}

// The key's entry and its value, none where it was handed back.
#[tactic(auto, using(crate::proofs::Finding::entry_laws))]
fn find_value(s: &[u8], key: u16) -> Result<Option<(usize, Option<u32>)>, Refusal>
    ensures { result ≡ find_value s.now key }
{
    let Some(i) = find(s, key)? else {
        return Ok(None);
    };
    let value = match held_at(s, i) {
        Held::Value(_, value) => Some(value),
        Held::Spent(_) | Held::Free => None,
    };
    Ok(Some((i, value)))
}

#[tactic(auto, unfolding(crate::specs::Calls::contains))]
pub fn contains(s: &[u8], key: u16) -> Result<bool, Refusal>
    ensures { result ≡ answer (on (contains key) s.now) }
{
    Ok(find(s, key)?.is_some())
}

// Document 01 leaves open what is answered where the value was handed back: here, that there is none.
#[tactic(auto, using(crate::proofs::Finding::value_laws), unfolding(crate::specs::Calls::get))]
pub fn get(s: &[u8], key: u16) -> Result<Option<u32>, Refusal>
    ensures { result ≡ answer (on (get key) s.now) }
{
    let Some((_, value)) = find_value(s, key)? else {
        return Ok(None);
    };
    Ok(value)
}

// Stores `value` where the key has one, and tells whether. Open in document 01, as for `get`, where the value was handed back: nothing is stored.
#[tactic(auto, using(crate::proofs::Finding::value_laws, crate::proofs::Ends::same_bytes), unfolding(crate::specs::Calls::get_mut))]
pub fn get_mut(s: &mut [u8], key: u16, value: u32) -> Result<bool, Refusal>
    ensures { (result ≡ answer (on (get_mut key value) s.old)) × (s.new ≡ bytes s.old (on (get_mut key value) s.old)) }
{
    let Some((i, Some(_))) = find_value(s, key)? else {
        return Ok(false);
    };
    store_value(s, i, value);
    Ok(true)
}

// The first entry of the queue, which is class 0, or of the free ones, class 1.
#[tactic(auto, using(index_entries::proofs::Acts::lent, crate::proofs::Ends::lent_row))]
fn first_of(s: &[u8], class: usize) -> Option<u8>
    requires { (whole_b s.now ≡ true) × (class < 2) }
    ensures { result ≡ first (row (read s.now).lists class) }
{
    let e = lists_end(s);
    inner_front(&s[2..e], class)
}

// A key that has no entry: the first free entry takes it.
#[tactic(auto, using(crate::proofs::Ends::free_laws), unfolding(crate::specs::Calls::insert))]
fn insert_new(s: &mut [u8], key: u16, value: u32) -> Result<Option<u32>, Refusal>
    requires { (whole_b s.old ≡ true) × (found (read s.old) key ≡ missing) }
    ensures { (result ≡ answer (on (insert key value) s.old)) × (s.new ≡ bytes s.old (on (insert key value) s.old)) }
{
    if word(s, 0) < key {
        return Err(Refusal::NotTaken(key, value));
    }
    let i = first_of(s, 1).ok_or(Refusal::NotTaken(key, value))?;
    take_entry(s, usize::from(i), key, value);
    Ok(None)
}

#[tactic(auto, using(crate::proofs::Finding::value_laws), unfolding(crate::specs::Calls::insert))]
pub fn insert(s: &mut [u8], key: u16, value: u32) -> Result<Option<u32>, Refusal>
    ensures { (result ≡ answer (on (insert key value) s.old)) × (s.new ≡ bytes s.old (on (insert key value) s.old)) }
{
    let Some((i, old)) = find_value(s, key)? else {
        return insert_new(s, key, value);
    };
    let old = old.ok_or(Refusal::ValueGone)?;
    spend(s, i, key);
    Ok(Some(old))
}

#[tactic(auto, using(crate::proofs::Finding::value_laws, crate::proofs::Ends::same_bytes), unfolding(crate::specs::Calls::remove))]
pub fn remove(s: &mut [u8], key: u16) -> Result<Option<u32>, Refusal>
    ensures { (result ≡ answer (on (remove key) s.old)) × (s.new ≡ bytes s.old (on (remove key) s.old)) }
{
    let Some((i, value)) = find_value(s, key)? else {
        return Ok(None);
    };
    let value = value.ok_or(Refusal::ValueGone)?;
    free_entry(s, i, key);
    Ok(Some(value))
}

// The key of the entry `i`.
fn key_at(s: &[u8], i: usize) -> Option<u16>
    requires { (whole_b s.now ≡ true) × (i < entries s.now) }
    ensures { result ≡ key_in (slot (read s.now) i) }
{
    match held_at(s, i) {
        Held::Value(key, _) => Some(key),
        Held::Spent(key) => Some(key),
        Held::Free => None,
    }
}

fn key_of(s: &[u8], entry: Option<u8>) -> Option<u16>
    requires { (whole_b s.now ≡ true) × Below (entries s.now) entry }
    ensures { result ≡ key_at (read s.now) entry }
{
    entry.and_then(|i| key_at(s, usize::from(i)))
}

#[tactic(auto, using(crate::proofs::Ends::first_entry), unfolding(crate::specs::Calls::front))]
pub fn front(s: &[u8]) -> Result<Option<u16>, Refusal>
    ensures { result ≡ answer (on front s.now) }
{
    if !whole(s) {
        return Err(Refusal::NotWhole);
    }
    Ok(key_of(s, first_of(s, 0)))
}

#[tactic(auto, using(index_entries::proofs::Acts::lent, crate::proofs::Ends::lent_row, crate::proofs::Ends::last_entry), unfolding(crate::specs::Calls::back))]
pub fn back(s: &[u8]) -> Result<Option<u16>, Refusal>
    ensures { result ≡ answer (on back s.now) }
{
    if !whole(s) {
        return Err(Refusal::NotWhole);
    }
    let e = lists_end(s);
    Ok(key_of(s, inner_back(&s[2..e], 0)))
}

// The key's entry moves in the queue, or joins it.
#[tactic(auto, using(crate::proofs::Finding::entry_laws))]
fn move_key(s: &mut [u8], key: u16, to: Move) -> Result<(), Refusal>
    ensures { (result ≡ answer (on (key_moved to key) s.old)) × (s.new ≡ bytes s.old (on (key_moved to key) s.old)) }
{
    let i = find(s, key)?.ok_or(Refusal::NoKey)?;
    queue_move(s, i, to);
    Ok(())
}

#[tactic(auto, unfolding(crate::specs::Calls::enqueue_front))]
pub fn enqueue_front(s: &mut [u8], key: u16) -> Result<(), Refusal>
    ensures { (result ≡ answer (on (enqueue_front key) s.old)) × (s.new ≡ bytes s.old (on (enqueue_front key) s.old)) }
{
    move_key(s, key, Move::Front)
}

#[tactic(auto, unfolding(crate::specs::Calls::enqueue_back))]
pub fn enqueue_back(s: &mut [u8], key: u16) -> Result<(), Refusal>
    ensures { (result ≡ answer (on (enqueue_back key) s.old)) × (s.new ≡ bytes s.old (on (enqueue_back key) s.old)) }
{
    move_key(s, key, Move::Back)
}

#[tactic(auto, unfolding(crate::specs::Calls::dequeue))]
pub fn dequeue(s: &mut [u8], key: u16) -> Result<(), Refusal>
    ensures { (result ≡ answer (on (dequeue key) s.old)) × (s.new ≡ bytes s.old (on (dequeue key) s.old)) }
{
    move_key(s, key, Move::Out)
}

// Does nothing: its contract is the theorem of specs/Calls.antt.
pub fn meaning()
    ensures { KeysMean }
{}
