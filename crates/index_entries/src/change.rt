// The changes: each leaves the bytes of the changed meaning.
// Numbers are widened by `as`, which proofs compute; tried with `usize::from`: each proof would have to cite its contract once more.
ghost use Rattle.std.specs.Prelude.{◌≡◌, true, false, ◌+◌, ◌*◌, ◌<◌, ◌≤◌, length, replicate};
ghost use Rattle.state.specs.Lengths.{lists_length, keys_allowed, keys_length};
ghost use Rattle.multi_cycle_list.specs.Lists.{without_entry, moved_back};
ghost use Rattle.multi_cycle_list.specs.Laid.{laid as lists_laid};
ghost use Rattle.multi_cycle_list.specs.Nodes as lists;
ghost use Rattle.index_entries.specs.Keys.{holds, spent, free, missing, slot, found, is_free, with_slot, with_lists, changed, fresh, free_first};
ghost use Rattle.index_entries.specs.Bytes.{entries, k_max, key_word, read, whole_b};
ghost use Rattle.index_entries.specs.Inner.{set_word, set_long, with_list, moved};
ghost use Rattle.index_entries.specs.Laid.{laid};

use crate::look::lists_end;
use multi_cycle_list::inner::{inner_move_back, inner_move_front, inner_open, inner_remove};
use state::fill;

fn set_word(s: &mut [u8], a: usize, w: u16)
    requires { a + 1 < length s.old }
    ensures { s.new ≡ set_word s.old a w }
{
    let [low, high] = w.to_le_bytes();
    s[a] = low;
    s[a + 1] = high;
}

fn set_long(s: &mut [u8], a: usize, v: u32)
    requires { a + 3 < length s.old }
    ensures { s.new ≡ set_long s.old a v }
{
    set_word(s, a, (v % 65536) as u16);
    set_word(s, a + 2, (v / 65536) as u16);
}

// ---- the list queue

// Where an entry of the queue goes: to its front, to its back, or out of it.
#[derive(Clone, Copy, Debug, PartialEq, Eq)]
pub enum Move {
    Front,
    Back,
    Out,
}

fn move_entry(q: &mut [u8], i: usize, to: Move)
    requires { (lists.whole_b q.old ≡ true) × ((0 < lists.classes q.old) × (i < lists.entries q.old)) }
    ensures { q.new ≡ lists_laid (moved to i (lists.read q.old)) }
{
    match to {
        Move::Front => inner_move_front(q, 0, i),
        Move::Back => inner_move_back(q, 0, i),
        Move::Out => inner_remove(q, i),
    }
}

#[tactic(auto, using(crate::proofs::Sizes::sizes, crate::proofs::Acts::lent))]
fn move_listed(s: &mut [u8], i: usize, to: Move)
    requires { (whole_b s.old ≡ true) × (i < entries s.old) }
    ensures { s.new ≡ with_list s.old (moved to i (read s.old).lists) }
{
    let e = lists_end(s);
    move_entry(&mut s[2..e], i, to);
}

// The entry joins the back of the free ones, which are class 1.
#[tactic(auto, using(crate::proofs::Sizes::sizes, crate::proofs::Acts::lent))]
fn list_free(s: &mut [u8], i: usize)
    requires { (whole_b s.old ≡ true) × (i < entries s.old) }
    ensures { s.new ≡ with_list s.old (moved_back 1 i (read s.old).lists) }
{
    let e = lists_end(s);
    inner_move_back(&mut s[2..e], 1, i);
}

// ---- the changes

// The value of the entry `i`, which has one, becomes `v`.
#[tactic(auto, using(crate::proofs::Sizes::sizes, crate::proofs::Acts::value_laid))]
pub fn store_value(s: &mut [u8], i: usize, v: u32)
    requires { (whole_b s.old ≡ true) × ((i < entries s.old) × (key_word (entries s.old) s.old i < 8192)) }
    ensures { s.new ≡ laid (with_slot i (holds (key_word (entries s.old) s.old i) v) (read s.old)) s.old }
{
    let n = s[3] as usize;
    set_long(s, 8 + 4 * n + 4 * i, v);
}

// The value of the entry `i`, which has the key `key` and a value, is handed back.
#[tactic(auto, using(crate::proofs::Sizes::sizes, crate::proofs::Acts::spent_laid))]
pub fn spend(s: &mut [u8], i: usize, key: u16)
    requires { (whole_b s.old ≡ true) × ((i < entries s.old) × ((key_word (entries s.old) s.old i ≡ key) × (key < 8192))) }
    ensures { s.new ≡ laid (with_slot i (spent key) (read s.old)) s.old }
{
    let n = s[3] as usize;
    set_word(s, 8 + 2 * n + 2 * i, 8192 + key);
}

// The free entry `i` takes the new key `key` and the value `v`.
#[tactic(auto, using(crate::proofs::Sizes::sizes, crate::proofs::Acts::taken_laid))]
pub fn take_entry(s: &mut [u8], i: usize, key: u16, v: u32)
    requires { (whole_b s.old ≡ true) × ((i < entries s.old) × ((is_free (slot (read s.old) i) ≡ true) × ((key ≤ k_max s.old) × (found (read s.old) key ≡ missing)))) }
    ensures { s.new ≡ laid (changed i (holds key v) (without_entry i (read s.old).lists) (read s.old)) s.old }
{
    let n = s[3] as usize;
    move_listed(s, i, Move::Out);
    set_word(s, 8 + 2 * n + 2 * i, key);
    set_long(s, 8 + 4 * n + 4 * i, v);
    s[8 + 8 * n + key as usize] = i as u8;
}

// The entry `i`, which has the key `key` and a value, has neither any more, and joins the back of the free entries.
#[tactic(auto, using(crate::proofs::Sizes::sizes, crate::proofs::Acts::freed_laid, crate::proofs::Acts::in_range))]
pub fn free_entry(s: &mut [u8], i: usize, key: u16)
    requires { (whole_b s.old ≡ true) × ((i < entries s.old) × ((key_word (entries s.old) s.old i ≡ key) × (key < 8192))) }
    ensures { s.new ≡ laid (changed i free (moved_back 1 i (read s.old).lists) (read s.old)) s.old }
{
    let n = s[3] as usize;
    list_free(s, i);
    set_word(s, 8 + 2 * n + 2 * i, 65535);
    s[8 + 8 * n + key as usize] = 255;
}

// The entry `i`, which is not free, moves.
#[tactic(auto, using(crate::proofs::Sizes::sizes, crate::proofs::Acts::moved_laid))]
pub fn queue_move(s: &mut [u8], i: usize, to: Move)
    requires { (whole_b s.old ≡ true) × ((i < entries s.old) × (is_free (slot (read s.old) i) ≡ false)) }
    ensures { s.new ≡ laid (with_lists (moved to i (read s.old).lists) (read s.old)) s.old }
{
    move_listed(s, i, to);
}

// Every entry joins the back of the free ones, in order.
#[tactic(auto, using(crate::proofs::Fresh::two_allowed, crate::proofs::Fresh::none_laid, crate::proofs::Fresh::next_is))]
fn open_lists(q: &mut [u8], n: usize)
    requires { (n ≤ 222) × (length q.old ≡ lists_length 2 n) }
    ensures { q.new ≡ lists_laid (free_first n n) }
{
    inner_open(q, 2, n);
    for i in 0..n {
        inner_move_back(q, 1, i);
    }
}

// Every byte is written.
#[tactic(auto, using(crate::proofs::Fresh::opened_laid, crate::proofs::Facts::few))]
pub fn open_entries(s: &mut [u8], k_max: u16, n: usize)
    requires { (keys_allowed k_max n ≡ true) × (length s.old ≡ keys_length k_max n) }
    ensures { s.new ≡ laid (fresh k_max n) (replicate (length s.old) 255) }
{
    fill(s, 255);
    set_word(s, 0, k_max);
    let e = 8 + 2 * n;
    open_lists(&mut s[2..e], n);
}
