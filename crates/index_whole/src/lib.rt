// Whether bytes are a whole key queue.
#![tactic(auto)]

ghost use Rattle.std.specs.Prelude.{◌≡◌, ◌+◌, ◌<◌, ◌≤◌, length};
ghost use Rattle.state.specs.Seq.{all_b};
ghost use Rattle.multi_cycle_list.specs.Inner.{unmarked};
ghost use Rattle.index_entries.specs.Bytes.{k_max, entries, slot_at, sizes_b, slot_b, key_b, whole_b};
ghost use Rattle.index_whole.specs.Inner.{Sized, Freed, Listed};

use index_entries::look::word;
use multi_cycle_list::whole::whole_marked;

#[tactic(auto, using(crate::proofs::SizeLaws::sizes_are, crate::proofs::SizeLaws::too_short))]
fn sizes(s: &[u8]) -> bool
    ensures { result ≡ sizes_b s.now }
{
    if s.len() < 11 {
        return false;
    }
    let k = usize::from(word(s, 0));
    let n = usize::from(s[3]);
    k <= 8191 && n <= 222 && s.len() == 11 + 8 * n + 4 * ((k + 1) / 4)
}

// Marks the node of each free entry with 2.
#[tactic(auto, using(crate::proofs::ListLaws::not_two))]
fn lists(s: &[u8], seen: &mut [u8; 256]) -> bool
    requires { Sized s.now × (seen.old ≡ unmarked) }
    ensures { Listed s.now seen.new result }
{
    if s[2] != 2 {
        return false;
    }
    let end = 8 + 2 * usize::from(s[3]);
    whole_marked(&s[2..end], seen)
}

// The entry i has no key and is free, or its key's index names it and it is not free.
fn slot_ok(s: &[u8], seen: &[u8; 256], i: usize) -> bool
    requires { Sized s.now × (Freed s.now seen.now × (i < entries s.now)) }
    ensures { result ≡ slot_b s.now i (slot_at s.now i) }
{
    let n = usize::from(s[3]);
    let w = usize::from(word(s, 8 + 2 * n + 2 * i));
    let mark = seen[2 + i];
    if 16384 <= w {
        return mark == 2;
    }
    let key = w % 8192;
    key <= usize::from(word(s, 0)) && usize::from(s[8 + 8 * n + key]) == i && mark != 2
}

fn slots(s: &[u8], seen: &[u8; 256]) -> bool
    requires { Sized s.now × Freed s.now seen.now }
    ensures { result ≡ all_b (entries s.now) (λ i. slot_b s.now i (slot_at s.now i)) }
{
    (0..usize::from(s[3])).all(|i| slot_ok(s, seen, i))
}

// The index names no entry at the key j, or one that has the key.
fn key_ok(s: &[u8], j: usize) -> bool
    requires { Sized s.now × (j ≤ k_max s.now) }
    ensures { result ≡ key_b s.now j }
{
    let n = usize::from(s[3]);
    let x = usize::from(s[8 + 8 * n + j]);
    if n <= x {
        return true;
    }
    let w = usize::from(word(s, 8 + 2 * n + 2 * x));
    w == j || w == 8192 + j
}

fn keys(s: &[u8]) -> bool
    requires { Sized s.now }
    ensures { result ≡ all_b (k_max s.now + 1) (key_b s.now) }
{
    let k = usize::from(word(s, 0));
    (0..k + 1).all(|j| key_ok(s, j))
}

#[tactic(auto, using(crate::proofs::SizeLaws::whole_is, crate::proofs::SizeLaws::sized))]
pub fn whole(s: &[u8]) -> bool
    ensures { result ≡ whole_b s.now }
{
    if !sizes(s) {
        return false;
    }
    let mut seen = [0u8; 256];
    lists(s, &mut seen) && slots(s, &seen) && keys(s)
}
