// `RBTree` of entries by subject, as an ordered array in 385 lent bytes. Inner: these cross crates and may require.
// `IsTree` and the length are required, and no struct carries them: it would be made anew from a part of a state's bytes for each call,
// which asks for the same.
#![tactic(auto)]

pub mod walk;
pub mod whole;

ghost use Rattle.std.specs.Prelude.{◌≡◌, true, ◌+◌, ◌-◌, ◌*◌, ◌<◌, ◌≤◌, length, leb, map, position};
ghost use Rattle.entry_tree.specs.Pairs.{pair, is_entry, on_subject, has_entry, has_subject, inserted, in_order};
ghost use Rattle.entry_tree.specs.Places.{size, entry_at, subject_at, read, laid};
ghost use Rattle.entry_tree.specs.Inner.{IsTree, IsUpperBound, tree_length, pair_of, cell_of, set_cell, removed_at};

// ---- looking

pub fn len(t: &[u8]) -> usize
    requires { length t.now ≡ tree_length }
    ensures { (result ≡ size t.now) × (result < 256) }
{
    usize::from(t[0])
}

pub fn entry_at(t: &[u8], i: usize) -> u8
    requires { (length t.now ≡ tree_length) × (i < 128) }
    ensures { result ≡ entry_at t.now i }
{
    t[1 + 3 * i]
}

pub fn subject_at(t: &[u8], i: usize) -> u16
    requires { (length t.now ≡ tree_length) × (i < 128) }
    ensures { result ≡ subject_at t.now i }
{
    u16::from_le_bytes([t[2 + 3 * i], t[3 + 3 * i]])
}

// The pairs: each an entry, and its subject, low byte first.
#[tactic(auto, using(crate::proofs::Reading::read_chunks))]
fn pairs(t: &[u8]) -> &[[u8; 3]]
    requires { IsTree t.now }
    ensures { read t.now ≡ map pair_of result.now }
{
    let (places, _) = t[1..].as_chunks::<3>();
    &places[..len(t)]
}

fn subject_of(pair: &[u8; 3]) -> u16
    ensures { result ≡ (pair_of pair.now).subject }
{
    u16::from_le_bytes([pair[1], pair[2]])
}

// Whether the pair is the entry's.
fn is_of(pair: &[u8; 3], entry: u8) -> bool
    ensures { result ≡ is_entry «entry» (pair_of pair.now) }
{
    entry == pair[0]
}

fn is_on(pair: &[u8; 3], subject: u16) -> bool
    ensures { result ≡ on_subject subject (pair_of pair.now) }
{
    subject == subject_of(pair)
}

// The place of the entry. This search and the next differ in their test alone: one function that takes the test would need a contract over it, longer than both.
pub fn position(t: &[u8], entry: u8) -> Option<usize>
    requires { IsTree t.now }
    ensures { result ≡ position (is_entry «entry») (read t.now) }
{
    pairs(t).iter().position(|pair| is_of(pair, entry))
}

// The place of the first pair on the subject.
pub fn first_on(t: &[u8], subject: u16) -> Option<usize>
    requires { IsTree t.now }
    ensures { result ≡ position (on_subject subject) (read t.now) }
{
    pairs(t).iter().position(|pair| is_on(pair, subject))
}

#[tactic(auto, using(crate::proofs::Reading::entry_stands))]
pub fn has_entry(t: &[u8], entry: u8) -> bool
    requires { IsTree t.now }
    ensures { result ≡ has_entry «entry» (read t.now) }
{
    position(t, entry).is_some()
}

#[tactic(auto, using(crate::proofs::Reading::subject_stands))]
pub fn has_subject(t: &[u8], subject: u16) -> bool
    requires { IsTree t.now }
    ensures { result ≡ has_subject subject (read t.now) }
{
    first_on(t, subject).is_some()
}

// ---- changing

pub fn write_place(t: &mut [u8], place: usize, entry: u8, subject: u16)
    requires { (length t.old ≡ tree_length) × (place < 128) }
    ensures { t.new ≡ set_cell t.old place (cell_of (pair entry subject)) }
{
    t[1 + 3 * place] = entry;
    t[2 + 3 * place] = (subject % 256) as u8;
    t[3 + 3 * place] = (subject / 256) as u8;
}

// Whether a pair on the subject joins after this one.
fn is_before(pair: &[u8; 3], subject: u16) -> bool
    ensures { result ≡ leb (pair_of pair.now).subject subject }
{
    subject_of(pair) <= subject
}

// Where a pair on the subject joins.
fn upper_bound(t: &[u8], subject: u16) -> usize
    requires { IsTree t.now × (in_order 0 (read t.now) ≡ true) }
    ensures { IsUpperBound t.now subject result }
{
    pairs(t).partition_point(|pair| is_before(pair, subject))
}

// The pair joins, after its equals. One copy of the code for all callers, for the archive's bound.
#[inline(never)]
#[tactic(auto, using(crate::proofs::Moves::copied, crate::proofs::Moves::joined_laid))]
pub fn insert(t: &mut [u8], entry: u8, subject: u16)
    requires { (length t.old ≡ tree_length) × ((size t.old < 128) × (in_order 0 (read t.old) ≡ true)) }
    ensures { t.new ≡ laid (inserted (pair entry subject) (read t.old)) t.old }
{
    let n = len(t);
    let i = upper_bound(t, subject);
    t.copy_within(1 + 3 * i..1 + 3 * n, 4 + 3 * i);
    write_place(t, i, entry, subject);
    t[0] = (n + 1) as u8;
}

// The pair at the place i leaves. One copy of the code for all callers, for the archive's bound.
#[inline(never)]
#[tactic(auto, using(crate::proofs::Moves::copied, crate::proofs::Moves::left_laid))]
pub fn remove(t: &mut [u8], i: usize)
    requires { IsTree t.old × (i < size t.old) }
    ensures { t.new ≡ laid (removed_at i (read t.old)) t.old }
{
    let last = len(t) - 1;
    t.copy_within(4 + 3 * i..4 + 3 * last, 1 + 3 * i);
    write_place(t, last, 255, 65535);
    t[0] = last as u8;
}
