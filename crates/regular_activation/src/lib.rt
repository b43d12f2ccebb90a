// Inner steps that say 'call again', many at once: entries from the front of the activation queue whose subjects are active. They leave the
// queue one by one and are noted; then each tree changes in one pass.
#![tactic(auto, using(regular_change::proofs::Looks::known_parts))]

ghost use Rattle.std.specs.Prelude.{◌≡◌, true, cond, ◌+◌, ◌<◌, ◌≤◌, eqb, leb, length, replicate, None, IfSome};
ghost use Rattle.entry_tree.specs.Pairs.{has_subject, in_order};
ghost use Rattle.entry_tree.specs.Places as tree;
ghost use Rattle.entry_tree.specs.Places.{size, subject_at};
ghost use Rattle.entry_tree.specs.Inner.{IsTree};
ghost use Rattle.entry_merge.specs.Inner.{kept, stays, filled, merged};
ghost use Rattle.regular.specs.Bytes.{active_part, inactive_part, queue_part, whole_b, read};
ghost use Rattle.regular_change.specs.Inner.{CleanedUp};
ghost use Rattle.regular_activation.specs.Inner.{IsNotBelow, Activated, Starts, Free, Consists, Taken};

use entry_merge::{merge, remove_marked};
use entry_tree::{entry_at, len, subject_at};
use multi_cycle_list::inner::{inner_front, inner_remove, inner_second};
use state::copy;

// ---- where the entries of a subject begin

// `first`, if the subject x is the last one met, else i.
fn group_start(first: usize, i: usize, last: u16, x: u16) -> usize
    ensures { result ≡ cond (eqb last x) first i }
{
    if last == x {
        return first;
    }
    i
}

// Whether the place is not below the subject x.
fn reaches(t: &[u8], place: usize, x: u16) -> bool
    requires { IsTree t.now × (place < size t.now) }
    ensures { result ≡ leb x (subject_at t.now place) }
{
    x <= subject_at(t, place)
}

// The first place from `from` on that is not below the subject x.
fn skip_below(t: &[u8], from: usize, x: u16) -> Option<usize>
    requires { IsTree t.now }
    ensures { IsNotBelow t.now from x result }
{
    (from..len(t)).find(|place| reaches(t, *place, x))
}

// `first`, if the place `at` is on the subject x.
fn start_if_on(t: &[u8], at: usize, x: u16, first: usize) -> Option<u8>
    requires { IsTree t.now × ((at < size t.now) × (first < 128)) }
    ensures { IfSome result (λ start. (start ≡ first) × (has_subject x (tree.read t.now) ≡ true)) }
{
    (subject_at(t, at) == x).then_some(first as u8)
}

// Notes for each inactive entry whose subject is active the first place of the inactive tree on that subject.
fn note_starts(s: &[u8], start: &mut [Option<u8>; 256])
    requires { (whole_b s.now ≡ true) × (start.old ≡ replicate 256 None) }
    ensures { Starts s.now start.new }
{
    let mut first = 0;
    let mut last = 0;
    let mut from = 0;
    for i in 0..len(&s[385..770]) {
        let x = subject_at(&s[385..770], i);
        first = group_start(first, i, last, x);
        last = x;
        let Some(place) = skip_below(&s[0..385], from, x) else {
            break;
        };
        from = place;
        let e = entry_at(&s[385..770], i);
        start[usize::from(e)] = start_if_on(&s[0..385], place, x, first);
    }
}

// ---- the entries, one by one

// Whether the place j is on the subject of the place g, and is the next there that no entry fills.
fn fits(t: &[u8], slots: &[u8; 128], j: usize, g: usize) -> bool
    requires { IsTree t.now × (g < 128) }
    ensures { result ≡ true → Free t.now slots.now j (subject_at t.now g) }
{
    if len(t) <= j || slots[j] < 128 {
        return false;
    }
    let x = subject_at(t, g);
    if subject_at(t, j) != x {
        return false;
    }
    j == 0 || slots[j - 1] < 128 || subject_at(t, j - 1) != x
}

// The next place for an entry whose subject begins at the place g. `next` has for the first place of a subject the place after the last one
// filled, or a lower one.
fn slot_for(t: &[u8], next: &[u8; 128], slots: &[u8; 128], g: usize) -> Option<usize>
    requires { IsTree t.now × (g < 128) }
    ensures { IfSome result (λ slot. Free t.now slots.now slot (subject_at t.now g)) }
{
    let j = usize::from(next[g]).max(g);
    fits(t, slots, j, g).then_some(j)
}

// The entries leave the activation queue and are noted, as long as each has a place.
fn take_known(s: &mut [u8], start: &[Option<u8>; 256], slots: &mut [u8; 128], gone: &mut [u8; 256])
    requires { ((whole_b s.old ≡ true) × CleanedUp (read s.old)) × (Starts s.old start.now × ((slots.old ≡ replicate 128 255) × (gone.old ≡ replicate 256 0))) }
    ensures { Taken s.old s.new slots.new gone.new }
{
    let mut next = [0; 128];
    let mut front = inner_front(&s[770..1032], 1);
    while let Some(e) = front {
        let Some(g) = start[usize::from(e)] else {
            break;
        };
        let Some(j) = slot_for(&s[385..770], &next, slots, usize::from(g)) else {
            break;
        };
        front = inner_second(&s[770..1032], 1, usize::from(e));
        inner_remove(&mut s[770..1032], usize::from(e));
        slots[j] = e;
        gone[usize::from(e)] = 1;
        next[usize::from(g)] = (j + 1) as u8;
    }
}

// What is noted before the trees change. Not inlined: its table then takes no stack beside their copies, for the archive's bound.
#[inline(never)]
fn note_known(s: &mut [u8], slots: &mut [u8; 128], gone: &mut [u8; 256])
    requires { ((whole_b s.old ≡ true) × CleanedUp (read s.old)) × ((slots.old ≡ replicate 128 255) × (gone.old ≡ replicate 256 0)) }
    ensures { Taken s.old s.new slots.new gone.new }
{
    let mut start = [None; 256];
    note_starts(s, &mut start);
    take_known(s, &start, slots, gone);
}

// ---- the trees

// The entries noted join the active tree, and leave the inactive one.
#[tactic(auto, using(regular_change::proofs::Looks::known_parts, crate::proofs::Taking::tree_after))]
fn change_trees(s: &mut [u8], slots: &[u8; 128], gone: &[u8; 256])
    requires { ((length s.old ≡ 1036) × (size (inactive_part s.old) ≤ 128)) × (((size (active_part s.old) + length (filled slots.now (tree.read (inactive_part s.old)))) ≤ 128) × ((in_order 0 (tree.read (active_part s.old)) ≡ true) × (in_order 0 (tree.read (inactive_part s.old)) ≡ true))) }
    ensures { Consists s.old s.new (tree.laid (merged (tree.read (active_part s.old)) (filled slots.now (tree.read (inactive_part s.old)))) (active_part s.old)) (tree.laid (kept (stays gone.now) (tree.read (inactive_part s.old))) (inactive_part s.old)) (queue_part s.old) }
{
    let mut active = [0u8; 385];
    copy(&s[0..385], &mut active);
    let mut inactive = [0u8; 385];
    copy(&s[385..770], &mut inactive);
    merge(&mut s[0..385], &active, &inactive, slots);
    remove_marked(&mut s[385..770], gone);
}

// Entries from the front of the activation queue whose subjects are active become active.
pub fn activate_known(s: &mut [u8])
    requires { (whole_b s.old ≡ true) × CleanedUp (read s.old) }
    ensures { Activated s.old s.new }
{
    // as the merge reads them: a number from 128 on is no entry
    let mut slots = [255; 128];
    let mut gone = [0; 256];
    note_known(s, &mut slots, &mut gone);
    change_trees(s, &slots, &gone);
}
