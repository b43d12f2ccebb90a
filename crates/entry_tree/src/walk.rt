// A walk over a tree's pairs: the entry that it points at, or none; and the byte that holds it. Inner: these cross crates and may require.
ghost use Rattle.std.specs.Prelude.{◌≡◌, suc, ◌<◌, ◌≤◌, length, get_or, drop};
ghost use Rattle.entry_tree.specs.Places.{size, subject_at, read};
ghost use Rattle.entry_tree.specs.Walks.{first, first_on, next_on, walk_of};
ghost use Rattle.entry_tree.specs.Inner.{IsTree, with_walk, with_walk_past};

use crate::{entry_at, first_on, pairs, subject_at, subject_of};

/// What a step of a walk names: the entry that gets the frame, and whether more follow.
#[derive(Clone, Copy, Debug, PartialEq, Eq)]
pub struct Pushed {
    pub entry: u8,
    pub more: bool,
}

// The first entry on the subject.
#[tactic(auto, using(crate::proofs::Walking::starts))]
pub fn start_on(t: &[u8], subject: u16) -> Option<u8>
    requires { IsTree t.now }
    ensures { result ≡ first_on subject (read t.now) }
{
    let i = first_on(t, subject)?;
    Some(entry_at(t, i))
}

// The entry after the place i.
#[tactic(auto, using(crate::proofs::Finding::next_first))]
pub fn next(t: &[u8], i: usize) -> Option<u8>
    requires { IsTree t.now × (i < size t.now) }
    ensures { result ≡ first (drop (suc i) (read t.now)) }
{
    let pair = pairs(t).get(i + 1)?;
    Some(pair[0])
}

// The entry after the place i, if it is on the same subject.
#[tactic(auto, using(crate::proofs::Finding::next_past, crate::proofs::Finding::next_same))]
pub fn next_on(t: &[u8], i: usize) -> Option<u8>
    requires { IsTree t.now × (i < size t.now) }
    ensures { result ≡ next_on (subject_at t.now i) (drop (suc i) (read t.now)) }
{
    let next = pairs(t).get(i + 1)?;
    if subject_at(t, i) < subject_of(next) {
        return None;
    }
    Some(next[0])
}

// The entry that the walk points at.
pub fn walk_of(s: &[u8], byte: usize) -> Option<u8>
    requires { byte < length s.now }
    ensures { result ≡ walk_of (get_or s.now byte 0) }
{
    let walk = s[byte];
    (walk < 128).then_some(walk)
}

pub fn set_walk(s: &mut [u8], byte: usize, w: Option<u8>)
    requires { byte < length s.old }
    ensures { s.new ≡ with_walk byte s.old w }
{
    match w {
        Some(e) => s[byte] = e,
        None => {
            if s[byte] < 128 {
                s[byte] = 255;
            }
        }
    }
}

// A walk that points at the entry goes on to w.
pub fn walk_past(s: &mut [u8], byte: usize, entry: u8, w: Option<u8>)
    requires { byte < length s.old }
    ensures { s.new ≡ with_walk_past byte s.old «entry» w }
{
    if s[byte] == entry {
        set_walk(s, byte, w);
    }
}
