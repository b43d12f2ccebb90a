// `RegularInner` over lent bytes: the updates that a poll hands out, and whether bytes are whole.
#![tactic(auto)]

ghost use Rattle.std.specs.Prelude.{◌≡◌, ◌<◌, ◌≤◌, length};
ghost use Rattle.state.specs.Seq.{all_b};
ghost use Rattle.entry_tree.specs.Pairs.{past};
ghost use Rattle.entry_tree.specs.Places.{size, read};
ghost use Rattle.entry_tree.specs.Inner.{IsTree};
ghost use Rattle.regular.specs.Registry.{last_b};
ghost use Rattle.regular.specs.Bytes as Bytes;
ghost use Rattle.regular.specs.Bytes.{sizes_b, active_part, whole_b};
ghost use Rattle.regular.specs.Inner.{met_b};

use entry_tree::whole::{Check, pairs_ok, pointed};
use entry_tree::{len, subject_at};
use multi_cycle_list::whole::whole_marked;

/// What a poll hands out: a subject that passes the filter from now on, or a range of subjects, first to last, that do so no longer.
#[derive(Clone, Copy, Debug, PartialEq, Eq)]
pub enum FilterUpdate {
    AddSubject(u16),
    RemoveSubjectRange(u16, u16),
}

/// An inner step of a poll moved an entry and hands nothing out: the poll goes on.
#[derive(Clone, Copy, Debug, PartialEq, Eq)]
pub struct CallAgain;

// The active pairs: an entry in the clean-up queue has the mark 1, any other has 0.
const ACTIVE: Check = Check {
    most: 8191,
    same: true,
    low: 0,
    high: 1,
    met: 3,
};

// The inactive pairs: each entry is in the activation queue, and has the mark 2.
const INACTIVE: Check = Check {
    most: 8191,
    same: true,
    low: 2,
    high: 2,
    met: 4,
};

#[tactic(auto, using(crate::proofs::Turns::sizes_are))]
fn sizes(s: &[u8]) -> bool
    requires { length s.now ≡ 1036 }
    ensures { result ≡ sizes_b s.now }
{
    s[0] <= 128 && s[385] <= 128 && s[770] == 2 && s[771] == 128
}

fn is_met(seen: &[u8; 256], entry: usize) -> bool
    requires { entry < 128 }
    ensures { result ≡ met_b seen.now entry }
{
    seen[2 + entry] == 0 || 3 <= seen[2 + entry]
}

fn all_met(seen: &[u8; 256]) -> bool
    ensures { result ≡ all_b 128 (met_b seen.now) }
{
    (0..128).all(|entry| is_met(seen, entry))
}

// The first subject past the last pair.
#[tactic(auto, using(crate::proofs::Turns::past_empty, crate::proofs::Turns::past_of))]
pub fn past_last(t: &[u8]) -> usize
    requires { IsTree t.now }
    ensures { result ≡ past 0 (read t.now) }
{
    let n = len(t);
    if n == 0 {
        return 0;
    }
    usize::from(subject_at(t, n - 1)) + 1
}

// A set last-gap flag has the last active subject below 8,191.
fn last_ok(s: &[u8]) -> bool
    requires { (length s.now ≡ 1036) × (size (active_part s.now) ≤ 128) }
    ensures { result ≡ last_b (Bytes.read s.now) }
{
    s[1034] == 0 || past_last(&s[0..385]) <= 8191
}

#[tactic(auto, using(crate::proofs::Grounds::grounds))]
pub fn whole(s: &[u8]) -> bool
    ensures { result ≡ whole_b s.now }
{
    if s.len() != 1036 || !sizes(s) {
        return false;
    }
    let mut seen = [0; 256];
    if !whole_marked(&s[770..1032], &mut seen) {
        return false;
    }
    if !pairs_ok(&s[0..385], &mut seen, ACTIVE) {
        return false;
    }
    if !pairs_ok(&s[385..770], &mut seen, INACTIVE) {
        return false;
    }
    all_met(&seen) && last_ok(s) && pointed(&seen, s[1035])
}
