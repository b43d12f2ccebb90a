// The test of a tree's pairs, in one pass. Inner: these cross crates and may require.
ghost use Rattle.std.specs.Prelude.{◌≡◌, ◌≤◌, replicate};
ghost use Rattle.entry_tree.specs.Places.{read};
ghost use Rattle.entry_tree.specs.Inner.{IsTree, pair_of};
ghost use Rattle.entry_tree.specs.Walks.{walk_of};
ghost use Rattle.entry_tree.specs.Testing.{pair_b, Passed, Fit, pointed_b};

use crate::{pairs, subject_of};

// What is asked of each pair: its subject is up to `most`, and only where `same` is true do pairs share one; its entry's mark is from
// `low` to `high`, and becomes `met`.
#[derive(Clone, Copy)]
pub struct Check {
    pub most: u16,
    pub same: bool,
    pub low: u8,
    pub high: u8,
    pub met: u8,
}

// `from` is the first subject past the pair before this one.
fn pair_ok(pair: &[u8; 3], seen: &[u8; 256], from: u16, check: Check) -> bool
    requires { check.most ≤ 8191 }
    ensures { result ≡ pair_b check seen.now «from» (pair_of pair.now) }
{
    let entry = pair[0];
    if 127 < entry {
        return false;
    }
    let subject = subject_of(pair);
    let mark = seen[2 + usize::from(entry)];
    subject <= check.most
        && from <= subject + u16::from(check.same)
        && check.low <= mark
        && mark <= check.high
        && (mark != 1 || from < subject)
}

// Every pair is in range, in order, and met once.
#[tactic(auto, using(crate::proofs::Turns::turn_fails, crate::proofs::Turns::turn_end, crate::proofs::Turns::failed))]
pub fn pairs_ok(t: &[u8], seen: &mut [u8; 256], check: Check) -> bool
    requires { IsTree t.now × (check.most ≤ 8191) }
    ensures { Passed check seen.old seen.new (read t.now) result }
{
    let mut from = 0;
    for pair in pairs(t) {
        if !pair_ok(pair, seen, from, check) {
            return false;
        }
        seen[2 + usize::from(pair[0])] = check.met;
        from = subject_of(pair) + 1;
    }
    true
}

// A tree by itself: the pairs are in range and in order, and no entry stands twice. Each entry's mark becomes 3.
pub fn pairs_fit(t: &[u8], seen: &mut [u8; 256], most: u16, same: bool) -> bool
    requires { IsTree t.now × ((seen.old ≡ replicate 256 0) × (most ≤ 8191)) }
    ensures { Fit most same seen.new (read t.now) result }
{
    let check = Check {
        most,
        same,
        low: 0,
        high: 0,
        met: 3,
    };
    pairs_ok(t, seen, check)
}

// The walk's byte points at none, or at an entry met with the mark 3.
pub fn pointed(seen: &[u8; 256], w: u8) -> bool
    ensures { result ≡ pointed_b seen.now (walk_of w) }
{
    127 < w || seen[2 + usize::from(w)] == 3
}
