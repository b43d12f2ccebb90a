// `LoopBackInner` over lent bytes: whether bytes are whole, and what the calls do once they are. Inner functions: other crates call them,
// and they may have preconditions.
// Whole bytes are required, and no struct carries that: a change writes its parts one after the other, and in between they are not whole.
#![tactic(auto, using(crate::proofs::Acts::parts))]

ghost use Rattle.std.specs.Prelude.{◌≡◌, true, false, ◌<◌, length, position, replicate, Some};
ghost use Rattle.entry_tree.specs.Pairs.{has_entry, is_entry, place_of};
ghost use Rattle.entry_tree.specs.Places as tree;
ghost use Rattle.entry_tree.specs.Inner.{IsTree};
ghost use Rattle.loop_back.specs.Registry.{fresh};
ghost use Rattle.loop_back.specs.Steps.{goes_on, joins, leaves};
ghost use Rattle.loop_back.specs.Bytes.{whole_b, read, laid};
ghost use Rattle.loop_back.specs.Means.{LoopBackMeans};

use entry_tree::walk::{next, walk_past};
use entry_tree::whole::{pairs_fit, pointed};
use entry_tree::{insert, remove};
use state::{Entry, fill};

// Does nothing: its contract is the theorem of specs/Means.antt.
#[tactic(auto, using(crate::proofs::Mean::means))]
pub fn meaning()
    ensures { LoopBackMeans }
{}

#[tactic(auto, using(crate::proofs::Facts::whole_last), unfolding(crate::specs::Bytes::whole_b))]
pub fn whole(s: &[u8]) -> bool
    ensures { result ≡ whole_b s.now }
{
    if s.len() != 389 || 128 < s[0] {
        return false;
    }
    let mut seen = [0; 256];
    pairs_fit(&s[0..385], &mut seen, 8191, true) && pointed(&seen, s[385])
}

// Every byte is written.
#[tactic(auto, using(crate::proofs::Acts::opened))]
pub fn open_registry(s: &mut [u8])
    requires { length s.old ≡ 389 }
    ensures { s.new ≡ laid fresh (replicate (length s.old) 0) }
{
    fill(s, 0);
    s[385] = 255;
}

#[tactic(auto, using(crate::proofs::Acts::parts, crate::proofs::Acts::room, crate::proofs::Acts::joined))]
pub fn join(s: &mut [u8], entry: Entry, subject: u16)
    requires { (whole_b s.old ≡ true) × (has_entry «entry» (read s.old).entries ≡ false) }
    ensures { s.new ≡ laid (joins «entry» subject (read s.old)) s.old }
{
    insert(&mut s[0..385], entry.number(), subject);
}

// Where a walk goes on from the entry at the place i, and where its removal moves it.
#[tactic(auto, using(crate::proofs::Acts::after))]
pub fn next_push(t: &[u8], i: usize, entry: u8) -> Option<u8>
    requires { IsTree t.now × (position (is_entry «entry») (tree.read t.now) ≡ Some i) }
    ensures { result ≡ goes_on (place_of «entry» (tree.read t.now)) }
{
    next(t, i)
}

// The entry at the place i leaves.
#[tactic(auto, using(crate::proofs::Acts::parts, crate::proofs::Acts::tree_stays, crate::proofs::Acts::left))]
pub fn leave(s: &mut [u8], entry: Entry, i: usize)
    requires { (whole_b s.old ≡ true) × (position (is_entry «entry») (read s.old).entries ≡ Some i) }
    ensures { s.new ≡ laid (leaves «entry» (read s.old)) s.old }
{
    let entry = entry.number();
    let w = next_push(&s[0..385], i, entry);
    walk_past(s, 385, entry, w);
    remove(&mut s[0..385], i);
}
