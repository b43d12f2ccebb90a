// What the calls do once the bytes are known whole and the class and the entry are within the sizes. Inner functions: other crates call them, and they may have preconditions.
// Whole bytes are required, and no struct carries that: a move writes its links one by one, and in between they are not whole. That a class
// or an entry is below the size is no fact of the number alone, so no type of it can say so.
ghost use Rattle.std.specs.Prelude.{◌≡◌, true, ◌+◌, ◌*◌, ◌<◌, ltb, length, drop};
ghost use Rattle.state.specs.Lengths.{lists_allowed, lists_length};
ghost use Rattle.multi_cycle_list.specs.Lists.{first, last, row, counts, empty, without_entry, moved_front, moved_back};
ghost use Rattle.multi_cycle_list.specs.Nodes.{whole_b, classes, entries, read};
ghost use Rattle.multi_cycle_list.specs.Laid.{laid};
ghost use Rattle.multi_cycle_list.specs.Inner.{as_entry, link_at, moved, Around};

use crate::cycle::{alone, is_bound, move_beside, unbind};
use crate::link::Link;

// Every byte is written: each class empty, each entry unbound.
#[tactic(auto, using(crate::proofs::Changes::fresh))]
pub fn inner_open(s: &mut [u8], classes: usize, entries: usize)
    requires { (lists_allowed classes entries ≡ true) × (length s.old ≡ lists_length classes entries) }
    ensures { s.new ≡ laid (empty classes entries) }
{
    s[0] = classes as u8;
    s[1] = entries as u8;
    alone(s, classes + entries);
}

// The entry's node.
fn node(s: &[u8], entry: usize) -> usize
    requires { (whole_b s.now ≡ true) × (entry < entries s.now) }
    ensures { (result ≡ classes s.now + entry) × Around s.now result }
{
    usize::from(s[0]) + entry
}

// The node that the link leads to, as an entry; none where it is a class.
fn entry_at(s: &[u8], node: usize, link: Link) -> Option<u8>
    requires { 3 + 2 * node < length s.now }
    ensures { result ≡ as_entry s.now (link_at s.now node link) }
{
    s[link.offset() + 2 * node].checked_sub(s[0])
}

// The two ends are one line each over `entry_at`: one function of the end would be no shorter, and its callers would name the link.
#[tactic(auto, using(crate::proofs::WholeTools::whole_length, crate::proofs::Changes::front_is))]
pub fn inner_front(s: &[u8], class: usize) -> Option<u8>
    requires { (whole_b s.now ≡ true) × (class < classes s.now) }
    ensures { result ≡ first (row (read s.now) class) }
{
    entry_at(s, class, Link::Next)
}

// The entry after the front, if any.
#[tactic(auto, using(crate::proofs::Changes::front_in, crate::proofs::Changes::second_is))]
pub fn inner_second(s: &[u8], class: usize, front: usize) -> Option<u8>
    requires { (whole_b s.now ≡ true) × ((class < classes s.now) × (first (row (read s.now) class) ≡ Some front)) }
    ensures { result ≡ first (drop 1 (row (read s.now) class)) }
{
    let i = node(s, front);
    entry_at(s, i, Link::Next)
}

#[tactic(auto, using(crate::proofs::WholeTools::whole_length, crate::proofs::Changes::back_is))]
pub fn inner_back(s: &[u8], class: usize) -> Option<u8>
    requires { (whole_b s.now ≡ true) × (class < classes s.now) }
    ensures { result ≡ last (row (read s.now) class) }
{
    entry_at(s, class, Link::Prev)
}

// Whether the entry stands in some class's list.
#[tactic(auto, using(crate::proofs::Changes::linked_is))]
pub fn inner_is_linked(s: &[u8], entry: usize) -> bool
    requires { (whole_b s.now ≡ true) × (entry < entries s.now) }
    ensures { result ≡ ltb 0 (counts entry (read s.now).rows) }
{
    let i = node(s, entry);
    is_bound(s, i)
}

#[tactic(auto, using(crate::proofs::Changes::remove_laid))]
pub fn inner_remove(s: &mut [u8], entry: usize)
    requires { (whole_b s.old ≡ true) × (entry < entries s.old) }
    ensures { s.new ≡ laid (without_entry entry (read s.old)) }
{
    let i = node(s, entry);
    unbind(s, i);
}

// To the class's front, which is along `Next`, or to its back.
#[tactic(auto, using(crate::proofs::Changes::moved_laid))]
fn move_to(s: &mut [u8], class: usize, entry: usize, side: Link)
    requires { (whole_b s.old ≡ true) × ((class < classes s.old) × (entry < entries s.old)) }
    ensures { s.new ≡ laid (moved side class entry (read s.old)) }
{
    let i = node(s, entry);
    move_beside(s, i, class, side);
}

pub fn inner_move_front(s: &mut [u8], class: usize, entry: usize)
    requires { (whole_b s.old ≡ true) × ((class < classes s.old) × (entry < entries s.old)) }
    ensures { s.new ≡ laid (moved_front class entry (read s.old)) }
{
    move_to(s, class, entry, Link::Next);
}

pub fn inner_move_back(s: &mut [u8], class: usize, entry: usize)
    requires { (whole_b s.old ≡ true) × ((class < classes s.old) × (entry < entries s.old)) }
    ensures { s.new ≡ laid (moved_back class entry (read s.old)) }
{
    move_to(s, class, entry, Link::Prev);
}
