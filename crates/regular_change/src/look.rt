// What is asked of whole bytes.
ghost use Rattle.std.specs.Prelude.{◌≡◌, true, suc, ◌-◌, ◌<◌, ◌≤◌, drop};
ghost use Rattle.entry_tree.specs.Pairs.{has_entry, has_subject, place_of};
ghost use Rattle.entry_tree.specs.Places.{size, entry_at, subject_at};
ghost use Rattle.entry_tree.specs.Inner.{IsTree};
ghost use Rattle.regular.specs.Registry.{queued};
ghost use Rattle.regular.specs.Bytes.{active_part, whole_b, read};
ghost use Rattle.regular_change.specs.Inner.{from_at, gap_before, gap_of};

use entry_tree::{entry_at, has_entry, has_subject, len, subject_at};
use multi_cycle_list::inner::inner_is_linked;

// What the removal of an active entry makes of the gap that it leaves. A non-head leaves none; of a head a mark, if any, is withdrawn,
// and then the next is marked, or the last gap is, or neither.
#[derive(Clone, Copy, Debug, PartialEq, Eq)]
pub enum Gap {
    Same,
    Withdrawn,
    Marked(u8),
    Last,
}

pub fn is_active(s: &[u8], entry: u8) -> bool
    requires { whole_b s.now ≡ true }
    ensures { result ≡ has_entry «entry» (read s.now).active }
{
    has_entry(&s[0..385], entry)
}

pub fn is_inactive(s: &[u8], entry: u8) -> bool
    requires { whole_b s.now ≡ true }
    ensures { result ≡ has_entry «entry» (read s.now).inactive }
{
    has_entry(&s[385..770], entry)
}

pub fn on_active(s: &[u8], subject: u16) -> bool
    requires { whole_b s.now ≡ true }
    ensures { result ≡ has_subject subject (read s.now).active }
{
    has_subject(&s[0..385], subject)
}

pub fn on_inactive(s: &[u8], subject: u16) -> bool
    requires { whole_b s.now ≡ true }
    ensures { result ≡ has_subject subject (read s.now).inactive }
{
    has_subject(&s[385..770], subject)
}

pub fn slots(s: &[u8]) -> u16
    requires { whole_b s.now ≡ true }
    ensures { result ≡ (read s.now).slots }
{
    u16::from_le_bytes([s[1032], s[1033]])
}

// An active entry stands in no queue but the clean-up queue.
pub fn is_marked(s: &[u8], entry: u8) -> bool
    requires { (whole_b s.now ≡ true) × (has_entry «entry» (read s.now).active ≡ true) }
    ensures { result ≡ queued «entry» (read s.now).clean_up }
{
    inner_is_linked(&s[770..1032], usize::from(entry))
}

// The first subject past the pair before the place i.
pub fn from_at(t: &[u8], i: usize) -> u16
    requires { IsTree t.now × ((i < size t.now) × (subject_at t.now (i - 1) ≤ 8191)) }
    ensures { result ≡ from_at t.now i }
{
    if i == 0 {
        return 0;
    }
    subject_at(t, i - 1) + 1
}

// The gap that the head at the place i leaves before the next.
fn next_gap(s: &[u8], i: usize) -> Gap
    requires { (whole_b s.now ≡ true) × (suc i < size (active_part s.now)) }
    ensures { result ≡ gap_before (entry_at (active_part s.now) i) (subject_at (active_part s.now) i) (drop (suc i) (read s.now).active) (read s.now).clean_up }
{
    let e = entry_at(&s[0..385], i);
    let q = entry_at(&s[0..385], i + 1);
    if is_marked(s, q) {
        return Gap::Withdrawn;
    }
    if is_marked(s, e) || subject_at(&s[0..385], i) < subject_at(&s[0..385], i + 1) {
        Gap::Marked(q)
    } else {
        Gap::Withdrawn
    }
}

pub fn gap_at(s: &[u8], i: usize) -> Gap
    requires { (whole_b s.now ≡ true) × (i < size (active_part s.now)) }
    ensures { result ≡ gap_of (entry_at (active_part s.now) i) (place_of (entry_at (active_part s.now) i) (read s.now).active) (read s.now).clean_up }
{
    if subject_at(&s[0..385], i) < from_at(&s[0..385], i) {
        return Gap::Same;
    }
    if len(&s[0..385]) <= i + 1 {
        return Gap::Last;
    }
    next_gap(s, i)
}
