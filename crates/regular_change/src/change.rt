// The changes: each leaves the bytes of the changed meaning.
ghost use Rattle.std.specs.Prelude.{◌≡◌, true, false, [], ◌+◌, ◌<◌, length, position, replicate, Some};
ghost use Rattle.multi_cycle_list.specs.Lists.{first};
ghost use Rattle.entry_tree.specs.Pairs.{is_entry, has_entry, place_of};
ghost use Rattle.entry_tree.specs.Places.{size, entry_at};
ghost use Rattle.regular.specs.Registry.{fresh};
ghost use Rattle.regular.specs.Steps.{waits, joins, leaves_inactive, leaves, gaps, with_clean_up, inner_step};
ghost use Rattle.regular.specs.Bytes.{active_part, whole_b, read, laid};
ghost use Rattle.regular_change.specs.Inner.{CleanedUp, gap_of, more, with_slots, with_flag};

use crate::look::{Gap, from_at, on_active};
use entry_tree::walk::{next_on, walk_past};
use entry_tree::{insert, position, remove, subject_at};
use multi_cycle_list::inner::{inner_move_back, inner_open, inner_remove};
use regular::{CallAgain, FilterUpdate, past_last};
use state::{Entry, fill};

fn set_slots(s: &mut [u8], n: u16)
    requires { length s.old ≡ 1036 }
    ensures { s.new ≡ with_slots s.old n }
{
    s[1032] = (n % 256) as u8;
    s[1033] = (n / 256) as u8;
}

fn set_last_gap(s: &mut [u8])
    requires { length s.old ≡ 1036 }
    ensures { s.new ≡ with_flag s.old true }
{
    if s[1034] == 0 {
        s[1034] = 1;
    }
}

// Every byte is written.
pub fn open_registry(s: &mut [u8], n: u16)
    requires { length s.old ≡ 1036 }
    ensures { s.new ≡ laid (fresh n) (replicate 1036 0) }
{
    fill(s, 0);
    inner_open(&mut s[770..1032], 2, 128);
    set_slots(s, n);
    s[1035] = 255;
}

// The entry joins the inactive ones and the activation queue; n slots are left.
pub fn wait_for(s: &mut [u8], entry: Entry, subject: u16, n: u16)
    requires { (whole_b s.old ≡ true) × ((has_entry «entry» (read s.old).inactive ≡ false) × (has_entry «entry» (read s.old).active ≡ false)) }
    ensures { s.new ≡ laid (waits «entry» subject n (read s.old)) s.old }
{
    let entry = entry.number();
    insert(&mut s[385..770], entry, subject);
    inner_move_back(&mut s[770..1032], 1, usize::from(entry));
    set_slots(s, n);
}

pub fn join(s: &mut [u8], entry: Entry, subject: u16)
    requires { (whole_b s.old ≡ true) × ((has_entry «entry» (read s.old).inactive ≡ false) × (has_entry «entry» (read s.old).active ≡ false)) }
    ensures { s.new ≡ laid (joins «entry» subject (read s.old)) s.old }
{
    insert(&mut s[0..385], entry.number(), subject);
}

pub fn leave_inactive(s: &mut [u8], entry: u8)
    requires { (whole_b s.old ≡ true) × (has_entry «entry» (read s.old).inactive ≡ true) }
    ensures { s.new ≡ laid (leaves_inactive «entry» (read s.old)) s.old }
{
    let i = position(&s[385..770], entry).unwrap();
    remove(&mut s[385..770], i);
    inner_remove(&mut s[770..1032], usize::from(entry));
}

// The clean-up queue and the last-gap flag when the active entry leaves.
fn close_gap(s: &mut [u8], entry: u8, gap: Gap)
    requires { (whole_b s.old ≡ true) × ((has_entry «entry» (read s.old).active ≡ true) × (gap ≡ gap_of «entry» (place_of «entry» (read s.old).active) (read s.old).clean_up)) }
    ensures { s.new ≡ laid (with_clean_up (gaps «entry» (place_of «entry» (read s.old).active) (read s.old).clean_up (read s.old).last_gap).clean_up (gaps «entry» (place_of «entry» (read s.old).active) (read s.old).clean_up (read s.old).last_gap).last_gap (read s.old)) s.old }
{
    match gap {
        Gap::Same => {}
        Gap::Withdrawn => inner_remove(&mut s[770..1032], usize::from(entry)),
        Gap::Marked(q) => {
            inner_remove(&mut s[770..1032], usize::from(entry));
            inner_move_back(&mut s[770..1032], 0, usize::from(q));
        }
        Gap::Last => {
            inner_remove(&mut s[770..1032], usize::from(entry));
            set_last_gap(s);
        }
    }
}

// The active entry at the place i leaves; n slots are left.
pub fn leave_active(s: &mut [u8], entry: u8, i: usize, gap: Gap, n: u16)
    requires { (whole_b s.old ≡ true) × ((position (is_entry «entry») (read s.old).active ≡ Some i) × ((gap ≡ gap_of «entry» (place_of «entry» (read s.old).active) (read s.old).clean_up) × (n ≡ (read s.old).slots + more gap))) }
    ensures { s.new ≡ laid (leaves «entry» (place_of «entry» (read s.old).active) (gaps «entry» (place_of «entry» (read s.old).active) (read s.old).clean_up (read s.old).last_gap) (read s.old)) s.old }
{
    let w = next_on(&s[0..385], i);
    close_gap(s, entry, gap);
    walk_past(s, 1035, entry, w);
    set_slots(s, n);
    remove(&mut s[0..385], i);
}

// ---- the inner steps of a poll

// The front of the clean-up queue.
pub fn pop_clean_up_queue(s: &mut [u8], entry: u8) -> Option<Result<FilterUpdate, CallAgain>>
    requires { (whole_b s.old ≡ true) × (first (read s.old).clean_up ≡ Some «entry») }
    ensures { (result ≡ (inner_step (read s.old)).says) × (s.new ≡ laid (inner_step (read s.old)).then s.old) }
{
    let i = position(&s[0..385], entry).unwrap();
    let first = from_at(&s[0..385], i);
    let last = subject_at(&s[0..385], i) - 1;
    inner_remove(&mut s[770..1032], usize::from(entry));
    Some(Ok(FilterUpdate::RemoveSubjectRange(first, last)))
}

pub fn pop_clean_up_last(s: &mut [u8]) -> Option<Result<FilterUpdate, CallAgain>>
    requires { (whole_b s.old ≡ true) × (((read s.old).clean_up ≡ []) × ((read s.old).last_gap ≡ true)) }
    ensures { (result ≡ (inner_step (read s.old)).says) × (s.new ≡ laid (inner_step (read s.old)).then s.old) }
{
    let first = past_last(&s[0..385]);
    s[1034] = 0;
    Some(Ok(FilterUpdate::RemoveSubjectRange(first as u16, 8191)))
}

// The front of the activation queue.
pub fn pop_registration_queue(s: &mut [u8], entry: u8) -> Option<Result<FilterUpdate, CallAgain>>
    requires { (whole_b s.old ≡ true) × (CleanedUp (read s.old) × (first (read s.old).activation ≡ Some «entry»)) }
    ensures { (result ≡ (inner_step (read s.old)).says) × (s.new ≡ laid (inner_step (read s.old)).then s.old) }
{
    let i = position(&s[385..770], entry).unwrap();
    let x = subject_at(&s[385..770], i);
    let known = on_active(s, x);
    remove(&mut s[385..770], i);
    inner_remove(&mut s[770..1032], usize::from(entry));
    insert(&mut s[0..385], entry, x);
    Some(if known {
        Err(CallAgain)
    } else {
        Ok(FilterUpdate::AddSubject(x))
    })
}
