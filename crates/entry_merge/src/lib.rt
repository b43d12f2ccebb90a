// Trees that change in one pass: two become one, and marked pairs leave. Inner: these cross crates and may require.
#![tactic(auto)]

ghost use Rattle.std.specs.Prelude.{◌≡◌, ◌&&◌, ◌||◌, leb, ltb};
ghost use Rattle.entry_tree.specs.Places.{size, subject_at, read, laid};
ghost use Rattle.entry_tree.specs.Inner.{IsTree};
ghost use Rattle.entry_merge.specs.Inner.{Kept, Mergeable, kept, stays, filled, merged};

use entry_tree::{entry_at, len, subject_at, write_place};
use state::fill;

// Moves the pairs whose entries bear no mark to the front. How many they are.
#[tactic(auto, using(crate::proofs::Writing::keeping_end))]
fn keep(t: &mut [u8], gone: &[u8; 256]) -> usize
    requires { IsTree t.old }
    ensures { Kept gone.now t.old t.new result }
{
    let mut w = 0;
    for i in 0..len(t) {
        let e = entry_at(t, i);
        if gone[usize::from(e)] == 0 {
            let x = subject_at(t, i);
            write_place(t, w, e, x);
            w += 1;
        }
    }
    w
}

// The pairs whose entries bear a mark leave.
#[tactic(auto, using(crate::proofs::Writing::marked_laid, crate::proofs::Writing::part_long))]
pub fn remove_marked(t: &mut [u8], gone: &[u8; 256])
    requires { IsTree t.old }
    ensures { t.new ≡ laid (kept (stays gone.now) (read t.old)) t.old }
{
    let n = len(t);
    let w = keep(t, gone);
    fill(&mut t[1 + 3 * w..1 + 3 * n], 255);
    t[0] = w as u8;
}

// Whether the pair at the place i of `a` comes before the one at the place j of `b`: it is not past it, or there is none.
fn comes_first(a: &[u8], b: &[u8], i: usize, j: usize) -> bool
    requires { IsTree a.now × IsTree b.now }
    ensures { result ≡ (ltb i (size a.now) && (leb (size b.now) j || leb (subject_at a.now i) (subject_at b.now j))) }
{
    i < len(a) && (len(b) <= j || subject_at(a, i) <= subject_at(b, j))
}

// `t` is `a`; the entries of `slots` join it, each on the subject that `b` has at its place.
#[tactic(auto, using(crate::proofs::Writing::merging))]
pub fn merge(t: &mut [u8], a: &[u8], b: &[u8], slots: &[u8; 128])
    requires { Mergeable t.old a.now b.now slots.now }
    ensures { t.new ≡ laid (merged (read a.now) (filled slots.now (read b.now))) t.old }
{
    let mut w = 0;
    let mut i = 0;
    let mut j = 0;
    for _ in 0..len(a) + len(b) {
        if comes_first(a, b, i, j) {
            write_place(t, w, entry_at(a, i), subject_at(a, i));
            i += 1;
            w += 1;
        } else {
            if slots[j] < 128 {
                write_place(t, w, slots[j], subject_at(b, j));
                w += 1;
            }
            j += 1;
        }
    }
    t[0] = w as u8;
}
