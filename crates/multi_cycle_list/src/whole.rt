// Whether bytes are a whole list queue.
ghost use Rattle.std.specs.Prelude.{◌≡◌, true, ◌+◌, ◌*◌, ◌<◌, length};
ghost use Rattle.state.specs.Seq.{all_b};
ghost use Rattle.multi_cycle_list.specs.Nodes.{classes, entries, sizes_b, whole_b};
ghost use Rattle.multi_cycle_list.specs.Inner.{linked, trail_at, unmarked, marks_of, meets_at, placed_by, Sizes, Whole};

use crate::cycle::link_at;
use crate::link::Link;

#[tactic(auto, unfolding(crate::specs::Nodes::sizes_b))]
fn sizes(s: &[u8]) -> bool
    ensures { result ≡ sizes_b s.now }
{
    2 <= s.len()
        && (1..=32).contains(&s[0])
        && s[1] <= 224
        && s.len() == 2 + 2 * (usize::from(s[0]) + usize::from(s[1]))
}

// The node that the node's link leads to; none where it leads out of the `n` nodes, or the opposite link there does not come back.
// The bytes name `n`, which is read once for all steps of a cycle.
fn linked(s: &[u8], n: usize, node: usize, link: Link) -> Option<usize>
    requires { (node < n) × (length s.now ≡ 2 + 2 * n) }
    ensures { result ≡ linked s.now n node link }
{
    let to = link_at(s, node, link);
    (to < n && link_at(s, to, link.opposite()) == node).then_some(to)
}

// Goes from the class both ways in turn, through entries alone, until the two ends meet. Marks the entries' nodes.
#[tactic(auto, using(crate::proofs::Marks::steps))]
fn meets(s: &[u8], seen: &mut [u8; 256], class: usize) -> bool
    requires { Sizes s.now × (class < classes s.now) }
    ensures met { result ≡ (trail_at s.now class seen.old).met }
    ensures marks { seen.new ≡ (trail_at s.now class seen.old).seen }
{
    let classes = usize::from(s[0]);
    let n = classes + usize::from(s[1]);
    let mark = (class + 1) as u8;
    let mut front = class;
    let mut back = class;
    for _ in 0..n {
        let Some(ahead) = linked(s, n, front, Link::Next) else {
            return false;
        };
        if ahead == back {
            return true;
        }
        if ahead < classes {
            return false;
        }
        seen[ahead] = mark;
        let Some(behind) = linked(s, n, back, Link::Prev) else {
            return false;
        };
        if behind == ahead {
            return true;
        }
        if behind < classes {
            return false;
        }
        seen[behind] = mark;
        front = ahead;
        back = behind;
    }
    false
}

#[tactic(auto, using(state::proofs::Seq::all_true), unfolding(crate::specs::Inner::marks_of))]
fn cycles(s: &[u8], seen: &mut [u8; 256]) -> bool
    requires { Sizes s.now × (seen.old ≡ unmarked) }
    ensures { (result ≡ all_b (classes s.now) (meets_at s.now)) × (result ≡ true → seen.new ≡ marks_of s.now (classes s.now)) }
{
    for class in 0..usize::from(s[0]) {
        if !meets(s, seen, class) {
            return false;
        }
    }
    true
}

fn is_placed(s: &[u8], seen: &[u8; 256], node: usize) -> bool
    requires { (3 + 2 * node < length s.now) × (node < 256) }
    ensures { result ≡ placed_by s.now seen.now node }
{
    seen[node] != 0 || (link_at(s, node, Link::Next), link_at(s, node, Link::Prev)) == (node, node)
}

fn all_placed(s: &[u8], seen: &[u8; 256]) -> bool
    requires { Sizes s.now }
    ensures { result ≡ all_b (entries s.now) (λ k. placed_by s.now seen.now (classes s.now + k)) }
{
    let classes = usize::from(s[0]);
    (0..usize::from(s[1])).all(|entry| is_placed(s, seen, classes + entry))
}

// Inner: also marks each bound entry's node with its class's number and one more.
#[tactic(auto, using(crate::proofs::WholeTools::sizes_of, crate::proofs::WholeTools::whole_no_sizes, crate::proofs::Sound::not_whole))]
pub fn whole_marked(s: &[u8], seen: &mut [u8; 256]) -> bool
    requires { seen.old ≡ unmarked }
    ensures { Whole s.now seen.new result }
{
    if !sizes(s) {
        return false;
    }
    cycles(s, seen) && all_placed(s, seen)
}

#[tactic(auto, unfolding(crate::specs::Inner::unmarked))]
pub fn whole(s: &[u8]) -> bool
    ensures { result ≡ whole_b s.now }
{
    let mut seen = [0u8; 256];
    whole_marked(s, &mut seen)
}
