// `MultiCycleList`: nodes in cycles, each linked to the one after it and the one before.
ghost use Rattle.std.specs.Prelude.{◌≡◌, ◌+◌, ◌*◌, ◌<◌, ◌≤◌, not, eqb, length};
ghost use Rattle.multi_cycle_list.specs.Nodes.{next};
ghost use Rattle.multi_cycle_list.specs.Inner.{link_at, link_b, unbind_b, bind_b, beside_b, alone_to, Fits, Around, Movable};

use crate::link::Link;

pub(crate) fn link_at(s: &[u8], node: usize, link: Link) -> usize
    requires { 3 + 2 * node < length s.now }
    ensures { result ≡ link_at s.now node link }
{
    usize::from(s[link.offset() + 2 * node])
}

pub(crate) fn is_bound(s: &[u8], node: usize) -> bool
    requires { 3 + 2 * node < length s.now }
    ensures { result ≡ not (eqb (next s.now node) node) }
{
    link_at(s, node, Link::Next) != node
}

// Links the node `a` to the node `b`, both ways.
fn link(s: &mut [u8], a: usize, b: usize)
    requires { Fits s.old a × Fits s.old b }
    ensures { s.new ≡ link_b s.old a b }
{
    s[Link::Prev.offset() + 2 * b] = a as u8;
    s[Link::Next.offset() + 2 * a] = b as u8;
}

// Each node alone.
#[tactic(auto, unfolding(crate::specs::Inner::alone_to))]
pub(crate) fn alone(s: &mut [u8], n: usize)
    requires { (n ≤ 256) × (length s.old ≡ 2 + 2 * n) }
    ensures { s.new ≡ alone_to s.old n }
{
    for node in 0..n {
        link(s, node, node);
    }
}

pub(crate) fn unbind(s: &mut [u8], node: usize)
    requires { Around s.old node }
    ensures { s.new ≡ unbind_b s.old node }
{
    let next = link_at(s, node, Link::Next);
    let prev = link_at(s, node, Link::Prev);
    link(s, node, node);
    link(s, prev, next);
}

// The node, which stands alone, between two others.
fn bind(s: &mut [u8], node: usize, prev: usize, next: usize)
    requires { Fits s.old node × (Fits s.old prev × Fits s.old next) }
    ensures { s.new ≡ bind_b s.old node prev next }
{
    link(s, node, next);
    link(s, prev, node);
}

// The node leaves its place, and joins after the node `to`, which is along `Next`, or before it.
pub(crate) fn move_beside(s: &mut [u8], node: usize, to: usize, side: Link)
    requires { Movable s.old node to }
    ensures { s.new ≡ beside_b (unbind_b s.old node) node to side }
{
    unbind(s, node);
    let far = link_at(s, to, side);
    match side {
        Link::Next => bind(s, node, to, far),
        Link::Prev => bind(s, node, far, to),
    }
}
