// A node's two links.
ghost use Rattle.std.specs.Prelude.{◌≡◌};
ghost use Rattle.multi_cycle_list.specs.Inner.{offset, opposite};

// To the node after it, and to the one before.
#[derive(Clone, Copy, Debug, PartialEq, Eq)]
pub enum Link {
    Next,
    Prev,
}

impl Link {
    // Where node 0 has it in the bytes; each node has two bytes.
    pub fn offset(self) -> usize
        ensures { result ≡ offset self }
    {
        match self {
            Link::Next => 2,
            Link::Prev => 3,
        }
    }

    pub(crate) fn opposite(self) -> Link
        ensures { result ≡ opposite self }
    {
        match self {
            Link::Next => Link::Prev,
            Link::Prev => Link::Next,
        }
    }
}
