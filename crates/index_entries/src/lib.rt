// The entries of a key queue in lent bytes: keys, values, the index and the two lists. specs/ has what the bytes mean.
// Whole bytes are required, and no struct carries that: a change writes its parts one after the other, and in between they are not whole.
// Inner: what these functions require, the calls of `index_queue` have tested.
#![tactic(auto, using(crate::proofs::Sizes::sizes))]

pub mod change;
pub mod look;
