// What the regular registry's calls do once the bytes are known whole. Inner: these cross crates and may require.
// Whole bytes are required, and no struct carries that: a change writes its parts one after the other, and in between they are not whole.
#![tactic(auto, using(crate::proofs::Looks::known_parts))]

pub mod change;
pub mod look;
