// The static library: each export of include/gomxeli.h calls the function of its name in the library gomxeli, and has its clauses.
#![tactic(auto)]

pub mod img;
pub mod iq;
pub mod lb;
pub mod leaves;
pub mod mcq;
pub mod reg;
pub mod req;
pub mod txm;
pub mod txr;
