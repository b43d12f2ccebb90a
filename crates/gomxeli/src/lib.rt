// The functions behind the exports to C, which gomxeli_c makes: each calls a proved function and packs its answer into one number.
#![tactic(auto)]

pub mod answer;
pub mod img;
pub mod iq;
pub mod lb;
pub mod leaves;
pub mod mcq;
pub mod reg;
pub mod req;
pub mod txm;
pub mod txr;
