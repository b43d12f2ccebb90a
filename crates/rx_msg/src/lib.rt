// The registry of message reception over lent bytes: regular messages, and those that are looped back.
#![tactic(auto)]

pub mod loop_back_inner;
pub mod regular_inner;
