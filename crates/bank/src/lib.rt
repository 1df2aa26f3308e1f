// A bank of suites, which serves the triples of each.
#![tactic(auto)]

mod bank;

pub use bank::Bank;
