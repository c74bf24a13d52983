// Journals: where a machine keeps its rows. All that a machine knows of one is its meaning.
#![tactic(auto)]

pub mod chain;
pub mod drum;
pub mod fault;
pub mod journal;
pub mod laws;
pub mod table;
