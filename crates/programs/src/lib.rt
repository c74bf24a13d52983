// What the programs inspect and drums have in common: what they are asked for by the words behind their name, and how they end.
#![tactic(auto)]

pub mod ends;
pub mod start;
pub mod words;
