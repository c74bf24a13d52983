// Journals: what drums and chains answer at their ends, and a make of another sort behind the same interface.
#![tactic(auto)]

#[cfg(test)]
mod chains;
pub mod copies;
#[cfg(test)]
mod drums;
#[cfg(test)]
mod trial;
