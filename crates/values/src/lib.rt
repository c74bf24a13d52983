// What a ballot can be about: the interface of a value kind, its two implementations (marks and levels), and the
// size of a fleet, on which the values that there are may depend.
#![tactic(auto)]

pub mod fleet_size;
pub mod kind;
pub mod laws;
pub mod level;
pub mod mark;
