// The radio frames: what machines say to each other. A frame is read from bytes and written into bytes, and has one spelling.
#![tactic(auto)]

mod change;
pub mod fault;
pub mod frame;
pub mod laws;
pub mod pairs;
pub mod read;
mod received;
pub mod write;
