// A radio capture as text: lines of hexadecimal to frames, and frames to words.
#![tactic(auto)]

pub mod first_line;
pub mod hex;
pub mod outcome;
pub mod report;
pub mod tally;
pub mod words;
