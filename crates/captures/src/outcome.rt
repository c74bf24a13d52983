// The sorts of lines in a capture.

#[derive(Clone, Copy)]
pub enum Outcome {
    // the bytes of a frame
    Good,
    // bytes that are no frame
    Refused,
    // not bytes in hexadecimal
    Unreadable,
}

// A line of a capture, and what there is to say about it.
#[derive(Drop)]
pub struct Explained {
    pub outcome: Outcome,
    pub text: String,
}

// How many lines of each sort there were.
#[derive(Clone, Copy)]
pub struct Tally {
    pub good: u64,
    pub refused: u64,
    pub unreadable: u64,
}
