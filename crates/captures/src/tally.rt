// Counting the lines of a capture.
ghost use Rattle.captures.specs.Tallies.{counted, none_yet, tally_words};
ghost use Rattle.std.specs.Prelude.{◌≡◌, Some};

use crate::outcome::{Outcome, Tally};
use std::fmt;

impl Tally {
    pub fn new() -> Tally
        ensures { result ≡ none_yet }
    {
        Tally {
            good: 0,
            refused: 0,
            unreadable: 0,
        }
    }

    // One line more of a sort. A count that has no room for it stays as it is.
    pub fn count(&mut self, outcome: Outcome)
        ensures { self.new ≡ counted self.old outcome }
    {
        match outcome {
            Outcome::Good => self.good = self.good.saturating_add(1),
            Outcome::Refused => self.refused = self.refused.saturating_add(1),
            Outcome::Unreadable => self.unreadable = self.unreadable.saturating_add(1),
        }
    }
}

// The last line of a report.
impl fmt::Display for Tally {
    ghost output = { λ tally. Some (tally_words tally) };

    fn fmt<W: fmt::Write>(&self, f: &mut fmt::Formatter<W>) -> fmt::Result {
        let Tally {
            good,
            refused,
            unreadable,
        } = self;
        write!(f, "good {good} refused {refused} unreadable {unreadable}")
    }
}
