// Marks, the values of places.
ghost use Rattle.values.specs.Marks.{mark_kind};
ghost use Rattle.std.proofs.Common.{rules};

use crate::kind::ValueKind;

// The name of a change: its author, a machine number, and its number among the changes of that author.
// Marks go by number, then by author: the derived order compares the fields as they stand here.
#[derive(Clone, Copy, Debug, PartialEq, Eq, PartialOrd, Ord)]
pub struct Mark {
    pub number: u8,
    pub author: u8,
}

impl Mark {
    // An author makes at most 40 changes in the life of a book.
    pub const MOST_CHANGES: u8 = 40;
}

impl ValueKind for Mark {
    // Nine authors with 40 changes each.
    const HIGHEST: u16 = 360;

    const CONTRIBUTION: u8 = 2;

    const FILL: u8 = 3;

    ghost kind = { mark_kind };

    ghost HIGHEST = { mark_kind.highest };

    ghost CONTRIBUTION = { mark_kind.contribution };

    ghost FILL = { mark_kind.fill };

    ghost numbered = { Prim.search rules };

    ghost lawful = { Prim.search rules };

    fn is_before(self, other: Mark) -> bool {
        self < other
    }

    fn write(self) -> [u8; 2] {
        [self.author, self.number]
    }

    fn read(n: u8, high: u8, low: u8) -> Option<Mark> {
        if (1..=n).contains(&high) && (1..=Mark::MOST_CHANGES).contains(&low) {
            Some(Mark {
                author: high,
                number: low,
            })
        } else {
            None
        }
    }
}
