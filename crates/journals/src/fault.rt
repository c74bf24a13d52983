// Why a journal refuses.
ghost use Rattle.journals.specs.Faults.{fault_number};
ghost use Rattle.std.specs.Fmt.{decimal};
ghost use Rattle.std.specs.Prelude.{◌≡◌, ◌++◌, Some, codes};

use std::fmt;

#[derive(Clone, Copy, Debug, PartialEq, Eq)]
pub enum JournalFault {
    // what is handed in is not 32 bytes, or a row to append begins with 0
    NotARow,
    // the row number is not 1 to the length
    NoSuchRow,
    // no row is free
    NoFreeRow,
}

// The number of the refusal.
impl From<JournalFault> for u8 {
    ghost from_gives = { λ fault n. n ≡ fault_number fault };

    fn from(fault: JournalFault) -> u8 {
        match fault {
            JournalFault::NotARow => 19,
            JournalFault::NoSuchRow => 20,
            JournalFault::NoFreeRow => 21,
        }
    }
}

// A refusal is told by its number.
impl fmt::Display for JournalFault {
    ghost output = { λ fault. Some (codes "refused " ++ decimal (fault_number fault)) };

    fn fmt<W: fmt::Write>(&self, f: &mut fmt::Formatter<W>) -> fmt::Result {
        let number = u8::from(*self);
        write!(f, "refused {number}")
    }
}
