// The chain: two journals as one.
ghost use Rattle.std.specs.Prelude.{◌≡◌, nat_le};
ghost use Rattle.journals.specs.Journals.{most_rows};
ghost use Rattle.journals.specs.Makes.{both, chained, goes_first};
ghost use Rattle.journals.specs.Laws.{chain_sound};

use crate::fault::JournalFault;
use crate::journal::{Journal, MOST_ROWS, check_append, check_read};

// It is not Drop: into_parts ends it and hands both journals back.
pub struct Chain<A, B> {
    first: A,
    second: B,
}

impl<A: Journal, B: Journal> Chain<A, B> {
    // Any two journals make a chain; where they have too many rows and free rows for one journal, it has none of either.
    pub fn new(first: A, second: B) -> Chain<A, B>
        ensures { (result.first ≡ first) × (result.second ≡ second) }
    {
        Self { first, second }
    }

    // Hands both journals back.
    pub fn into_parts(self) -> (A, B)
        ensures { (result.0 ≡ self.first) × (result.1 ≡ self.second) }
    {
        let Chain { first, second } = self;
        (first, second)
    }

    // Whether rows and free rows of both are few enough for one journal.
    fn fits(&self) -> bool
        ensures { result ≡ nat_le (both (A.meaning self.now.first) (B.meaning self.now.second)) most_rows }
    {
        let first = self.first.length() + self.first.free();
        let second = self.second.length() + self.second.free();
        first + second <= MOST_ROWS
    }

    // Whether a row that is appended goes to the first.
    fn goes_first(&self) -> bool
        ensures { result ≡ goes_first (A.meaning self.now.first) (B.meaning self.now.second) }
    {
        self.second.length() == 0 && self.first.free() != 0
    }
}

impl<A: Journal, B: Journal> Journal for Chain<A, B> {
    ghost meaning = { λ c. chained (A.meaning c.first) (B.meaning c.second) };

    ghost sound = { λ chain.
        chain_sound (A.meaning chain.first) (B.meaning chain.second)
        (A.sound chain.first) (B.sound chain.second) };

    fn append(&mut self, row: &[u8]) -> Result<u32, JournalFault> {
        check_append(self.free(), row)?;
        if self.goes_first() {
            self.first.append(row)
        } else {
            let number = self.second.append(row)?;
            Ok(self.first.length() + number)
        }
    }

    fn read(&self, k: u32, target: &mut [u8]) -> Result<(), JournalFault> {
        check_read(self.length(), k, target)?;
        let length = self.first.length();
        if k <= length {
            self.first.read(k, target)
        } else {
            self.second.read(k - length, target)
        }
    }

    fn length(&self) -> u32 {
        if !self.fits() {
            return 0;
        }
        self.first.length() + self.second.length()
    }

    fn free(&self) -> u32 {
        if !self.fits() {
            return 0;
        }
        if self.second.length() != 0 {
            return self.second.free();
        }
        self.first.free() + self.second.free()
    }
}
