// A journal without a free row: any number of copies of one row. It is honest, since it gives back every row that it counts, and it
// has as many rows as wanted without memory for them.
ghost use Rattle.std.specs.Prelude.{◌≡◌, ◌≤◌, min};
ghost use Rattle.journals.specs.Journals.{most_rows};
ghost use Rattle.journals_tests.specs.Copies.{copies, sevens};
ghost use Rattle.journals_tests.specs.Laws.{copies_sound};

use journals::fault::JournalFault;
use journals::journal::{Journal, MOST_ROWS, ROW_BYTES, check_read, is_row};

// The row.
fn row() -> [u8; ROW_BYTES]
    ensures { result ≡ sevens }
{
    [7; ROW_BYTES]
}

pub struct Copies {
    rows: u32,
    ghost few: { rows ≤ most_rows },
}

impl Copies {
    // So many copies, but no more than a journal can have.
    pub fn new(rows: u32) -> Copies
        ensures { result.rows ≡ min rows most_rows }
    {
        Copies {
            rows: rows.min(MOST_ROWS),
        }
    }

    // Ends the journal, and answers how many copies it had.
    pub fn end(self) -> u32
        ensures { result ≡ self.rows }
    {
        let Copies { rows } = self;
        rows
    }
}

impl Journal for Copies {
    ghost meaning = { λ c. copies c.rows };

    ghost sound = { λ c. copies_sound c.rows c.few };

    fn append(&mut self, row: &[u8]) -> Result<u32, JournalFault> {
        if !is_row(row) {
            return Err(JournalFault::NotARow);
        }
        Err(JournalFault::NoFreeRow)
    }

    fn read(&self, k: u32, target: &mut [u8]) -> Result<(), JournalFault> {
        check_read(self.length(), k, target)?;
        target.copy_from_slice(&row());
        Ok(())
    }

    fn length(&self) -> u32 {
        self.rows
    }

    fn free(&self) -> u32 {
        0
    }
}
