// The drum: a journal that holds its rows in itself.
ghost use Rattle.std.specs.Prelude.{◌≡◌, ℕ, ◌<◌, ◌≤◌, [], length, slice_index_or};
ghost use Rattle.journals.specs.Journals.{Row};
ghost use Rattle.journals.specs.Makes.{drum_meaning, drum_rows, empty};
ghost use Rattle.journals.specs.Laws.{drum_sound};

use crate::fault::JournalFault;
use crate::journal::{Journal, check_append, check_read};
use crate::table::{DRUM_ROWS, Table};

// It is not Drop, so that no drum is let go silently: into_table ends it.
pub struct Drum {
    table: Table,
    ghost few: { table.used ≤ drum_rows },
    ghost sized: { length table.rows ≡ drum_rows },
    ghost shaped: { (i : ℕ) → i < table.used → Row (slice_index_or table.rows i []) },
}

impl Drum {
    // An empty drum.
    pub fn new() -> Drum
        ensures { drum_meaning result.table ≡ empty drum_rows }
    {
        Drum {
            table: Table::new(),
        }
    }

    // Ends the drum and hands back what it holds.
    pub fn into_table(self) -> Table
        ensures { result ≡ self.table }
    {
        let Drum { table } = self;
        table
    }
}

impl Journal for Drum {
    ghost meaning = { λ d. drum_meaning d.table };

    ghost sound = { λ d. drum_sound d.table d.sized d.few d.shaped };

    fn append(&mut self, row: &[u8]) -> Result<u32, JournalFault> {
        check_append(self.free(), row)?;
        self.table.push(row);
        Ok(self.table.used)
    }

    fn read(&self, k: u32, target: &mut [u8]) -> Result<(), JournalFault> {
        check_read(self.table.used, k, target)?;
        target.copy_from_slice(self.table.row(k));
        Ok(())
    }

    fn length(&self) -> u32 {
        self.table.used
    }

    fn free(&self) -> u32 {
        DRUM_ROWS - self.table.used
    }
}
