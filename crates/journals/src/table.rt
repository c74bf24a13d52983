// The memory of a drum: a table of rows, and how many of them are used.
ghost use Rattle.std.specs.Prelude.{◌≡◌, ◌-◌, ◌<◌, ◌≤◌, [], length, replicate, slice_index_or};
ghost use Rattle.journals.specs.Journals.{row_bytes};
ghost use Rattle.journals.specs.Makes.{drum_rows, pushed};

use crate::journal::ROW_BYTES;

// A drum has so many rows.
pub const DRUM_ROWS: u32 = 48;

// The first rows are used, the others mean nothing. The count stands beside the rows, since all 48 are handed back when a drum ends, and
// what stands in each is promised: of room that is not used a vector would promise nothing.
#[derive(Drop)]
pub struct Table {
    pub rows: [[u8; ROW_BYTES]; DRUM_ROWS as usize],
    pub used: u32,
}

impl Table {
    // No row is used.
    pub fn new() -> Table
        ensures { result ≡ record { rows = replicate drum_rows (replicate row_bytes 0); used = 0 } }
    {
        Table {
            rows: [[0; ROW_BYTES]; DRUM_ROWS as usize],
            used: 0,
        }
    }

    // Row k, counted from 1.
    pub(crate) fn row(&self, k: u32) -> &[u8; ROW_BYTES]
        requires { (1 ≤ k) × (k ≤ drum_rows) }
        ensures { result.now ≡ slice_index_or self.now.rows (k - 1) [] }
    {
        &self.rows[(k - 1) as usize]
    }

    // Uses the next row for a copy of this one.
    pub(crate) fn push(&mut self, row: &[u8])
        requires { (self.old.used < drum_rows) × (length row.now ≡ row_bytes) }
        ensures { self.new ≡ pushed self.old row.now }
    {
        self.rows[self.used as usize].copy_from_slice(row);
        self.used += 1;
    }
}
