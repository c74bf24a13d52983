// The interface of a journal: where a machine keeps its rows. Whatever stands above a journal knows only what is said here.
ghost use Rattle.journals.specs.Journals.{Meaning, Sound, append_after, append_answer, append_check};
ghost use Rattle.journals.specs.Journals.{is_row, read_after, read_answer, read_check};
ghost use Rattle.std.specs.Prelude.{◌≡◌, length, OnErr};

use crate::fault::JournalFault;

// A row has so many bytes.
pub const ROW_BYTES: usize = 32;

// Rows and free rows of a journal are at most so many together.
pub const MOST_ROWS: u32 = 1_000_000;

// A journal means a list of rows, counted from 1, and a count of free rows. A row is 32 bytes and its first byte is not 0.
pub trait Journal {
    ghost meaning: { Self → Meaning };

    // Puts a row at the end, and answers the new length. A refusal leaves the journal itself as it was, not only what it means: of what
    // it is made of nothing changes either.
    fn append(&mut self, row: &[u8]) -> Result<u32, JournalFault>
        ensures answer { result ≡ append_answer (meaning self.old) row.now }
        ensures after { meaning self.new ≡ append_after (meaning self.old) row.now }
        ensures refused { OnErr result (self.new ≡ self.old) };

    // Copies row k into the target.
    fn read(&self, k: u32, target: &mut [u8]) -> Result<(), JournalFault>
        ensures answer { result ≡ read_answer (meaning self.now) k target.old }
        ensures after { target.new ≡ read_after (meaning self.now) k target.old };

    // How many rows there are.
    fn length(&self) -> u32
        ensures { result ≡ length (meaning self.now).rows };

    // How many rows can still be appended.
    fn free(&self) -> u32
        ensures { result ≡ (meaning self.now).free };

    // Of every journal, in every state: rows and free rows are few enough, and every row has the shape of one.
    ghost sound: { (j : Self) → Sound (meaning j) };
}

// Whether append takes these bytes for a row.
pub fn is_row(bytes: &[u8]) -> bool
    ensures { result ≡ is_row bytes.now }
{
    bytes.len() == ROW_BYTES && bytes[0] != 0
}

// The refusals of append, in their order, at a journal with so many free rows. Drum and chain both ask here, so that they refuse alike.
pub fn check_append(free: u32, row: &[u8]) -> Result<(), JournalFault>
    ensures { result ≡ append_check free row.now }
{
    if !is_row(row) {
        return Err(JournalFault::NotARow);
    }
    if free == 0 {
        return Err(JournalFault::NoFreeRow);
    }
    Ok(())
}

// The refusals of read, in their order, at a journal of this length.
pub fn check_read(length: u32, k: u32, target: &[u8]) -> Result<(), JournalFault>
    ensures { result ≡ read_check length k target.now }
{
    if target.len() != ROW_BYTES {
        return Err(JournalFault::NotARow);
    }
    if !(1..=length).contains(&k) {
        return Err(JournalFault::NoSuchRow);
    }
    Ok(())
}
