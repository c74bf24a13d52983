// Trials that any journal can be put to. They borrow it, so that it can be ended whatever came of them; one that finds something
// wrong ends the test. The runtime is a parameter beside the journal, since assertions want it: a struct of two borrows, made anew at
// each call, would say no more.
use crate::copies::Copies;
use journals::chain::Chain;
use journals::drum::Drum;
use journals::journal::Journal;
use std::process::Abort;
use std::test::Fail;

// A journal that a test ends, and how many rows each of its parts has then.
pub(crate) trait IntoRows: Journal {
    type Rows: Drop;

    fn into_rows(self) -> Self::Rows;
}

impl IntoRows for Drum {
    type Rows = u32;

    fn into_rows(self) -> u32 {
        self.into_table().used
    }
}

impl IntoRows for Copies {
    type Rows = u32;

    fn into_rows(self) -> u32 {
        self.end()
    }
}

impl<A: IntoRows, B: IntoRows> IntoRows for Chain<A, B> {
    type Rows = (A::Rows, B::Rows);

    fn into_rows(self) -> (A::Rows, B::Rows) {
        let (first, second) = self.into_parts();
        (first.into_rows(), second.into_rows())
    }
}

// Puts a journal to a trial, and ends it whatever came of that.
pub(crate) fn rows_after<J: IntoRows, F: FnOnce(&mut J) -> Result<(), Fail>>(
    mut journal: J,
    trial: F,
) -> Result<J::Rows, Fail>
    requires { F.IsAlwaysCallable trial }
{
    let tried = trial(&mut journal);
    let rows = journal.into_rows();
    tried?;
    Ok(rows)
}

// A row that no other number below 65,536 has: its number stands in the second byte and in the last.
pub(crate) fn row(k: u32) -> [u8; 32] {
    let [_, _, high, low] = k.to_be_bytes();
    let mut bytes = [9u8; 32];
    bytes[1] = high;
    bytes[31] = low;
    bytes
}

// The length that append answered, or the number of the refusal: it stays a number, since tests keep the values of docs/REFUSALS.md.
pub(crate) fn append<J: Journal>(journal: &mut J, bytes: &[u8]) -> Result<u32, u8> {
    journal.append(bytes).map_err(u8::from)
}

pub(crate) fn read<J: Journal>(journal: &J, k: u32, target: &mut [u8]) -> Result<(), u8> {
    journal.read(k, target).map_err(u8::from)
}

// Row k, read over bytes of another row, or the number of the refusal.
pub(crate) fn row_at<J: Journal>(journal: &J, k: u32) -> Result<[u8; 32], u8> {
    let mut target = [5u8; 32];
    read(journal, k, &mut target)?;
    Ok(target)
}

pub(crate) fn counts<J: Journal>(journal: &J) -> (u32, u32) {
    (journal.length(), journal.free())
}

// An empty journal with so many free rows takes as many, refuses one more, and gives each back under its number.
pub(crate) fn fill<J: Journal>(rt: &impl Abort, journal: &mut J, rows: u32) -> Result<(), Fail> {
    assert_eq!(rt; counts(journal), (0, rows));
    for k in 1..=rows {
        assert_eq!(rt; append(journal, &row(k)), Ok(k));
        assert_eq!(rt; counts(journal), (k, rows.saturating_sub(k)));
    }
    assert_eq!(rt; append(journal, &row(rows)), Err(21));
    for k in 1..=rows {
        assert_eq!(rt; row_at(journal, k), Ok(row(k)));
    }
    assert_eq!(rt; counts(journal), (rows, 0));
    Ok(())
}

// Bytes that are no row are refused by 19, whether a row is free or not.
pub(crate) fn refuse_bad_rows<J: Journal>(rt: &impl Abort, journal: &mut J) {
    let before = counts(journal);
    let mut zero_first = [9u8; 32];
    zero_first[0] = 0;
    assert_eq!(rt; append(journal, &zero_first), Err(19));
    assert_eq!(rt; append(journal, &[0u8; 32]), Err(19));
    assert_eq!(rt; append(journal, &[9u8; 31]), Err(19));
    assert_eq!(rt; append(journal, &[9u8; 33]), Err(19));
    assert_eq!(rt; append(journal, &[]), Err(19));
    assert_eq!(rt; counts(journal), before);
}

// A read that is refused leaves the target: 19 by its size, before 20 by the row number.
pub(crate) fn refuse_bad_reads<J: Journal>(rt: &impl Abort, journal: &J) {
    let beyond = journal.length().saturating_add(1);
    let mut target = [5u8; 32];
    assert_eq!(rt; read(journal, 0, &mut target), Err(20));
    assert_eq!(rt; read(journal, beyond, &mut target), Err(20));
    assert_eq!(rt; read(journal, u32::MAX, &mut target), Err(20));
    assert_eq!(rt; target, [5u8; 32]);
    let mut short = [5u8; 31];
    assert_eq!(rt; read(journal, 1, &mut short), Err(19));
    assert_eq!(rt; read(journal, 0, &mut short), Err(19));
    assert_eq!(rt; short, [5u8; 31]);
    let mut long = [5u8; 33];
    assert_eq!(rt; read(journal, 1, &mut long), Err(19));
    assert_eq!(rt; read(journal, beyond, &mut long), Err(19));
    assert_eq!(rt; long, [5u8; 33]);
    assert_eq!(rt; read(journal, 0, &mut []), Err(19));
}

// Full, it still refuses bad rows and bad reads first by 19.
pub(crate) fn fill_and_refuse<J: Journal>(
    rt: &impl Abort,
    journal: &mut J,
    rows: u32,
) -> Result<(), Fail> {
    fill(rt, journal, rows)?;
    refuse(rt, journal);
    Ok(())
}

pub(crate) fn refuse<J: Journal>(rt: &impl Abort, journal: &mut J) {
    refuse_bad_rows(rt, journal);
    refuse_bad_reads(rt, journal);
}
