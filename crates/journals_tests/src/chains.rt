// The chain.
use crate::copies::Copies;
use crate::trial::{
    IntoRows, append, counts, fill, fill_and_refuse, read, refuse, row, row_at, rows_after,
};
use journals::chain::Chain;
use journals::drum::Drum;
use std::process::Abort;
use std::test::Fail;

// A drum with rows 1 to so many.
fn drum_of(rows: u32) -> Drum {
    let mut drum = Drum::new();
    for k in 1..=rows {
        let _ = append(&mut drum, &row(k));
    }
    drum
}

#[test]
fn two_drums_take_96_rows(rt: HostRuntime) -> Result<(), Fail> {
    let chain = Chain::new(Drum::new(), Drum::new());
    let rows = rows_after(chain, |chain| fill_and_refuse(&rt, chain, 96))?;
    assert_eq!(rt; rows, (48, 48));
    Ok(())
}

#[test]
fn chains_are_journals_for_chains(rt: HostRuntime) -> Result<(), Fail> {
    let pair = Chain::new(Drum::new(), Drum::new());
    let chain = Chain::new(pair, Drum::new());
    let rows = rows_after(chain, |chain| fill_and_refuse(&rt, chain, 144))?;
    assert_eq!(rt; rows, ((48, 48), 48));
    Ok(())
}

#[test]
fn a_chain_can_be_second(rt: HostRuntime) -> Result<(), Fail> {
    let pair = Chain::new(Drum::new(), Drum::new());
    let chain = Chain::new(Drum::new(), pair);
    let rows = rows_after(chain, |chain| fill(&rt, chain, 144))?;
    assert_eq!(rt; rows, (48, (48, 48)));
    Ok(())
}

// What a chain of two drums with so many rows counts, what it answers to one more row, and where that row is then.
fn one_more(first: u32, second: u32) -> ((u32, u32), Result<u32, u8>, (u32, u32)) {
    let mut chain = Chain::new(drum_of(first), drum_of(second));
    let before = counts(&chain);
    let answer = append(&mut chain, &row(200));
    (before, answer, chain.into_rows())
}

#[test]
fn the_second_gets_the_row_once_it_has_one_or_the_first_is_full(rt: HostRuntime) {
    assert_eq!(rt; one_more(10, 0), ((10, 86), Ok(11), (11, 0)));
    assert_eq!(rt; one_more(48, 0), ((48, 48), Ok(49), (48, 1)));
    assert_eq!(rt; one_more(10, 3), ((13, 45), Ok(14), (10, 4)));
    assert_eq!(rt; one_more(0, 47), ((47, 1), Ok(48), (0, 48)));
    assert_eq!(rt; one_more(0, 48), ((48, 0), Err(21), (0, 48)));
    assert_eq!(rt; one_more(48, 48), ((96, 0), Err(21), (48, 48)));
}

fn read_across(rt: &impl Abort, chain: &mut Chain<Drum, Drum>) -> Result<(), Fail> {
    assert_eq!(rt; append(chain, &row(200)), Ok(6));
    assert_eq!(rt; row_at(chain, 2), Ok(row(2)));
    assert_eq!(rt; row_at(chain, 3), Ok(row(1)));
    assert_eq!(rt; row_at(chain, 6), Ok(row(200)));
    assert_eq!(rt; row_at(chain, 7), Err(20));
    Ok(())
}

#[test]
fn rows_are_numbered_through(rt: HostRuntime) -> Result<(), Fail> {
    let chain = Chain::new(drum_of(2), drum_of(3));
    let rows = rows_after(chain, |chain| read_across(&rt, chain))?;
    assert_eq!(rt; rows, (2, 4));
    Ok(())
}

// The last row that a journal can have is appended and read.
fn reach_the_end(rt: &impl Abort, chain: &mut Chain<Copies, Drum>) -> Result<(), Fail> {
    assert_eq!(rt; counts(chain), (999_952, 48));
    for k in 999_953..=1_000_000u32 {
        assert_eq!(rt; append(chain, &row(k % 1000)), Ok(k));
    }
    assert_eq!(rt; counts(chain), (1_000_000, 0));
    assert_eq!(rt; row_at(chain, 999_952), Ok([7u8; 32]));
    assert_eq!(rt; row_at(chain, 999_953), Ok(row(953)));
    assert_eq!(rt; row_at(chain, 1_000_000), Ok(row(0)));
    refuse(rt, chain);
    Ok(())
}

#[test]
fn a_chain_can_have_1_000_000_rows(rt: HostRuntime) -> Result<(), Fail> {
    let chain = Chain::new(Copies::new(999_952), Drum::new());
    let rows = rows_after(chain, |chain| reach_the_end(&rt, chain))?;
    assert_eq!(rt; rows, (999_952, 48));
    Ok(())
}

fn nothing_in(rt: &impl Abort, chain: &mut Chain<Copies, Drum>) -> Result<(), Fail> {
    assert_eq!(rt; counts(chain), (0, 0));
    assert_eq!(rt; append(chain, &row(1)), Err(21));
    let mut target = [5u8; 32];
    assert_eq!(rt; read(chain, 1, &mut target), Err(20));
    assert_eq!(rt; target, [5u8; 32]);
    refuse(rt, chain);
    Ok(())
}

#[test]
fn a_chain_of_more_is_empty_and_full(rt: HostRuntime) -> Result<(), Fail> {
    let chain = Chain::new(Copies::new(999_953), drum_of(1));
    let rows = rows_after(chain, |chain| nothing_in(&rt, chain))?;
    assert_eq!(rt; rows, (999_953, 1));
    Ok(())
}

#[test]
fn a_full_first_of_no_rows_sends_all_to_the_second(rt: HostRuntime) -> Result<(), Fail> {
    let chain = Chain::new(Copies::new(0), Drum::new());
    let rows = rows_after(chain, |chain| fill(&rt, chain, 48))?;
    assert_eq!(rt; rows, (0, 48));
    Ok(())
}

fn only_copies_in(rt: &impl Abort, chain: &mut Chain<Drum, Copies>) -> Result<(), Fail> {
    assert_eq!(rt; counts(chain), (5, 0));
    assert_eq!(rt; append(chain, &row(1)), Err(21));
    assert_eq!(rt; row_at(chain, 1), Ok([7u8; 32]));
    refuse(rt, chain);
    Ok(())
}

#[test]
fn free_rows_of_the_first_do_not_count_behind_rows(rt: HostRuntime) -> Result<(), Fail> {
    let chain = Chain::new(Drum::new(), Copies::new(5));
    let rows = rows_after(chain, |chain| only_copies_in(&rt, chain))?;
    assert_eq!(rt; rows, (0, 5));
    Ok(())
}
