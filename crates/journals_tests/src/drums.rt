// The drum.
use crate::trial::{append, counts, fill_and_refuse, refuse, row, rows_after};
use journals::drum::Drum;
use journals::fault::JournalFault;
use std::process::Abort;
use std::test::Fail;

#[test]
fn faults_have_their_numbers(rt: HostRuntime) {
    assert_eq!(rt; u8::from(JournalFault::NotARow), 19);
    assert_eq!(rt; u8::from(JournalFault::NoSuchRow), 20);
    assert_eq!(rt; u8::from(JournalFault::NoFreeRow), 21);
}

#[test]
fn a_drum_takes_48_rows_and_hands_them_back(rt: HostRuntime) -> Result<(), Fail> {
    let mut drum = Drum::new();
    let filled = fill_and_refuse(&rt, &mut drum, 48);
    let table = drum.into_table();
    filled?;
    assert_eq!(rt; table.used, 48);
    assert_eq!(rt; table.rows[0], row(1));
    assert_eq!(rt; table.rows[47], row(48));
    Ok(())
}

fn refuse_at_0_and_1(rt: &impl Abort, drum: &mut Drum) -> Result<(), Fail> {
    refuse(rt, drum);
    assert_eq!(rt; append(drum, &row(1)), Ok(1));
    refuse(rt, drum);
    assert_eq!(rt; counts(drum), (1, 47));
    Ok(())
}

#[test]
fn a_drum_with_room_refuses_what_is_no_row(rt: HostRuntime) -> Result<(), Fail> {
    let used = rows_after(Drum::new(), |drum| refuse_at_0_and_1(&rt, drum))?;
    assert_eq!(rt; used, 1);
    Ok(())
}
