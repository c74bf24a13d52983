// Writing into buffers that are too short, that fit and that are longer.
use frames::fault::{BufferTooShort, FrameFault};
use frames::frame::{Change, Contribution, Fill, Forerunners, Frame};
use frames::read::read;
use frames::write::write;
use std::test::Fail;
use values::fleet_size::FleetSize;
use values::level::Level;
use values::mark::Mark;

fn coldest() -> Frame<Level> {
    Frame::QuestionFill(Fill {
        sender: 1,
        ballot: 3,
        value: Level(-400),
    })
}

// Setting 12 to -50, after the first three changes of machine 2 and the first of machine 3.
fn change() -> Frame<Level> {
    let counts = [0, 3, 1, 0, 0, 0, 0, 0, 0];
    Frame::Change(Change {
        author: 1,
        number: 1,
        setting: 12,
        level: -50,
        forerunners: Forerunners { counts },
    })
}

// Every byte that is not written stays 0xAA.
#[test]
fn a_longer_buffer_keeps_its_end(rt: HostRuntime) {
    let mut buffer = [0xAAu8; 8];
    assert_eq!(rt; write(&coldest(), &mut buffer), Ok(6));
    assert_eq!(rt; buffer, [0x05, 0x01, 0x00, 0x03, 0xFE, 0x70, 0xAA, 0xAA]);
}

#[test]
fn a_fitting_buffer_is_filled(rt: HostRuntime) {
    let mut buffer = [0xAAu8; 6];
    assert_eq!(rt; write(&coldest(), &mut buffer), Ok(6));
    assert_eq!(rt; buffer, [0x05, 0x01, 0x00, 0x03, 0xFE, 0x70]);
}

#[test]
fn a_short_buffer_is_left_alone(rt: HostRuntime) {
    let mut buffer = [0xAAu8; 5];
    assert_eq!(rt; write(&coldest(), &mut buffer).map_err(u8::from), Err(18));
    assert_eq!(rt; buffer, [0xAA; 5]);
}

#[test]
fn pairs_are_written_machines_first(rt: HostRuntime) {
    let mut buffer = [0xAAu8; 14];
    assert_eq!(rt; write(&change(), &mut buffer), Ok(12));
    assert_eq!(rt;
        buffer,
        [
            0x01, 0x02, 0x01, 0x01, 0x00, 0x0C, 0xFF, 0xCE, 0x02, 0x03, 0x03, 0x01, 0xAA, 0xAA,
        ]
    );
}

#[test]
fn a_change_needs_room_for_its_pairs(rt: HostRuntime) {
    let mut buffer = [0xAAu8; 11];
    assert_eq!(rt; write(&change(), &mut buffer), Err(BufferTooShort));
    assert_eq!(rt; buffer, [0xAA; 11]);
}

#[test]
fn a_contribution_has_its_round_and_value_high_byte_first(rt: HostRuntime) {
    let frame: Frame<Level> = Frame::PlaceContribution(Contribution {
        sender: 4,
        ballot: 360,
        round: 60000,
        value: Mark {
            author: 2,
            number: 5,
        },
    });
    let mut buffer = [0u8; 8];
    assert_eq!(rt; write(&frame, &mut buffer), Ok(8));
    assert_eq!(rt; buffer, [0x02, 0x04, 0x01, 0x68, 0xEA, 0x60, 0x02, 0x05]);
}

// What is written for a change reads back as it, and not in a fleet that lacks a machine of its pairs.
#[test]
fn a_written_change_reads_back(rt: HostRuntime) -> Result<(), Fail> {
    let mut buffer = [0u8; 12];
    let _ = write(&change(), &mut buffer);
    let three = FleetSize::new(3).ok_or_else(|| Fail::new("a fleet of three"))?;
    assert_eq!(rt; read::<Level>(three, &buffer), Ok(change()));
    let two = FleetSize::new(2).ok_or_else(|| Fail::new("a fleet of two"))?;
    let fault = read::<Level>(two, &buffer).map_err(|fault| (u8::from(fault), fault.offset()));
    assert_eq!(rt; fault, Err((4, 9)));
    Ok(())
}

// Columns are copied as the forerunners are; what stands behind the first `len` means nothing.
#[test]
fn columns_have_the_pairs_in_order(rt: HostRuntime) {
    let counts = [0, 3, 1, 0, 0, 0, 0, 0, 40];
    let columns = Forerunners { counts }.columns();
    let copy = columns;
    assert_eq!(rt; columns.len, 3);
    assert_eq!(rt; &copy.machines[..3], [2u8, 3, 9].as_slice());
    assert_eq!(rt; &copy.counts[..3], [3u8, 1, 40].as_slice());
}

#[test]
fn faults_carry_their_numbers(rt: HostRuntime) {
    assert_eq!(rt;
        (u8::from(FrameFault::Kind), FrameFault::Kind.offset()),
        (2, 0)
    );
    assert_eq!(rt;
        (u8::from(FrameFault::Length), FrameFault::Length.offset()),
        (3, 0)
    );
    assert_eq!(rt;
        (
            u8::from(FrameFault::Field(23)),
            FrameFault::Field(23).offset(),
        ),
        (4, 23)
    );
}
