// The constants of the value kinds, the ends of their ranges and their orders.
use values::fleet_size::FleetSize;
use values::kind::ValueKind;
use values::level::Level;
use values::mark::Mark;

#[test]
fn a_fleet_has_1_to_9_machines(rt: HostRuntime) {
    assert!(rt; FleetSize::new(0).is_none());
    assert!(rt; FleetSize::new(1).is_some());
    assert!(rt; FleetSize::new(9).is_some());
    assert!(rt; FleetSize::new(10).is_none());
}

#[test]
fn kinds_state_their_numbers(rt: HostRuntime) {
    assert_eq!(rt;
        (Mark::HIGHEST, Mark::CONTRIBUTION, Mark::FILL),
        (360, 2, 3)
    );
    assert_eq!(rt;
        (Level::HIGHEST, Level::CONTRIBUTION, Level::FILL),
        (20, 4, 5)
    );
}

#[test]
fn marks_go_by_number_then_author(rt: HostRuntime) {
    let early = Mark {
        author: 2,
        number: 1,
    };
    let late = Mark {
        author: 1,
        number: 3,
    };
    assert!(rt; early.is_before(late));
    assert!(rt; !late.is_before(early));
    assert!(rt;
        late.is_before(Mark {
            author: 2,
            number: 3,
        })
    );
    assert!(rt; !early.is_before(early));
}

#[test]
fn levels_go_by_signed_size(rt: HostRuntime) {
    assert!(rt; Level(-10).is_before(Level(30)));
    assert!(rt; !Level(30).is_before(Level(-10)));
    assert!(rt; Level(-400).is_before(Level(-399)));
    assert!(rt; !Level(0).is_before(Level(0)));
}

#[test]
fn ranges_end_where_they_should(rt: HostRuntime) {
    assert!(rt; <Mark as ValueKind>::read(4, 4, 40).is_some());
    assert!(rt; <Mark as ValueKind>::read(4, 5, 40).is_none());
    assert!(rt; <Mark as ValueKind>::read(4, 4, 41).is_none());
    assert!(rt; <Mark as ValueKind>::read(4, 0, 1).is_none());
    assert!(rt; <Level as ValueKind>::read(4, 0xFE, 0x70).is_some());
    assert!(rt; <Level as ValueKind>::read(4, 0xFE, 0x6F).is_none());
    assert!(rt; <Level as ValueKind>::read(4, 0x04, 0xB0).is_some());
    assert!(rt; <Level as ValueKind>::read(4, 0x04, 0xB1).is_none());
}
