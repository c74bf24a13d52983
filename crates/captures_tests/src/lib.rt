// Examples of captures: first lines that say a size of a fleet, and ones that do not. What the lines after the first say is
// checked on tables, by the programs inspect and frame_vectors.
#![tactic(auto)]

#[cfg(test)]
mod first_lines {
    use captures::first_line::fleet_size;

    fn machines(line: &str) -> Option<u8> {
        fleet_size(line.as_bytes()).map(|size| size.machines)
    }

    #[test]
    fn one_digit_from_1_to_9(rt: HostRuntime) {
        assert_eq!(rt; machines("1"), Some(1));
        assert_eq!(rt; machines("5"), Some(5));
        assert_eq!(rt; machines("9"), Some(9));
    }

    #[test]
    fn blanks_may_stand_around_it(rt: HostRuntime) {
        assert_eq!(rt; machines("  4"), Some(4));
        assert_eq!(rt; machines("4 \t\r"), Some(4));
        assert_eq!(rt; machines("\t7 "), Some(7));
    }

    #[test]
    fn anything_else_says_no_size(rt: HostRuntime) {
        assert_eq!(rt; machines(""), None);
        assert_eq!(rt; machines("  "), None);
        assert_eq!(rt; machines("0"), None);
        assert_eq!(rt; machines("10"), None);
        assert_eq!(rt; machines("04"), None);
        assert_eq!(rt; machines("+4"), None);
        assert_eq!(rt; machines("4 4"), None);
        assert_eq!(rt; machines("a"), None);
        assert_eq!(rt; machines(":"), None);
        assert_eq!(rt; machines("05 01 00 03 FE 70"), None);
    }
}
