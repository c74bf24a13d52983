// The first line of a capture, which says how many machines the fleet has.
ghost use Rattle.captures.specs.First.{only, SaysSize, unblanked};
ghost use Rattle.std.specs.Prelude.{◌≡◌};

use crate::hex::is_blank;
use itertools::Itertools;
use values::fleet_size::FleetSize;

// The one character of a line that is no blank, or None where there is none or more than one.
fn only_character(line: &[u8]) -> Option<u8>
    ensures { result ≡ only (unblanked line.now) }
{
    line.iter()
        .copied()
        .filter(|c| !is_blank(*c))
        .exactly_one()
        .ok()
}

// The size that a line says: one digit from 1 to 9, with blanks around it or without.
pub fn fleet_size(line: &[u8]) -> Option<FleetSize>
    ensures { SaysSize (unblanked line.now) result }
{
    match only_character(line)? {
        // the pattern says which digits, so this is all that there is to convert
        digit @ b'1'..=b'9' => FleetSize::new(digit - b'0'),
        _ => None,
    }
}
