// What a capture's lines say, and how many of each sort there are.
ghost use Rattle.captures.specs.Reports.{bytes_outcome, bytes_words, line_outcome, line_words};
ghost use Rattle.std.specs.Prelude.{◌≡◌, IfOk, string_bytes};

use crate::hex::{HexFault, read_hex};
use crate::outcome::{Explained, Outcome};
use crate::words::InWords;
use frames::read::read;
use std::alloc::{AllocError, Global};
use values::fleet_size::FleetSize;
use values::level::Level;

// What the bytes of a line say.
fn explain_bytes(heap: Global, fleet: FleetSize, bytes: &[u8]) -> Result<Explained, AllocError>
    ensures outcome { IfOk result (λ e. e.outcome ≡ bytes_outcome fleet.machines bytes.now) }
    ensures text { IfOk result (λ e. string_bytes e.text ≡ bytes_words fleet.machines bytes.now) }
{
    match read::<Level>(fleet, bytes) {
        Ok(frame) => Ok(Explained {
            outcome: Outcome::Good,
            text: InWords(&frame).to_string(heap)?,
        }),
        Err(fault) => Ok(Explained {
            outcome: Outcome::Refused,
            text: InWords(&fault).to_string(heap)?,
        }),
    }
}

// What one line of a capture says; `number` is the number of the line.
pub fn explain(
    heap: Global,
    fleet: FleetSize,
    number: u64,
    line: &[u8],
) -> Result<Explained, AllocError>
    ensures outcome { IfOk result (λ e. e.outcome ≡ line_outcome fleet.machines line.now) }
    ensures text { IfOk result (λ e. string_bytes e.text ≡ line_words fleet.machines number line.now) }
{
    match read_hex(heap, line) {
        Ok(bytes) => explain_bytes(heap, fleet, bytes.as_slice()),
        // a match of its own: in one match over both the check does not see which column the words tell
        Err(fault) => match fault {
            HexFault::Column(column) => Ok(Explained {
                outcome: Outcome::Unreadable,
                text: format!(in heap; "line {number}: not hexadecimal at column {column}")?,
            }),
            HexFault::Memory(error) => Err(error),
        },
    }
}
