// What a radio received, to be read as a frame of a fleet.
ghost use Rattle.std.specs.Prelude.{◌≡◌, if◌then◌else◌, Ok, Err};
ghost use Rattle.frames.specs.declared.fault.FrameFault.TheVariants.{Field};

use crate::fault::FrameFault;
use values::fleet_size::FleetSize;

#[derive(Clone, Copy)]
pub(crate) struct Received<'a> {
    pub(crate) fleet: FleetSize,
    pub(crate) bytes: &'a [u8],
}

// A field refuses where what stands there breaks the range or rule of the field.
pub(crate) fn check_field(at: u8, holds: bool) -> Result<(), FrameFault>
    ensures { result ≡ (if holds then Ok tt else Err (Field at)) }
{
    if holds {
        Ok(())
    } else {
        Err(FrameFault::Field(at))
    }
}
