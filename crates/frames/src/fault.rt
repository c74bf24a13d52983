// Why bytes are no frame, and why a frame could not be written.
ghost use Rattle.frames.specs.Faults.{fault_number, fault_offset, short_number};
ghost use Rattle.std.specs.Prelude.{◌≡◌};

#[derive(Clone, Copy, Debug, PartialEq, Eq)]
pub enum FrameFault {
    // there is no byte, or the first is not a frame kind
    Kind,
    // the length is not that of the kind
    Length,
    // a field breaks its range or rule; the offset of the first such field, in bytes from 0
    Field(u8),
}

// The number of the refusal.
impl From<FrameFault> for u8 {
    ghost from_gives = { λ fault number. number ≡ fault_number fault };

    fn from(fault: FrameFault) -> u8 {
        match fault {
            FrameFault::Kind => 2,
            FrameFault::Length => 3,
            FrameFault::Field(_) => 4,
        }
    }
}

impl FrameFault {
    // The offset that it carries; 0 where it carries none. It is a number and no Option, since a refusal is told with 0 then.
    pub fn offset(self) -> u8
        ensures { result ≡ fault_offset self }
    {
        match self {
            FrameFault::Kind => 0,
            FrameFault::Length => 0,
            FrameFault::Field(offset) => offset,
        }
    }
}

// The buffer that a frame was to be written into is shorter than the frame.
#[derive(Clone, Copy, Debug, PartialEq, Eq)]
pub struct BufferTooShort;

// The number of the refusal.
impl From<BufferTooShort> for u8 {
    ghost from_gives = { λ fault number. number ≡ short_number fault };

    fn from(_fault: BufferTooShort) -> u8 {
        18
    }
}
