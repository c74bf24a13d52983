// Reading a frame: bytes to a record, or the first refusal that fits.
ghost use Rattle.std.specs.Prelude.{◌≡◌, [], ◌∷◌};
ghost use Rattle.frames.specs.Fields.{answered, field, first_bad, unless_bad, within, word};
ghost use Rattle.frames.specs.Frames.{reading};
ghost use Rattle.frames.specs.Spelled.{RefusedFirst, Spelled};
ghost use Rattle.frames.specs.Votes.{contribution_layout, fill_layout};

use crate::fault::FrameFault;
use crate::frame::{Change, Contribution, Fill, Frame};
use crate::received::{Received, check_field};
use values::fleet_size::FleetSize;
use values::kind::{QuestionKind, ValueKind};
use values::mark::Mark;

// The highest round of a ballot.
pub const LAST_ROUND: u16 = 60000;

// Behind the kind byte a contribution and a fill have the same two fields: the sender, and the number of the ballot.
fn read_ballot<V: ValueKind>(
    fleet: FleetSize,
    sender: u8,
    ballot: [u8; 2],
) -> Result<u16, FrameFault>
    ensures { result
        ≡ unless_bad
        (first_bad
        (field 1 1 (within 1 fleet.machines sender)
        ∷ field 2 2 (within 1 V.ValueKind.kind.highest (word ballot 0))
        ∷ []))
        (word ballot 0) }
{
    let ballot = u16::from_be_bytes(ballot);
    check_field(1, (1..=fleet.machines).contains(&sender))?;
    check_field(2, (1..=V::HIGHEST).contains(&ballot))?;
    Ok(ballot)
}

impl Received<'_> {
    // A contribution to a ballot of the kind V, whatever the first byte is.
    fn contribution<V: ValueKind>(self) -> Result<Contribution<V>, FrameFault>
        ensures { result
            ≡ answered (contribution_layout V.ValueKind.kind self.entry.fleet.machines self.entry.bytes.now) }
    {
        let [
            _,
            sender,
            ballot_high,
            ballot_low,
            round_high,
            round_low,
            high,
            low,
        ] = *self.bytes
        else {
            return Err(FrameFault::Length);
        };
        let ballot = read_ballot::<V>(self.fleet, sender, [ballot_high, ballot_low])?;
        let round = u16::from_be_bytes([round_high, round_low]);
        check_field(4, (1..=LAST_ROUND).contains(&round))?;
        let value = V::read(self.fleet.machines, high, low).ok_or(FrameFault::Field(6))?;
        Ok(Contribution {
            sender,
            ballot,
            round,
            value,
        })
    }

    // A fill of a ballot of the kind V, whatever the first byte is. It has no round, so it is read apart from a contribution: one function
    // for both would have to ask at each step which it is.
    fn fill<V: ValueKind>(self) -> Result<Fill<V>, FrameFault>
        ensures { result ≡ answered (fill_layout V.ValueKind.kind self.entry.fleet.machines self.entry.bytes.now) }
    {
        let [_, sender, ballot_high, ballot_low, high, low] = *self.bytes else {
            return Err(FrameFault::Length);
        };
        let ballot = read_ballot::<V>(self.fleet, sender, [ballot_high, ballot_low])?;
        let value = V::read(self.fleet.machines, high, low).ok_or(FrameFault::Field(4))?;
        Ok(Fill {
            sender,
            ballot,
            value,
        })
    }

    // The first byte decides the kind. It stays a byte: each value kind states its own two, and an enum would state them again.
    fn frame<Q: QuestionKind>(self) -> Result<Frame<Q>, FrameFault>
        ensures { result ≡ reading Q.ValueKind.kind self.entry.fleet.machines self.entry.bytes.now }
    {
        match *self.bytes.first().ok_or(FrameFault::Kind)? {
            Change::KIND => Ok(Frame::Change(self.change()?)),
            Mark::CONTRIBUTION => Ok(Frame::PlaceContribution(self.contribution()?)),
            Mark::FILL => Ok(Frame::PlaceFill(self.fill()?)),
            kind if kind == Q::CONTRIBUTION => Ok(Frame::QuestionContribution(
                self.contribution()?,
            )),
            kind if kind == Q::FILL => Ok(Frame::QuestionFill(self.fill()?)),
            _ => Err(FrameFault::Kind),
        }
    }
}

// Any frame, with Q as the kind of a question's value. It answers a frame exactly if the bytes are the spelling of one
// that there can be in this fleet, and else the first refusal that fits.
pub fn read<Q: QuestionKind>(fleet: FleetSize, bytes: &[u8]) -> Result<Frame<Q>, FrameFault>
    ensures answer { result ≡ reading Q.ValueKind.kind fleet.machines bytes.now }
    ensures spelled { Spelled Q.ValueKind.kind fleet.machines bytes.now result }
    ensures refused { RefusedFirst Q.ValueKind.kind fleet.machines bytes.now result }
{
    Received { fleet, bytes }.frame()
}
