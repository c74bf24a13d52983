// Reading a change.
ghost use Rattle.std.specs.Prelude.{◌≡◌, ◌+◌, ◌*◌, ◌≤◌, ◌==◌, ◌&&◌, [], ◌∷◌, ◌++◌, length, nat_le};
ghost use Rattle.frames.specs.Changes.{change_layout};
ghost use Rattle.frames.specs.Clocks.{clock_of, count_fields, machine_fields};
ghost use Rattle.frames.specs.Fields.{answered, checked, field, first_bad, unless_bad, within};

use crate::fault::FrameFault;
use crate::frame::{Change, Forerunners};
use crate::received::{Received, check_field};
use values::fleet_size::FleetSize;
use values::mark::Mark;

// Every machine but the author can have a pair.
const MOST_PAIRS: u8 = FleetSize::MOST - 1;

// Whether two bytes for each pair stand behind the first eight, and there are at most eight pairs.
fn has_pairs(pairs: u8, rest: &[u8]) -> bool
    ensures { result ≡ (nat_le pairs 8 && length rest.now == 2 * pairs) }
{
    pairs <= MOST_PAIRS && rest.len() == 2 * usize::from(pairs)
}

// The three fields before the pairs that have a range.
fn check_fixed(fleet: FleetSize, author: u8, number: u8, setting: u16) -> Result<(), FrameFault>
    ensures { result
        ≡ checked
        (field 2 1 (within 1 fleet.machines author)
        ∷ field 3 1 (within 1 40 number)
        ∷ field 4 2 (within 0 999 setting)
        ∷ []) }
{
    check_field(2, (1..=fleet.machines).contains(&author))?;
    check_field(3, (1..=Mark::MOST_CHANGES).contains(&number))?;
    check_field(4, setting <= Change::LAST_SETTING)
}

// Machine numbers rise within the fleet, and none is the author's. The first of them stands at offset 8. Fleet and author stay two
// parameters: a struct of both would promise nothing, and be made for this only.
fn check_machines(fleet: FleetSize, author: u8, machines: &[u8]) -> Result<(), FrameFault>
    requires { length machines.now ≤ 8 }
    ensures { result ≡ checked (machine_fields fleet.machines author 8 0 machines.now) }
{
    let mut previous = 0;
    for (i, &machine) in machines.iter().enumerate() {
        let holds = previous < machine && machine <= fleet.machines && machine != author;
        check_field(8 + i as u8, holds)?;
        previous = machine;
    }
    Ok(())
}

// The first of the counts stands at `first`.
fn check_counts(first: u8, counts: &[u8]) -> Result<(), FrameFault>
    requires { first + length counts.now ≤ 24 }
    ensures { result ≡ checked (count_fields first counts.now) }
{
    for (i, count) in counts.iter().enumerate() {
        check_field(first + i as u8, (1..=Mark::MOST_CHANGES).contains(count))?;
    }
    Ok(())
}

// The clock of these pairs, once their machine numbers and then their counts keep their rules. In a frame all machine numbers stand in
// front of all counts, so they come as two slices.
#[tactic(auto, using(crate::proofs::Tables::checked_append))]
fn forerunners(
    fleet: FleetSize,
    author: u8,
    machines: &[u8],
    counts: &[u8],
) -> Result<Forerunners, FrameFault>
    requires few { length machines.now ≤ 8 }
    requires same { length machines.now ≡ length counts.now }
    ensures { result
        ≡ unless_bad
        (first_bad (machine_fields fleet.machines author 8 0 machines.now ++ count_fields (8 + length machines.now) counts.now))
        (record { counts = clock_of 9 1 machines.now counts.now }) }
{
    check_machines(fleet, author, machines)?;
    check_counts(8 + machines.len() as u8, counts)?;
    let mut clock = [0; 9];
    for (&machine, &count) in machines.iter().zip(counts) {
        clock[usize::from(machine) - 1] = count;
    }
    Ok(Forerunners { counts: clock })
}

impl Received<'_> {
    // A change, whatever the first byte is. Behind its first eight bytes come two more for each pair.
    pub(crate) fn change(self) -> Result<Change, FrameFault>
        ensures { result ≡ answered (change_layout self.entry.fleet.machines self.entry.bytes.now) }
    {
        let Received { fleet, bytes } = self;
        let [
            _,
            pairs,
            author,
            number,
            setting_high,
            setting_low,
            level_high,
            level_low,
            ref rest @ ..,
        ] = *bytes
        else {
            return Err(FrameFault::Length);
        };
        if !has_pairs(pairs, rest) {
            return Err(FrameFault::Length);
        }
        let setting = u16::from_be_bytes([setting_high, setting_low]);
        check_fixed(fleet, author, number, setting)?;
        let (machines, counts) = rest.split_at(usize::from(pairs));
        let forerunners = forerunners(fleet, author, machines, counts)?;
        Ok(Change {
            author,
            number,
            setting,
            level: i16::from_be_bytes([level_high, level_low]),
            forerunners,
        })
    }
}
