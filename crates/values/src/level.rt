// Levels, the values of questions such as an oil temperature.
ghost use Rattle.values.specs.Levels.{level_kind};
ghost use Rattle.std.proofs.Common.{rules};

use crate::kind::{QuestionKind, ValueKind};

// A level in tenths of a degree Celsius.
#[derive(Clone, Copy, Debug, PartialEq, Eq, PartialOrd, Ord)]
pub struct Level(pub i16);

impl Level {
    // The range of a level that a question can settle on: -40.0 to 120.0 degrees.
    pub const COLDEST: i16 = -400;

    pub const WARMEST: i16 = 1200;
}

impl ValueKind for Level {
    const HIGHEST: u16 = 20;

    const CONTRIBUTION: u8 = 4;

    const FILL: u8 = 5;

    ghost kind = { level_kind };

    ghost HIGHEST = { level_kind.highest };

    ghost CONTRIBUTION = { level_kind.contribution };

    ghost FILL = { level_kind.fill };

    ghost numbered = { Prim.search rules };

    ghost lawful = { Prim.search rules };

    fn is_before(self, other: Level) -> bool {
        self < other
    }

    fn write(self) -> [u8; 2] {
        self.0.to_be_bytes()
    }

    // Which levels there are does not depend on the size of the fleet.
    fn read(_n: u8, high: u8, low: u8) -> Option<Level> {
        let tenths = i16::from_be_bytes([high, low]);
        if (Level::COLDEST..=Level::WARMEST).contains(&tenths) {
            Some(Level(tenths))
        } else {
            None
        }
    }
}

impl QuestionKind for Level {
    ghost slot = { Prim.search rules };
}
