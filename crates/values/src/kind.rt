// The interface of a value kind: what a ballot, a matter on which a fleet settles one value, can be about.
// Everything above is generic over it, and knows of a kind only its meaning and the laws of that meaning.
ghost use Rattle.std.specs.Prelude.{◌≡◌, ℕ, [], ◌∷◌, if◌then◌else◌, Some, None};
ghost use Rattle.values.specs.Kinds.{Kind, Lawful, Numbered};

pub trait ValueKind: Copy {
    // The ballots of the kind are numbered from 1 to this.
    const HIGHEST: u16;

    // The first byte of a contribution to a ballot of the kind, and of a fill.
    const CONTRIBUTION: u8;

    const FILL: u8;

    ghost kind: { Kind Self };

    ghost HIGHEST: { ℕ };

    ghost CONTRIBUTION: { ℕ };

    ghost FILL: { ℕ };

    // Whether this value comes before another in the order of the kind, which need not be that of the type: so this is no bound on Ord.
    fn is_before(self, other: Self) -> bool
        ensures { result ≡ kind.before self other };

    // The two bytes of the value, the one sent first in front. Which two bytes read as a value depends on the fleet, so read is no TryFrom,
    // and a From for write would stand alone.
    fn write(self) -> [u8; 2]
        ensures { result ≡ kind.high self ∷ kind.low self ∷ [] };

    // The value that two bytes read as in a fleet of n machines, or None.
    fn read(n: u8, high: u8, low: u8) -> Option<Self>
        ensures { result ≡ (if kind.reads n high low then Some (kind.value high low) else None) };

    // The three constants are those of the kind.
    ghost numbered: { Numbered kind HIGHEST CONTRIBUTION FILL };

    ghost lawful: { Lawful kind };
}

// A kind that questions can have. Whichever it is, questions are numbered 1 to 20 and have frame kinds 4 and 5.
pub trait QuestionKind: ValueKind {
    ghost slot: { (Self.ValueKind.kind.highest ≡ 20) × (Self.ValueKind.kind.contribution ≡ 4) × (Self.ValueKind.kind.fill ≡ 5) };
}
