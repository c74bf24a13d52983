// The records that frames carry, and the enum over all frames.
use values::mark::Mark;

// The forerunners of a change, as a vector clock: at index j - 1 the count of machine j's pair, or 0 where no pair names j.
// A pair of machine j and count c says that the changes 1 to c of j come before this one.
#[derive(Clone, Copy, Debug, PartialEq, Eq)]
pub struct Forerunners {
    pub counts: [u8; 9],
}

// A change of a setting, as its author posted it. Author and number together are its mark.
#[derive(Clone, Copy, Debug, PartialEq, Eq)]
pub struct Change {
    pub author: u8,
    pub number: u8,
    pub setting: u16,
    pub level: i16,
    pub forerunners: Forerunners,
}

impl Change {
    // The first byte of a change.
    pub const KIND: u8 = 1;

    // The highest setting.
    pub const LAST_SETTING: u16 = 999;
}

// What a sender says in one round of a ballot: a place or a question, by the kind of its value.
#[derive(Clone, Copy, Debug, PartialEq, Eq)]
pub struct Contribution<V> {
    pub sender: u8,
    pub ballot: u16,
    pub round: u16,
    pub value: V,
}

// What a sender has filled a ballot with.
#[derive(Clone, Copy, Debug, PartialEq, Eq)]
pub struct Fill<V> {
    pub sender: u8,
    pub ballot: u16,
    pub value: V,
}

// Every frame. A ballot is a place, a numbered position in the shared book whose value is a mark, or a question, a numbered
// matter such as an oil temperature whose value is of the kind Q.
#[derive(Clone, Copy, Debug, PartialEq, Eq)]
pub enum Frame<Q> {
    Change(Change),
    PlaceContribution(Contribution<Mark>),
    PlaceFill(Fill<Mark>),
    QuestionContribution(Contribution<Q>),
    QuestionFill(Fill<Q>),
}
