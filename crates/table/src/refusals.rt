// What a call refuses, by name: its number in the paper, its place, and what is wrong with the record that it names.
ghost use Rattle.std.specs.Prelude.{◌≡◌};
ghost use Rattle.table.specs.Refusals.{number_of, place_of, flaw_in, which_of};

use record::Flaw;

// Why a call is refused, each reason with the paper's number for it.
#[derive(Clone, Copy, PartialEq, Eq)]
pub enum Refusal {
    // 1: the length of a table.
    Length,
    // 2: a record, and what is wrong with it.
    Record { place: usize, flaw: Flaw },
    // 3: the weight.
    Heavy,
    // 4: the records end before the tree, or the tree before the records.
    Shape { place: usize },
    // 5: an exponent that is no integer of at least 1.
    Exponent { place: usize },
    // 6: too little room is lent.
    Room,
    // 7: a number leaves the signed 64-bit range, after so many steps.
    Range { steps: usize },
    // 8: the lists of a site do not go together.
    Lists,
    // 9: there is no such edition.
    Edition,
    // 10: a setting has a newer version than the release knows.
    Newer,
    // 11: the area of the settings is out of order.
    Disorder,
    // 12: no setting has this key.
    Absent,
    // 13: there is no free slot for a setting.
    Full,
    // 14: the writer never writes this text.
    NoText,
    // 15: a definition is refused.
    Definition,
    // 16: over sixteen symbols are defined, or one of them twice.
    Defined,
    // 17: replacing symbols never ends.
    Endless,
    // 18: the opened tree is too heavy.
    TooHeavy,
    // 19: there is no such limit.
    Limit,
}

impl Refusal {
    // Its number in the paper. The lists of a site and those of definitions have one number there.
    pub fn number(self) -> u32
        ensures { result ≡ number_of self }
    {
        match self {
            Refusal::Length => 1,
            Refusal::Record { .. } => 2,
            Refusal::Heavy => 3,
            Refusal::Shape { .. } => 4,
            Refusal::Exponent { .. } => 5,
            Refusal::Room => 6,
            Refusal::Range { .. } => 7,
            Refusal::Lists => 8,
            Refusal::Edition => 9,
            Refusal::Newer => 10,
            Refusal::Disorder => 11,
            Refusal::Absent => 12,
            Refusal::Full => 13,
            Refusal::NoText => 14,
            Refusal::Definition => 15,
            Refusal::Defined => 16,
            Refusal::Endless => 17,
            Refusal::TooHeavy => 18,
            Refusal::Limit => 19,
        }
    }

    // The record that it names, or the steps before it; 0 where it has no place.
    pub fn place(self) -> usize
        ensures { result ≡ place_of self }
    {
        match self {
            Refusal::Record { place, .. }
            | Refusal::Shape { place }
            | Refusal::Exponent { place } => place,
            Refusal::Range { steps } => steps,
            _ => 0,
        }
    }

    // What is wrong with the record that it names.
    pub fn flaw(self) -> Option<Flaw>
        ensures { result ≡ flaw_in self }
    {
        match self {
            Refusal::Record { flaw, .. } => Some(flaw),
            _ => None,
        }
    }
}

// Which of two tables is refused.
#[derive(Clone, Copy, PartialEq, Eq)]
pub enum Which {
    Neither,
    First,
    Second,
}

impl Which {
    // As the number of an answer.
    pub fn number(self) -> u8
        ensures { result ≡ which_of self }
    {
        match self {
            Which::Neither => 0,
            Which::First => 1,
            Which::Second => 2,
        }
    }
}

// What a call on two tables refuses, and which of them.
#[derive(Clone, Copy, PartialEq, Eq)]
pub struct Refused {
    pub refusal: Refusal,
    pub which: Which,
}
