// The kinds of records.
ghost use Rattle.std.specs.Prelude.{◌≡◌, ◌+◌, ◌*◌, ◌<◌, ◌≤◌, length, min};
ghost use Rattle.paper.specs.Record.{kind};
ghost use Rattle.record.specs.Kinds.{number_of, Decodes};

use crate::{Flaw, INTEGER, POWER, PRODUCT, SUM, SYMBOL};

// What a record stands for. Its first byte says it by a number.
#[derive(Clone, Copy, PartialEq, Eq)]
pub enum Kind {
    Integer,
    Symbol,
    Sum,
    Product,
    Power,
}

impl Kind {
    // The kind of record i of a tree. A first byte that names no kind is taken for the last one's.
    pub fn at(s: &[u8], i: usize) -> Kind
        requires { i * 16 + 16 ≤ length s.now }
        ensures all { number_of result ≡ min (kind s.now i) 4 }
        ensures named { kind s.now i < 5 → number_of result ≡ kind s.now i }
    {
        match crate::kind(s, i) {
            INTEGER => Kind::Integer,
            SYMBOL => Kind::Symbol,
            SUM => Kind::Sum,
            PRODUCT => Kind::Product,
            _ => Kind::Power,
        }
    }

    // The number of the kind, as a record's first byte has it.
    pub fn number(self) -> u8
        ensures { result ≡ number_of self }
    {
        match self {
            Kind::Integer => INTEGER,
            Kind::Symbol => SYMBOL,
            Kind::Sum => SUM,
            Kind::Product => PRODUCT,
            Kind::Power => POWER,
        }
    }
}

impl TryFrom<u8> for Kind {
    type Error = Flaw;

    ghost try_from_gives = { Decodes };

    // The kind that a record's first byte names, if it names one.
    fn try_from(byte: u8) -> Result<Kind, Flaw> {
        match byte {
            INTEGER => Ok(Kind::Integer),
            SYMBOL => Ok(Kind::Symbol),
            SUM => Ok(Kind::Sum),
            PRODUCT => Ok(Kind::Product),
            POWER => Ok(Kind::Power),
            _ => Err(Flaw::Kind),
        }
    }
}
