// The entry point for C on what differs between two tables.
ghost use Rattle.std.specs.Prelude.{◌≡◌};
ghost use Rattle.paper_differ.specs.Calls.{differed_numbers};
ghost use Rattle.differ.specs.Differed.{says};
ghost use Rattle.simmergate.specs.Calls.{DifferCall};

use crate::write_numbers;
use table::{Refusal, Refused};

// The bytes of the answer's six numbers.
const DIFFER_BYTES: usize = 48;

const DIFFER_NUMBERS: usize = 6;

// The refusal number of what `differ` answers, 0 where there are pairs or none.
fn differ_number(differed: Result<usize, Refused>) -> u32
    ensures { result ≡ (says differed).number }
{
    match differed {
        Ok(_) => 0,
        Err(refused) => refused.refusal.number(),
    }
}

// The numbers of its answer.
fn differ_numbers(differed: Result<usize, Refused>) -> [u64; DIFFER_NUMBERS]
    ensures { result ≡ differed_numbers (says differed) }
{
    match differed {
        Ok(pairs) => [0, 0, 0, pairs as u64, 0, 0],
        Err(refused) => {
            let refusal = refused.refusal;
            let wrong = record::flaw_numbers(refusal.flaw());
            [
                refusal.number() as u64,
                refusal.place() as u64,
                refused.which.number() as u64,
                0,
                wrong.what,
                wrong.byte,
            ]
        }
    }
}

// Lists what differs between the trees of two tables, as pairs of record numbers, eight bytes each. The answer: number, place, which table is
// refused, pairs, what is wrong with the record, which byte.
pub fn simmergate_differ(
    limit: usize,
    a: &[u8],
    b: &[u8],
    list: &mut [u8],
    answer: &mut [u8],
) -> u32
    ensures { DifferCall limit a b list answer result }
{
    if answer.len() < DIFFER_BYTES {
        return Refusal::Room.number();
    }
    let differed = differ::differ(limit, a, b, list);
    let number = differ_number(differed);
    write_numbers(answer, &differ_numbers(differed));
    number
}
