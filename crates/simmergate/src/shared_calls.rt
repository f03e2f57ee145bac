// The entry points for C on formulas that share sub-formulas. Each writes the numbers of its answer to a lent slice, and the opened table to
// the front of an area.
ghost use Rattle.std.specs.Prelude.{◌≡◌};
ghost use Rattle.paper_shared.specs.Calls.{open_numbers};
ghost use Rattle.shared.specs.Answer.{says};
ghost use Rattle.simmergate.specs.Calls.{OpenCall, SharedCall};

use crate::write_numbers;
use shared::Opened;
use table::Refusal;

// The bytes of the answer of an opening, six numbers.
const OPEN_BYTES: usize = 48;

const OPEN_NUMBERS: usize = 6;

// The refusal number of an opening, 0 where there is none.
fn open_number(opened: Result<Opened, Refusal>) -> u32
    ensures { result ≡ (says opened).number }
{
    match opened {
        Ok(_) => 0,
        Err(refusal) => refusal.number(),
    }
}

// The numbers of its answer.
fn numbers_of(opened: Result<Opened, Refusal>) -> [u64; OPEN_NUMBERS]
    ensures { result ≡ open_numbers (says opened) }
{
    match opened {
        Ok(o) => [0, 0, o.records as u64, o.weight as u64, 0, 0],
        Err(refusal) => {
            let wrong = record::flaw_numbers(refusal.flaw());
            let number = refusal.number();
            let place = refusal.place();
            [number as u64, place as u64, 0, 0, wrong.what, wrong.byte]
        }
    }
}

// Opens a formula. The answer: number, place, records and weight of the opened table, what is wrong with the record, which byte.
pub fn simmergate_open(
    limit: usize,
    table: &[u8],
    symbols: &[u8],
    lengths: &[u8],
    definitions: &[u8],
    opened: &mut [u8],
    answer: &mut [u8],
) -> u32
    ensures { OpenCall limit table symbols lengths definitions opened answer result }
{
    if answer.len() < OPEN_BYTES {
        return table::ROOM;
    }
    let o = shared::open(limit, table, symbols, lengths, definitions, opened);
    let number = open_number(o);
    write_numbers(answer, &numbers_of(o));
    number
}

// Opens a formula and simplifies the opened table, by the rules of an edition. The answer is as `simmergate_simplify`'s on the opened table.
pub fn simmergate_simplify_shared(
    limit: usize,
    edition: usize,
    table: &[u8],
    symbols: &[u8],
    lengths: &[u8],
    definitions: &[u8],
    opened: &mut [u8],
    out: &mut [u8],
    steps: &mut [u8],
    work: &mut [u8],
    answer: &mut [u8],
) -> u32
    ensures { SharedCall limit edition table symbols lengths definitions opened out steps work answer result }
{
    if answer.len() < crate::SIMPLIFY_BYTES {
        return table::ROOM;
    }
    let a = shared::simplify(
        limit,
        edition,
        table,
        symbols,
        lengths,
        definitions,
        opened,
        out,
        steps,
        work,
    );
    let number = a.number;
    let numbers = simplify::answer_numbers(a);
    write_numbers(answer, &numbers);
    number
}
