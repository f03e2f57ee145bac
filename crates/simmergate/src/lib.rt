// The entry points for C. Each call but the one that says which release this is returns the refusal number and writes the numbers of its answer
// to a lent slice; those that take tables take the limit first. What each one promises stands in specs/Calls.
#![tactic(auto)]

mod differ_calls;
mod receiver_calls;
mod release_call;
mod settings_calls;
mod shared_calls;
mod site_calls;
mod text_calls;

ghost use Rattle.std.specs.Prelude.{◌≡◌, ◌≤◌, ◌++◌, length, drop};
ghost use Rattle.paper.specs.Equal.{one};
ghost use Rattle.paper.specs.Calls.{eights, verdict_numbers, compared_numbers, measured_numbers};
ghost use Rattle.equal.specs.Compared.{says as compared_as};
ghost use Rattle.table.specs.Refusals.{says, stands_for};
ghost use Rattle.simmergate.specs.Calls.{CheckCall, WeightCall, ValueCall, EqualCall, SimplifyCall};

pub use differ_calls::simmergate_differ;
use number::write_numbers;
pub use receiver_calls::{simmergate_receive, simmergate_receive_finish};
pub use release_call::simmergate_release;
pub use settings_calls::{
    simmergate_settings_fetch, simmergate_settings_fetch_1, simmergate_settings_remove,
    simmergate_settings_store,
};
pub use shared_calls::{simmergate_open, simmergate_simplify_shared};
pub use site_calls::simmergate_batch;
use table::{Refusal, Refused};
pub use text_calls::{simmergate_read_text, simmergate_write_text};

// The bytes of the checker's answer, four numbers of eight bytes each.
const CHECK_BYTES: usize = 32;

// Those of a weight's and a value's, five numbers.
const MEASURE_BYTES: usize = 40;

// Those of a comparison's, six numbers.
const EQUAL_BYTES: usize = 48;

const EQUAL_NUMBERS: usize = 6;

// Those of the simplifier's, ten numbers.
const SIMPLIFY_BYTES: usize = 80;

// Yes is 1, no is 0.
fn number_of(yes: bool) -> u64
    ensures { result ≡ one yes }
{
    if yes { 1 } else { 0 }
}

// Writes the answer of a call that measures: number, place, the measure, what is wrong with the record, which byte. The return is the number.
fn answer_measured(answer: &mut [u8], measured: Result<usize, Refusal>) -> u32
    requires { 40 ≤ length answer.old }
    ensures { (result ≡ (says measured).number) × (answer.new ≡ eights (measured_numbers (says measured)) ++ drop 40 answer.old) }
{
    match measured {
        Ok(measure) => {
            write_numbers(answer, &[0, 0, measure as u64, 0, 0]);
            0
        }
        Err(refusal) => {
            let number = refusal.number();
            let wrong = record::flaw_numbers(refusal.flaw());
            let place = refusal.place() as u64;
            write_numbers(answer, &[number as u64, place, 0, wrong.what, wrong.byte]);
            number
        }
    }
}

// Writes the answer of a call that judges: number, place, what is wrong with the record, which byte. The return is the number.
fn answer_judged(answer: &mut [u8], judged: Result<(), Refusal>) -> u32
    requires { 32 ≤ length answer.old }
    ensures { (result ≡ (stands_for judged).number) × (answer.new ≡ eights (verdict_numbers (stands_for judged)) ++ drop 32 answer.old) }
{
    match judged {
        Ok(()) => {
            write_numbers(answer, &[0, 0, 0, 0]);
            0
        }
        Err(refusal) => {
            let number = refusal.number();
            let wrong = record::flaw_numbers(refusal.flaw());
            let place = refusal.place() as u64;
            write_numbers(answer, &[number as u64, place, wrong.what, wrong.byte]);
            number
        }
    }
}

// Judges a table. The answer: number, place, what is wrong with the record, which byte.
pub fn simmergate_check(limit: usize, table: &[u8], answer: &mut [u8]) -> u32
    ensures { CheckCall limit table answer result }
{
    if answer.len() < CHECK_BYTES {
        return Refusal::Room.number();
    }
    answer_judged(answer, table::check(limit, table))
}

// Weighs a table. The answer: number, place, weight, what is wrong with the record, which byte.
pub fn simmergate_weight(limit: usize, table: &[u8], answer: &mut [u8]) -> u32
    ensures { WeightCall limit table answer result }
{
    if answer.len() < MEASURE_BYTES {
        return Refusal::Room.number();
    }
    answer_measured(answer, table::weight(limit, table))
}

// Evaluates a table under registers. The answer: number, place, value, what is wrong with the record, which byte.
pub fn simmergate_value(limit: usize, table: &[u8], registers: &[u8], answer: &mut [u8]) -> u32
    ensures { ValueCall limit table registers answer result }
{
    if answer.len() < MEASURE_BYTES {
        return Refusal::Room.number();
    }
    let value = match value::value(limit, table, registers) {
        Ok(v) => Ok(v as usize),
        Err(refusal) => Err(refusal),
    };
    answer_measured(answer, value)
}

// The refusal number of a comparison, 0 where it says yes or no.
fn equal_number(compared: Result<bool, Refused>) -> u32
    ensures { result ≡ (compared_as compared).number }
{
    match compared {
        Ok(_) => 0,
        Err(refused) => refused.refusal.number(),
    }
}

// The numbers of a comparison's answer.
fn equal_numbers(compared: Result<bool, Refused>) -> [u64; EQUAL_NUMBERS]
    ensures { result ≡ compared_numbers (compared_as compared) }
{
    match compared {
        Ok(yes) => [0, 0, 0, number_of(yes), 0, 0],
        Err(refused) => {
            let refusal = refused.refusal;
            let wrong = record::flaw_numbers(refusal.flaw());
            [
                refusal.number() as u64,
                refusal.place() as u64,
                refused.which.number() as u64,
                0,
                wrong.what,
                wrong.byte,
            ]
        }
    }
}

// Compares the trees of two tables. The answer: number, place, which table is refused, yes (1) or no (0), what is wrong with the record,
// which byte.
pub fn simmergate_equal(limit: usize, a: &[u8], b: &[u8], answer: &mut [u8]) -> u32
    ensures { EqualCall limit a b answer result }
{
    if answer.len() < EQUAL_BYTES {
        return table::ROOM;
    }
    let compared = equal::equal(limit, a, b);
    let number = equal_number(compared);
    write_numbers(answer, &equal_numbers(compared));
    number
}

// Simplifies a table in lent memory, by the rules of an edition. The answer: number, place, records written, steps, openings, weight in,
// weight out, what is wrong with the record, which byte, tries.
pub fn simmergate_simplify(
    limit: usize,
    edition: usize,
    table: &[u8],
    out: &mut [u8],
    steps: &mut [u8],
    work: &mut [u8],
    answer: &mut [u8],
) -> u32
    ensures { SimplifyCall limit edition table out steps work answer result }
{
    if answer.len() < SIMPLIFY_BYTES {
        return table::ROOM;
    }
    let a = simplify::simplify(limit, edition, table, out, steps, work);
    let number = a.number;
    let numbers = simplify::answer_numbers(a);
    write_numbers(answer, &numbers);
    number
}
