// The entry points for C on formulas as text.
ghost use Rattle.simmergate.specs.Calls.{ReadTextCall, WriteTextCall};

use crate::{answer_measured, write_numbers};
use table::Refusal;

// The bytes of the reader's answer, three numbers.
const READ_BYTES: usize = 24;

// Reads a text and writes its records to the table. The answer: number, place (always 0), records written.
pub fn simmergate_read_text(limit: usize, text: &[u8], table: &mut [u8], answer: &mut [u8]) -> u32
    ensures { ReadTextCall limit text table answer result }
{
    if answer.len() < READ_BYTES {
        return Refusal::Room.number();
    }
    match text::read(limit, text, table) {
        Ok(records) => {
            write_numbers(answer, &[0, 0, records as u64]);
            0
        }
        Err(refusal) => {
            let number = refusal.number();
            write_numbers(answer, &[number as u64, refusal.place() as u64, 0]);
            number
        }
    }
}

// Writes the text of a table. The answer: number, place, bytes written, what is wrong with the record, which byte.
pub fn simmergate_write_text(limit: usize, table: &[u8], text: &mut [u8], answer: &mut [u8]) -> u32
    ensures { WriteTextCall limit table text answer result }
{
    if answer.len() < crate::MEASURE_BYTES {
        return Refusal::Room.number();
    }
    let written = text::write(limit, table, text);
    answer_measured(answer, written)
}
