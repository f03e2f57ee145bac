// The entry points for C of the receiver. The link task's record is 16 bytes that the task keeps: its two numbers, eight bytes each, so that
// 16 zero bytes are an empty receiver. The call that takes a piece has no more to say than the number that it returns; the finish writes the
// checker's numbers to a lent slice.
ghost use Rattle.std.specs.Prelude.{◌≡◌, ◌++◌, ◌≤◌, length, drop};
ghost use Rattle.paper.specs.Calls.{eights};
ghost use Rattle.paper_receiver.specs.Calls.{receiver_in, receiver_numbers};
ghost use Rattle.receiver.specs.Receiving.{says};
ghost use Rattle.simmergate.specs.Calls.{ReceiveCall, FinishCall};

use crate::{answer_judged, write_numbers};
use receiver::Receiver;
use table::Refusal;

// The bytes of the link task's record.
const RECORD_BYTES: usize = 16;

// Where its second number begins.
const PAST_AT: usize = 8;

// Reads the record from its bytes.
fn read_receiver(state: &[u8]) -> Receiver
    requires { 16 ≤ length state.now }
    ensures { says result ≡ receiver_in state.now }
{
    let count = number::read8(state, 0) as usize;
    let past = number::read8(state, PAST_AT) as usize;
    Receiver { count, past }
}

// Writes the record to its bytes; those past them stay.
fn write_receiver(state: &mut [u8], r: Receiver)
    requires { 16 ≤ length state.old }
    ensures { state.new ≡ eights (receiver_numbers (says r)) ++ drop 16 state.old }
{
    let numbers = [r.count as u64, r.past as u64];
    write_numbers(state, &numbers);
}

// Takes a piece of a table.
pub fn simmergate_receive(limit: usize, state: &mut [u8], area: &mut [u8], piece: &[u8]) -> u32
    ensures { ReceiveCall limit state area piece result }
{
    if state.len() < RECORD_BYTES {
        return Refusal::Room.number();
    }
    let t = receiver::after_piece(limit, read_receiver(state), area, piece);
    write_receiver(state, t.state);
    match t.taken {
        Ok(()) => 0,
        Err(refusal) => refusal.number(),
    }
}

// Finishes a table. The answer: number, place, what is wrong with the record, which byte.
pub fn simmergate_receive_finish(
    limit: usize,
    state: &mut [u8],
    area: &[u8],
    answer: &mut [u8],
) -> u32
    ensures { FinishCall limit state area answer result }
{
    if state.len() < RECORD_BYTES {
        return Refusal::Room.number();
    }
    if answer.len() < crate::CHECK_BYTES {
        return Refusal::Room.number();
    }
    let f = receiver::at_finish(limit, read_receiver(state), area);
    write_receiver(state, f.state);
    answer_judged(answer, f.judged)
}
