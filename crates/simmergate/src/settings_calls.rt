// The entry points for C on settings. A fetch writes the numbers of its answer to a lent slice; a store and a remove have no more to say than
// the number that they return.
ghost use Rattle.std.specs.Prelude.{◌≡◌};
ghost use Rattle.paper_settings.specs.Calls.{reply_numbers, old_numbers};
ghost use Rattle.settings.specs.Shown.{number_in, says, says_1};
ghost use Rattle.simmergate.specs.Calls.{StoreCall, FetchCall, OldFetchCall, RemoveCall};

use crate::write_numbers;
use settings::Shown;
use table::Refusal;

// The bytes of the answer of a fetch, four numbers.
const FETCH_BYTES: usize = 32;

// Those of one as the old release does it, three numbers.
const OLD_FETCH_BYTES: usize = 24;

// 0, or the number of what is refused.
fn number_in<T: Copy>(answer: Result<T, Refusal>) -> u32
    ensures { result ≡ number_in answer }
{
    match answer {
        Ok(_) => 0,
        Err(r) => r.number(),
    }
}

// The numbers of a fetch's answer.
fn numbers_of(answer: Result<Shown, Refusal>) -> [u64; FETCH_BYTES / number::SIZE]
    ensures { result ≡ reply_numbers (says answer) }
{
    match answer {
        Ok(s) => [0, 0, s.setting, s.unit as u64],
        Err(r) => [r.number() as u64, 0, 0, 0],
    }
}

// Those of one as the old release does it.
fn old_numbers_of(answer: Result<u64, Refusal>) -> [u64; OLD_FETCH_BYTES / number::SIZE]
    ensures { result ≡ old_numbers (says_1 answer) }
{
    match answer {
        Ok(setting) => [0, 0, setting],
        Err(r) => [r.number() as u64, 0, 0],
    }
}

// Stores a setting with its unit.
pub fn simmergate_settings_store(area: &mut [u8], key: u16, setting: u64, unit: u16) -> u32
    ensures { StoreCall area key setting unit result }
{
    number_in(settings::store(area, key, setting, unit))
}

// Shows the setting of a key. The answer: number, place (always 0), setting, unit.
pub fn simmergate_settings_fetch(area: &[u8], key: u16, answer: &mut [u8]) -> u32
    ensures { FetchCall area key answer result }
{
    if answer.len() < FETCH_BYTES {
        return Refusal::Room.number();
    }
    let shown = settings::fetch(area, key);
    write_numbers(answer, &numbers_of(shown));
    number_in(shown)
}

// Shows the setting of a key as the old release does. The answer: number, place (always 0), setting.
pub fn simmergate_settings_fetch_1(area: &[u8], key: u16, answer: &mut [u8]) -> u32
    ensures { OldFetchCall area key answer result }
{
    if answer.len() < OLD_FETCH_BYTES {
        return Refusal::Room.number();
    }
    let shown = settings::fetch_1(area, key);
    write_numbers(answer, &old_numbers_of(shown));
    number_in(shown)
}

// Removes the record of a key.
pub fn simmergate_settings_remove(area: &mut [u8], key: u16) -> u32
    ensures { RemoveCall area key result }
{
    number_in(settings::remove(area, key))
}
