// The calls as C sees them: `libsimmergate.a` exports these names. Each runs the call of the same name of crate `simmergate`, and promises the same.
#![tactic(auto)]

ghost use Rattle.std.specs.Prelude.{◌≡◌};
ghost use Rattle.simmergate.specs.Calls.{CheckCall, WeightCall, ValueCall, EqualCall, SimplifyCall, BatchCall, DifferCall};
ghost use Rattle.simmergate.specs.Calls.{ReadTextCall, WriteTextCall, ReceiveCall, FinishCall, StoreCall, FetchCall, OldFetchCall, RemoveCall};
ghost use Rattle.simmergate.specs.Calls.{OpenCall, SharedCall};
ghost use Rattle.simmergate.specs.Release.{release};

// Judges a table. The answer: number, place, what is wrong with the record, which byte.
#[unsafe(no_mangle)]
pub extern "C" fn simmergate_check(limit: usize, table: &[u8], answer: &mut [u8]) -> u32
    ensures { CheckCall limit table answer result }
{
    simmergate::simmergate_check(limit, table, answer)
}

// Weighs a table. The answer: number, place, weight, what is wrong with the record, which byte.
#[unsafe(no_mangle)]
pub extern "C" fn simmergate_weight(limit: usize, table: &[u8], answer: &mut [u8]) -> u32
    ensures { WeightCall limit table answer result }
{
    simmergate::simmergate_weight(limit, table, answer)
}

// Evaluates a table under registers. The answer: number, place, value, what is wrong with the record, which byte.
#[unsafe(no_mangle)]
pub extern "C" fn simmergate_value(
    limit: usize,
    table: &[u8],
    registers: &[u8],
    answer: &mut [u8],
) -> u32
    ensures { ValueCall limit table registers answer result }
{
    simmergate::simmergate_value(limit, table, registers, answer)
}

// Compares the trees of two tables. The answer: number, place, which table is refused, yes (1) or no (0), what is wrong with the record,
// which byte.
#[unsafe(no_mangle)]
pub extern "C" fn simmergate_equal(limit: usize, a: &[u8], b: &[u8], answer: &mut [u8]) -> u32
    ensures { EqualCall limit a b answer result }
{
    simmergate::simmergate_equal(limit, a, b, answer)
}

// Simplifies a table in lent memory, by the rules of an edition. The answer: number, place, records written, steps, openings, weight in,
// weight out, what is wrong with the record, which byte, tries.
#[unsafe(no_mangle)]
pub extern "C" fn simmergate_simplify(
    limit: usize,
    edition: usize,
    table: &[u8],
    out: &mut [u8],
    steps: &mut [u8],
    work: &mut [u8],
    answer: &mut [u8],
) -> u32
    ensures { SimplifyCall limit edition table out steps work answer result }
{
    simmergate::simmergate_simplify(limit, edition, table, out, steps, work, answer)
}

// Simplifies the tables of a site, end to end with a list of their lengths, one after the other in what remains of the areas.
#[unsafe(no_mangle)]
pub extern "C" fn simmergate_batch(
    limit: usize,
    edition: usize,
    tables: &[u8],
    lengths: &[u8],
    out: &mut [u8],
    steps: &mut [u8],
    work: &mut [u8],
    answers: &mut [u8],
) -> u32
    ensures { BatchCall limit edition tables lengths out steps work answers result }
{
    simmergate::simmergate_batch(limit, edition, tables, lengths, out, steps, work, answers)
}

// Lists what differs between the trees of two tables, as pairs of record numbers, eight bytes each. The answer: number, place, which table is
// refused, pairs, what is wrong with the record, which byte.
#[unsafe(no_mangle)]
pub extern "C" fn simmergate_differ(
    limit: usize,
    a: &[u8],
    b: &[u8],
    list: &mut [u8],
    answer: &mut [u8],
) -> u32
    ensures { DifferCall limit a b list answer result }
{
    simmergate::simmergate_differ(limit, a, b, list, answer)
}

// Reads a text and writes its records to the table. The answer: number, place (always 0), records written.
#[unsafe(no_mangle)]
pub extern "C" fn simmergate_read_text(
    limit: usize,
    text: &[u8],
    table: &mut [u8],
    answer: &mut [u8],
) -> u32
    ensures { ReadTextCall limit text table answer result }
{
    simmergate::simmergate_read_text(limit, text, table, answer)
}

// Writes the text of a table. The answer: number, place, bytes written, what is wrong with the record, which byte.
#[unsafe(no_mangle)]
pub extern "C" fn simmergate_write_text(
    limit: usize,
    table: &[u8],
    text: &mut [u8],
    answer: &mut [u8],
) -> u32
    ensures { WriteTextCall limit table text answer result }
{
    simmergate::simmergate_write_text(limit, table, text, answer)
}

// Takes a piece of a table.
#[unsafe(no_mangle)]
pub extern "C" fn simmergate_receive(
    limit: usize,
    state: &mut [u8],
    area: &mut [u8],
    piece: &[u8],
) -> u32
    ensures { ReceiveCall limit state area piece result }
{
    simmergate::simmergate_receive(limit, state, area, piece)
}

// Finishes a table. The answer: number, place, what is wrong with the record, which byte.
#[unsafe(no_mangle)]
pub extern "C" fn simmergate_receive_finish(
    limit: usize,
    state: &mut [u8],
    area: &[u8],
    answer: &mut [u8],
) -> u32
    ensures { FinishCall limit state area answer result }
{
    simmergate::simmergate_receive_finish(limit, state, area, answer)
}

// Stores a setting with its unit.
#[unsafe(no_mangle)]
pub extern "C" fn simmergate_settings_store(
    area: &mut [u8],
    key: u16,
    setting: u64,
    unit: u16,
) -> u32
    ensures { StoreCall area key setting unit result }
{
    simmergate::simmergate_settings_store(area, key, setting, unit)
}

// Shows the setting of a key. The answer: number, place (always 0), setting, unit.
#[unsafe(no_mangle)]
pub extern "C" fn simmergate_settings_fetch(area: &[u8], key: u16, answer: &mut [u8]) -> u32
    ensures { FetchCall area key answer result }
{
    simmergate::simmergate_settings_fetch(area, key, answer)
}

// Shows the setting of a key as the old release does. The answer: number, place (always 0), setting.
#[unsafe(no_mangle)]
pub extern "C" fn simmergate_settings_fetch_1(area: &[u8], key: u16, answer: &mut [u8]) -> u32
    ensures { OldFetchCall area key answer result }
{
    simmergate::simmergate_settings_fetch_1(area, key, answer)
}

// Removes the record of a key.
#[unsafe(no_mangle)]
pub extern "C" fn simmergate_settings_remove(area: &mut [u8], key: u16) -> u32
    ensures { RemoveCall area key result }
{
    simmergate::simmergate_settings_remove(area, key)
}

// Opens a formula. The answer: number, place, records and weight of the opened table, what is wrong with the record, which byte.
#[unsafe(no_mangle)]
pub extern "C" fn simmergate_open(
    limit: usize,
    table: &[u8],
    symbols: &[u8],
    lengths: &[u8],
    definitions: &[u8],
    opened: &mut [u8],
    answer: &mut [u8],
) -> u32
    ensures { OpenCall limit table symbols lengths definitions opened answer result }
{
    simmergate::simmergate_open(limit, table, symbols, lengths, definitions, opened, answer)
}

// Opens a formula and simplifies the opened table, by the rules of an edition. The answer is as `simmergate_simplify`'s on the opened table.
#[unsafe(no_mangle)]
pub extern "C" fn simmergate_simplify_shared(
    limit: usize,
    edition: usize,
    table: &[u8],
    symbols: &[u8],
    lengths: &[u8],
    definitions: &[u8],
    opened: &mut [u8],
    out: &mut [u8],
    steps: &mut [u8],
    work: &mut [u8],
    answer: &mut [u8],
) -> u32
    ensures { SharedCall limit edition table symbols lengths definitions opened out steps work answer result }
{
    simmergate::simmergate_simplify_shared(
        limit,
        edition,
        table,
        symbols,
        lengths,
        definitions,
        opened,
        out,
        steps,
        work,
        answer,
    )
}

// Tells the number of the release.
#[unsafe(no_mangle)]
pub extern "C" fn simmergate_release() -> u32
    ensures { result ≡ release }
{
    simmergate::simmergate_release()
}
