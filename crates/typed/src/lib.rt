// Formulas as people type and read them: one on standard input, with or without a line end after it; its table, its text, or what it is shortened to.
#![tactic(auto)]

ghost use Rattle.std.specs.Prelude.{◌≤◌, length};

use report::{LIMIT, OVER_TABLE, TABLE, WORK};
use simplify::{EDITION_ONE, RANGE};
use std::io;
use std::io::{Read, Write};
use table::Refusal;

// The longest text that a program reads, and one byte more.
const TEXT: usize = 65536;

const OVER_TEXT: usize = 65537;

// Tells a word on standard error; one that cannot be written is lost.
fn tell(err: &mut impl Write, word: &[u8]) {
    let _ = err.write_all(word);
}

// Tells on standard error, in words, why a formula or a table is refused.
fn explain(err: &mut impl Write, refusal: Refusal) {
    match refusal {
        Refusal::Length => tell(
            err,
            b"the table's length is zero, no multiple of 16, or over 49,152 bytes\n",
        ),
        Refusal::Record { .. } => tell(
            err,
            b"the record has an unknown kind, a byte that must be zero and is not, or fewer than two members\n",
        ),
        Refusal::Heavy => tell(err, b"the formula weighs over 3,072\n"),
        Refusal::Shape { .. } => tell(err, b"the records are not those of one formula\n"),
        Refusal::Exponent { .. } => tell(
            err,
            b"the record is an exponent and no integer of at least 1\n",
        ),
        Refusal::Range { .. } => tell(err, b"an integer leaves the signed 64-bit range\n"),
        Refusal::NoText => tell(
            err,
            b"no formula in this form: s0 to s255, integers of 64 bits, + * ^ and no spaces, exponents of at least 1, parentheses only where they must stand\n",
        ),
        _ => (),
    }
}

// Tells of a refusal on standard error: number and place, and why, in words.
fn turn_away(err: &mut impl Write, refusal: Refusal) {
    let (number, place) = (refusal.number(), refusal.place());
    let _ = writeln!(err, "refused {number} at {place}");
    explain(err, refusal);
}

// Writes a refusal, a line, and why, in words, on standard error.
fn refuse(out: &mut impl Write, err: &mut impl Write, refusal: Refusal) -> io::Result<()> {
    let written = report::refuse(out, refusal.number(), refusal.place(), refusal.flaw());
    explain(err, refusal);
    written
}

// Says that the input is longer than a program reads; the library was not asked.
fn too_long(to: &mut impl Write) -> io::Result<()> {
    to.write_all(b"longer than 65536 bytes\n")
}

// The length of a text without one line feed at its end.
fn without_end(text: &[u8]) -> usize
    ensures { result ≤ length text.now }
{
    let n = text.len();
    if n < 1 {
        return 0;
    }
    if text[n - 1] == b'\n' {
        return n - 1;
    }
    n
}

// So many bytes, or all of them.
fn at_most(n: usize, all: usize) -> usize
    ensures { result ≤ all }
{
    if n < all {
        return n;
    }
    all
}

// The bytes of so many records, or of the most that a table has.
fn bytes_of(records: usize) -> usize
    ensures { result ≤ 49152 }
{
    if records < LIMIT {
        return record::SIZE * records;
    }
    TABLE
}

// Writes the text of a table, and a line feed; or its refusal.
fn print(out: &mut impl Write, err: &mut impl Write, table: &[u8]) -> io::Result<()> {
    let mut text = [0u8; TEXT];
    match text::write(LIMIT, table, &mut text) {
        Ok(length) => {
            out.write_all(&text[..at_most(length, TEXT)])?;
            out.write_all(b"\n")
        }
        Err(refusal) => refuse(out, err, refusal),
    }
}

// Simplifies a table; writes the text of what it has become, and its listing.
fn shorten_table(out: &mut impl Write, err: &mut impl Write, table: &[u8]) -> io::Result<()> {
    let mut simplified = [0u8; TABLE];
    let mut steps = [0u8; LIMIT];
    let mut work = [0u8; WORK];
    let a = simplify::simplify(
        LIMIT,
        EDITION_ONE,
        table,
        &mut simplified,
        &mut steps,
        &mut work,
    );
    if a.number < 1 {
        let written = bytes_of(a.records);
        print(out, err, &simplified[..written])?;
    }
    // A table that was read from a text is accepted, so only a number can leave its range.
    if a.number == RANGE {
        explain(err, Refusal::Range { steps: a.place });
    }
    report::list(out, a, &steps)
}

// Reads a formula and shortens it.
fn shorten_text(
    input: &mut impl Read,
    out: &mut impl Write,
    err: &mut impl Write,
) -> io::Result<()> {
    let mut text = [0u8; OVER_TEXT];
    let n = report::read_full(input, &mut text);
    if TEXT < n {
        return too_long(out);
    }
    let m = at_most(without_end(&text[..n]), OVER_TEXT);
    let mut table = [0u8; TABLE];
    match text::read(LIMIT, &text[..m], &mut table) {
        Ok(records) => shorten_table(out, err, &table[..bytes_of(records)]),
        Err(refusal) => refuse(out, err, refusal),
    }
}

// Reads a formula and writes the shortened one and its listing.
pub fn shorten(input: &mut impl Read, out: &mut impl Write, err: &mut impl Write) {
    if let Err(error) = shorten_text(input, out, err) {
        report::lost(err, error);
    }
}

// Reads a formula and writes its table; a refusal goes to standard error.
pub fn entry(input: &mut impl Read, out: &mut impl Write, err: &mut impl Write) {
    let mut text = [0u8; OVER_TEXT];
    let n = report::read_full(input, &mut text);
    if TEXT < n {
        let _ = too_long(err);
        return;
    }
    let m = at_most(without_end(&text[..n]), OVER_TEXT);
    let mut table = [0u8; TABLE];
    match text::read(LIMIT, &text[..m], &mut table) {
        Ok(records) => {
            if let Err(error) = out.write_all(&table[..bytes_of(records)]) {
                report::lost(err, error);
            }
        }
        Err(refusal) => turn_away(err, refusal),
    }
}

// Reads a table and writes its text. Of an input that is longer than any table only as much is read as shows that it is.
pub fn show(input: &mut impl Read, out: &mut impl Write, err: &mut impl Write) {
    let mut table = [0u8; OVER_TABLE];
    let n = report::read_full(input, &mut table);
    if let Err(error) = print(out, err, &table[..n]) {
        report::lost(err, error);
    }
}
