// The listing of a table: whether it was accepted, its steps and openings, both weights, and the steps by name. What writes answers the error of
// the first write that fails, after which there is no other; standard error then says that output was lost.
#![tactic(auto)]

ghost use Rattle.std.specs.Prelude.{◌≤◌, length};

use record::Flaw;
use rules::{
    ADD_ZERO, COMBINE_LIKE_FACTORS, COMBINE_LIKE_TERMS, MULTIPLY_ONE, MULTIPLY_ZERO,
    POWER_CONSTANT, POWER_ONE, POWER_POWER,
};
use std::io::{Read, Write};
use std::{io, str};

// The limit that the small programs keep, and the bytes of the largest table, of the shortest area over it, and of `work`, by it.
pub const LIMIT: usize = 3072;

pub const TABLE: usize = 49152;

pub const OVER_TABLE: usize = 49168;

pub const WORK: usize = 65536;

// Room for the words of an error.
const WORDS: usize = 128;

// What stands between the system's words for an error and its number, where std writes it.
const BEFORE_NUMBER: &str = " (os error ";

// Why a call failed, in the system's words alone. What compares two files says it so too: it stands without the simplifier.
fn reason(error: io::Error, room: &mut [u8; WORDS]) -> &str {
    let mut rest = &mut room[..];
    let _ = write!(rest, "{error}");
    let n = WORDS.saturating_sub(rest.len());
    let text = str::from_utf8(&room[..n]).unwrap_or("");
    match text.split_once(BEFORE_NUMBER) {
        Some((words, _)) => words,
        None => text,
    }
}

// Tells on `err` that output was lost, and why.
pub fn lost(err: &mut impl Write, error: io::Error) {
    let mut room = [0u8; WORDS];
    let why = reason(error, &mut room);
    let _ = writeln!(err, "output was lost: {why}");
}

// Reads until the room is full, the input ends or a read fails, and answers how many bytes there are. A read gives as many as it likes, so no
// count of turns is known.
pub fn read_full(input: &mut impl Read, room: &mut [u8]) -> usize
    ensures { result ≤ length room.new }
{
    let mut n = 0;
    while n < room.len() {
        match input.read(&mut room[n..]) {
            Ok(0) | Err(_) => return n,
            Ok(got) => n += got,
        }
    }
    n
}

// Writes the name of a step, a line.
fn name(out: &mut impl Write, step: u8) -> io::Result<()> {
    match step {
        ADD_ZERO => out.write_all(b"add-zero\n"),
        COMBINE_LIKE_TERMS => out.write_all(b"like-terms\n"),
        MULTIPLY_ZERO => out.write_all(b"multiply-zero\n"),
        MULTIPLY_ONE => out.write_all(b"multiply-one\n"),
        COMBINE_LIKE_FACTORS => out.write_all(b"like-factors\n"),
        POWER_ONE => out.write_all(b"power-one\n"),
        POWER_CONSTANT => out.write_all(b"power-constant\n"),
        POWER_POWER => out.write_all(b"power-power\n"),
        _ => Ok(()),
    }
}

// Writes the names of the first n steps, where there are so many.
fn names(out: &mut impl Write, steps: &[u8], n: usize) -> io::Result<()> {
    for step in steps.iter().take(n) {
        name(out, *step)?;
    }
    Ok(())
}

// Writes what is wrong with a record; nothing where nothing is.
fn say_flaw(out: &mut impl Write, f: Option<Flaw>) -> io::Result<()> {
    match f {
        None => Ok(()),
        Some(Flaw::Kind) => out.write_all(b" kind"),
        Some(Flaw::Byte(j)) => write!(out, " byte {j}"),
        Some(Flaw::Count) => out.write_all(b" count"),
    }
}

// Writes a refusal, a line: number, place, and what is wrong with a record.
pub fn refuse(
    out: &mut impl Write,
    number: u32,
    place: usize,
    flaw: Option<Flaw>,
) -> io::Result<()> {
    write!(out, "refused {number} at {place}")?;
    say_flaw(out, flaw)?;
    out.write_all(b"\n")
}

// Writes what an accepted table was shortened by.
fn tell(out: &mut impl Write, a: simplify::Answer, steps: &[u8]) -> io::Result<()> {
    let (noted, opened) = (a.steps, a.openings);
    let (before, after) = (a.weight_in, a.weight_out);
    write!(
        out,
        "ok\nsteps {noted}\nopened {opened}\nweight {before} to {after}\n",
    )?;
    names(out, steps, noted)
}

// Writes a refusal, or what an accepted table was shortened by.
pub fn list(out: &mut impl Write, a: simplify::Answer, steps: &[u8]) -> io::Result<()> {
    if 0 < a.number {
        return refuse(out, a.number, a.place, a.flaw);
    }
    tell(out, a, steps)
}

// Reads a table, simplifies it at the limit 3,072 by the rules of the edition, in memory of its own, and writes its listing. Of an input that is
// longer than any table only as much is read as shows that it is.
pub fn run(input: &mut impl Read, out: &mut impl Write, err: &mut impl Write, edition: usize) {
    let mut table = [0u8; OVER_TABLE];
    let mut simplified = [0u8; TABLE];
    let mut steps = [0u8; LIMIT];
    let mut work = [0u8; WORK];
    let n = read_full(input, &mut table);
    let a = simplify::simplify(
        LIMIT,
        edition,
        &table[..n],
        &mut simplified,
        &mut steps,
        &mut work,
    );
    if let Err(error) = list(out, a, &steps) {
        lost(err, error);
    }
}
