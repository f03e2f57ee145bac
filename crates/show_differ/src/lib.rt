// What differs between the tables in two files, in words: a line for each pair of records, and in the second mode whether the trees are equal. All
// of that goes to standard output; standard error tells why there is nothing to compare: a file that cannot be read, or what is wrong with a
// table that is refused. What writes to standard output answers the error of the first write that fails, after which there is no other; standard
// error then says that output was lost.
#![tactic(auto)]

ghost use Rattle.std.specs.Prelude.{◌≤◌, length, IfOk, IfSome};

use differ::PAIR;
use number::TOP;
use record::Flaw;
use std::env::{Env, FillError};
use std::fs::Files;
use std::io::{Read, Write};
use std::{fs, io, str};
use table::{Refusal, Refused, Which};

// The limit that the small programs keep, and the bytes of the largest table and of the shortest area over it, by it.
const LIMIT: usize = 3072;

const TABLE: usize = 49152;

const OVER_TABLE: usize = 49168;

// The word that asks for the second mode.
const EQUAL: [u8; 5] = *b"equal";

// How many words the command line has, the program's own among them: two files, or the word `equal` and two files; and one word more than any
// mode takes.
const TWO_FILES: usize = 3;

const EQUAL_AND_TWO: usize = 4;

const TOO_MANY: usize = 5;

// The words after the program's own.
const FIRST_WORD: usize = 1;

const SECOND_WORD: usize = 2;

const THIRD_WORD: usize = 3;

// Room for the name of a file.
const NAME: usize = 4096;

// Room for the words of an error.
const WORDS: usize = 128;

// What stands between the system's words for an error and its number, where std writes it.
const BEFORE_NUMBER: &str = " (os error ";

// Writes an integer, which its 64 bits stand for.
fn say_integer(out: &mut impl Write, bits: u64) -> io::Result<()> {
    if bits < TOP {
        return write!(out, "integer {bits}");
    }
    let size = u64::MAX - bits + 1;
    write!(out, "integer -{size}")
}

// Writes the line of the sheet that record i comes from, where it says one.
fn say_line(out: &mut impl Write, s: &[u8], i: usize) -> io::Result<()> {
    if s.len() / record::SIZE <= i {
        return Ok(());
    }
    let line = record::mark(s, i);
    if 0 < line {
        return write!(out, ", line {line}");
    }
    Ok(())
}

// Writes kind, count and number of record i of an accepted table.
fn say_node(out: &mut impl Write, s: &[u8], i: usize) -> io::Result<()> {
    if s.len() / record::SIZE <= i {
        return Ok(());
    }
    match record::kind(s, i) {
        record::INTEGER => say_integer(out, record::bits(s, i)),
        record::SYMBOL => {
            let symbol = record::symbol(s, i);
            write!(out, "symbol {symbol}")
        }
        record::SUM => {
            let count = record::count(s, i);
            write!(out, "sum of {count}")
        }
        record::PRODUCT => {
            let count = record::count(s, i);
            write!(out, "product of {count}")
        }
        _ => out.write_all(b"power"),
    }
}

// Writes what stands at record i of an accepted table.
fn say_record(out: &mut impl Write, s: &[u8], i: usize) -> io::Result<()> {
    say_node(out, s, i)?;
    say_line(out, s, i)
}

// Writes pair p of the list, a line.
fn say_pair(out: &mut impl Write, a: &[u8], b: &[u8], list: &[u8], p: usize) -> io::Result<()> {
    if list.len() / PAIR <= p {
        return Ok(());
    }
    let i = number::read8(list, p * PAIR);
    let j = number::read8(list, p * PAIR + number::SIZE);
    write!(out, "record {i}, record {j}: ")?;
    say_record(out, a, i as usize)?;
    out.write_all(b", ")?;
    say_record(out, b, j as usize)?;
    out.write_all(b"\n")
}

// Writes the first pairs of the list.
fn say_pairs(
    out: &mut impl Write,
    a: &[u8],
    b: &[u8],
    list: &[u8],
    pairs: usize,
) -> io::Result<()> {
    for p in 0..pairs {
        say_pair(out, a, b, list, p)?;
    }
    Ok(())
}

// Writes what is wrong with a record, as the listing does; nothing where nothing is.
fn say_flaw(out: &mut impl Write, flaw: Option<Flaw>) -> io::Result<()> {
    match flaw {
        Some(Flaw::Kind) => out.write_all(b" kind"),
        Some(Flaw::Byte(byte)) => write!(out, " byte {byte}"),
        Some(Flaw::Count) => out.write_all(b" count"),
        None => Ok(()),
    }
}

// Tells a word on standard error; one that cannot be written is lost.
fn tell(err: &mut impl Write, word: &[u8]) {
    let _ = err.write_all(word);
}

// Tells what is wrong with a record, in words.
fn explain_record(err: &mut impl Write, flaw: Flaw) {
    match flaw {
        Flaw::Kind => tell(err, b"its kind is none of the five"),
        Flaw::Byte(_) => tell(err, b"a byte of it that must be zero is not"),
        Flaw::Count => tell(err, b"it is a sum or a product of fewer than two members"),
    }
}

// Tells what is wrong with a table, in words.
fn explain(err: &mut impl Write, refusal: Refusal) {
    match refusal {
        Refusal::Length => tell(
            err,
            b"its length is zero, no multiple of 16, or over 49,152 bytes",
        ),
        Refusal::Record { flaw, .. } => explain_record(err, flaw),
        Refusal::Heavy => tell(err, b"it weighs over 3,072"),
        Refusal::Shape { .. } => tell(
            err,
            b"its records end before the tree, or the tree ends here before the records",
        ),
        Refusal::Exponent { .. } => tell(err, b"it is an exponent, and no integer of at least 1"),
        _ => (),
    }
}

// Tells on standard error what is wrong with a table, and with which record of it: 1 and 3 are of the whole.
fn explain_refusal(err: &mut impl Write, refused: Refused) {
    let refusal = refused.refusal;
    match refused.which {
        Which::First => tell(err, b"differs: first table"),
        _ => tell(err, b"differs: second table"),
    }
    if !matches!(refusal, Refusal::Length | Refusal::Heavy) {
        let place = refusal.place();
        let _ = write!(err, ", record {place}");
    }
    tell(err, b": ");
    explain(err, refusal);
    tell(err, b"\n");
}

// Writes which table is refused. The list being as long as any table, one of the two is.
fn say_which(out: &mut impl Write, which: Which) -> io::Result<()> {
    match which {
        Which::First => out.write_all(b"first"),
        _ => out.write_all(b"second"),
    }
}

// Writes which table is refused, the refusal's number and place, and what is wrong with the record; then, on standard error, the same in words.
fn say_refusal(out: &mut impl Write, err: &mut impl Write, refused: Refused) -> io::Result<()> {
    let refusal = refused.refusal;
    let (number, place) = (refusal.number(), refusal.place());
    say_which(out, refused.which)?;
    write!(out, ": refused {number} at {place}")?;
    say_flaw(out, refusal.flaw())?;
    out.write_all(b"\n")?;
    explain_refusal(err, refused);
    Ok(())
}

// Writes whether the trees are equal, the order of members not counting.
fn say_equal(out: &mut impl Write, a: &[u8], b: &[u8]) -> io::Result<()> {
    if matches!(equal::equal(LIMIT, a, b), Ok(true)) {
        return out.write_all(b"trees equal\n");
    }
    out.write_all(b"trees not equal\n")
}

// Writes what differs between two tables; the list is as long as any table.
fn compare(
    out: &mut impl Write,
    err: &mut impl Write,
    a: &[u8],
    b: &[u8],
    with_equal: bool,
) -> io::Result<()> {
    let mut list = [0u8; TABLE];
    let pairs = match differ::differ(LIMIT, a, b, &mut list) {
        Ok(pairs) => pairs,
        Err(refused) => return say_refusal(out, err, refused),
    };
    write!(out, "differences {pairs}\n")?;
    say_pairs(out, a, b, &list, pairs)?;
    if with_equal {
        return say_equal(out, a, b);
    }
    Ok(())
}

// Why a call failed, in the system's words alone. The listing says it so too: what compares two files stands without the simplifier.
fn reason(error: io::Error, room: &mut [u8; WORDS]) -> &str {
    let mut rest = &mut room[..];
    let _ = write!(rest, "{error}");
    let n = WORDS.saturating_sub(rest.len());
    let text = str::from_utf8(&room[..n]).unwrap_or("");
    match text.split_once(BEFORE_NUMBER) {
        Some((words, _)) => words,
        None => text,
    }
}

// Tells on standard error what failed, and why.
fn fail(err: &mut impl Write, what: &[u8], error: io::Error) {
    let mut room = [0u8; WORDS];
    let why = reason(error, &mut room);
    tell(err, what);
    let _ = writeln!(err, ": {why}");
}

// Tells that a file cannot be read, and why.
fn unread(err: &mut impl Write, name: &[u8], error: io::Error) {
    tell(err, b"differs: cannot read ");
    fail(err, name, error);
}

// Reads the file of this name, up to as many bytes as there is room for, and answers how many there are. A read gives as many as it likes, so no
// count of turns is known.
fn read_file(files: &impl Files, name: &[u8], room: &mut [u8]) -> io::Result<usize>
    ensures { IfOk result (λ n. n ≤ length room.new) }
{
    let Ok(path) = str::from_utf8(name) else {
        return Err(io::Error::from(io::ErrorKind::InvalidFilename));
    };
    let mut file = fs::open(files, path)?;
    let mut n = 0;
    while n < room.len() {
        let got = file.read(&mut room[n..])?;
        if got == 0 {
            break;
        }
        n += got;
    }
    Ok(n)
}

// Reads the file that argument k names, up to as many bytes as there is room for, and answers how many there are. Where it cannot be opened, or
// reading stops before the file ends, it tells so and answers nothing.
fn read_named(
    rt: &(impl Env + Files),
    err: &mut impl Write,
    k: usize,
    room: &mut [u8],
) -> Option<usize>
    ensures { IfSome result (λ n. n ≤ length room.new) }
{
    let mut space = [0u8; NAME];
    let n = rt.arg(k, &mut space).unwrap_or(0);
    let name = &space[..n];
    match read_file(rt, name, room) {
        Ok(got) => Some(got),
        Err(error) => {
            unread(err, name, error);
            None
        }
    }
}

// Compares the tables in the files that arguments k and l name. Of a file that is longer than any table only as much is read as shows that it
// is.
fn compare_files(
    rt: &(impl Env + Files),
    out: &mut impl Write,
    err: &mut impl Write,
    k: usize,
    l: usize,
    with_equal: bool,
) {
    let mut first = [0u8; OVER_TABLE];
    let mut second = [0u8; OVER_TABLE];
    let Some(n) = read_named(rt, err, k, &mut first) else {
        return;
    };
    let Some(m) = read_named(rt, err, l, &mut second) else {
        return;
    };
    if let Err(error) = compare(out, err, &first[..n], &second[..m], with_equal) {
        fail(err, b"differs: output was lost", error);
    }
}

// Argument 1 is the word `equal`.
fn asks_equal(env: &impl Env) -> bool {
    let mut word = [0u8; EQUAL.len()];
    matches!(env.arg(FIRST_WORD, &mut word), Ok(n) if n == EQUAL.len()) && word == EQUAL
}

// Counts the words of the command line, the program's own included, and stops at TOO_MANY: no mode takes so many.
fn count_words(env: &impl Env) -> usize {
    for i in 0..TOO_MANY {
        if let Err(FillError::NotPresent) = env.arg(i, &mut []) {
            return i;
        }
    }
    TOO_MANY
}

// The two modes, by the number of words on the command line.
pub fn run(rt: &(impl Env + Files), out: &mut impl Write, err: &mut impl Write) {
    let n = count_words(rt);
    if n == TWO_FILES {
        compare_files(rt, out, err, FIRST_WORD, SECOND_WORD, false);
        return;
    }
    if n == EQUAL_AND_TWO && asks_equal(rt) {
        compare_files(rt, out, err, SECOND_WORD, THIRD_WORD, true);
        return;
    }
    tell(
        err,
        b"usage: differs [equal] FIRST SECOND (two files with a table each; records count from 0, marks count as numbers do; ",
    );
    tell(
        err,
        b"`equal` also says whether the trees are equal, in any order of members and whatever their marks)\n",
    );
}
