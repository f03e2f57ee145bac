// One record of a table: its fields, its number of members, and what is wrong with it.
#![tactic(auto)]

ghost use Rattle.std.specs.Prelude.{◌≡◌, ◌+◌, ◌*◌, ◌<◌, ◌≤◌, length};
ghost use Rattle.paper.specs.Record.{kind, count_in, mark_in, bits, symbol_in, is_node, stray, flaw, arity, flaw_numbers};
ghost use Rattle.paper.specs.Verdict.{is_positive};
ghost use Rattle.paper.specs.Bytes.{bytes};
ghost use Rattle.paper.specs.Table.{record_of};
ghost use Rattle.stretch.specs.Put.{part, put};
ghost use Rattle.record.specs.Flaw.{flaw_of, both_numbers, byte_flaw, count_flaw, found_below};
ghost use Rattle.record.specs.Tidy.{front, is_tidy};

pub mod kinds;

use kinds::Kind;

// The numbers of the kinds of records.
pub const INTEGER: u8 = 0;

pub const SYMBOL: u8 = 1;

pub const SUM: u8 = 2;

pub const PRODUCT: u8 = 3;

pub const POWER: u8 = 4;

// The bytes of a record.
pub const SIZE: usize = 16;

// Where in a record its number of members, its mark and its bits stand.
pub const COUNT_AT: usize = 2;

pub const MARK_AT: usize = 4;

pub const BITS_AT: usize = 8;

// The bytes of a mark, and how many values a byte has.
const MARK_BYTES: usize = 2;

const BYTE: usize = 256;

// In the number that bytes 0-7 make, a count and a mark are multiplied by these.
const COUNTS: u64 = 0x1_0000;

const MARKS: u64 = 0x1_0000_0000;

// Symbols are below it.
pub const SYMBOLS: u64 = 256;

// The bits of the negative numbers begin here.
pub const NEGATIVE: u64 = number::TOP;

// A power has a base and an exponent; a sum or a product has at least two members.
const PARTS: usize = 2;

const LEAST: usize = 2;

// Which bytes of a record may be other than zero (1), by kind and byte.
const MAY: [[u8; 16]; 5] = [
    [1, 0, 0, 0, 1, 1, 0, 0, 1, 1, 1, 1, 1, 1, 1, 1],
    [1, 0, 0, 0, 1, 1, 0, 0, 1, 0, 0, 0, 0, 0, 0, 0],
    [1, 0, 1, 1, 1, 1, 0, 0, 0, 0, 0, 0, 0, 0, 0, 0],
    [1, 0, 1, 1, 1, 1, 0, 0, 0, 0, 0, 0, 0, 0, 0, 0],
    [1, 0, 0, 0, 1, 1, 0, 0, 0, 0, 0, 0, 0, 0, 0, 0],
];

// What is wrong with a record: its kind, the lowest byte that must be zero and is not, or its count.
#[derive(Clone, Copy, PartialEq, Eq)]
pub enum Flaw {
    Kind,
    Byte(usize),
    Count,
}

// What is wrong with a record, as the first number of an answer.
const NOTHING: u64 = 0;

pub const BAD_KIND: u64 = 1;

pub const BAD_BYTE: u64 = 2;

pub const BAD_COUNT: u64 = 3;

// What is wrong with a record, as the numbers of an answer: which of the above; and which byte, 0 where it is none.
#[derive(Clone, Copy)]
pub struct FlawNumbers {
    pub what: u64,
    pub byte: u64,
}

// The kind of record i.
#[tactic(auto, unfolding(paper::specs::Record::kind))]
pub fn kind(s: &[u8], i: usize) -> u8
    requires { i * 16 + 16 ≤ length s.now }
    ensures { result ≡ kind s.now i }
{
    s[i * SIZE]
}

// The number of members that record i gives, for a sum or a product.
#[tactic(auto, unfolding(paper::specs::Record::count_in))]
pub fn count(s: &[u8], i: usize) -> usize
    requires { i * 16 + 16 ≤ length s.now }
    ensures { (result ≡ count_in s.now i) × (result < 65536) }
{
    number::read2(s, i * SIZE + COUNT_AT)
}

// The mark of record i: the line of the sheet that it came from, 0 for none.
#[tactic(auto, unfolding(paper::specs::Record::mark_in))]
pub fn mark(s: &[u8], i: usize) -> usize
    requires { i * 16 + 16 ≤ length s.now }
    ensures { (result ≡ mark_in s.now i) × (result < 65536) }
{
    number::read2(s, i * SIZE + MARK_AT)
}

// The 64 bits of record i, for an integer.
#[tactic(auto, unfolding(paper::specs::Record::bits))]
pub fn bits(s: &[u8], i: usize) -> u64
    requires { i * 16 + 16 ≤ length s.now }
    ensures { result ≡ bits s.now i }
{
    number::read8(s, i * SIZE + BITS_AT)
}

// The symbol of record i.
#[tactic(auto, unfolding(paper::specs::Record::symbol_in))]
pub fn symbol(s: &[u8], i: usize) -> u8
    requires { i * 16 + 16 ≤ length s.now }
    ensures { result ≡ symbol_in s.now i }
{
    s[i * SIZE + BITS_AT]
}

// The number of members of record i, whatever its kind.
#[tactic(auto, unfolding(paper::specs::Record::arity))]
pub fn arity(s: &[u8], i: usize) -> usize
    requires { i * 16 + 16 ≤ length s.now }
    ensures { (result ≡ arity s.now i) × (result < 65536) }
{
    match kind(s, i) {
        INTEGER | SYMBOL => 0,
        POWER => PARTS,
        _ => count(s, i),
    }
}

// Record i is an integer of at least 1.
#[tactic(auto, unfolding(paper::specs::Verdict::is_positive))]
pub fn is_positive(s: &[u8], i: usize) -> bool
    requires { i * 16 + 16 ≤ length s.now }
    ensures { result ≡ is_positive s.now i }
{
    let v = bits(s, i);
    kind(s, i) == INTEGER && 0 < v && v < NEGATIVE
}

// A record of kind k has a count: it is a sum or a product.
#[tactic(auto, unfolding(paper::specs::Record::is_node))]
fn is_node(k: u8) -> bool
    ensures { result ≡ is_node k }
{
    k == SUM || k == PRODUCT
}

// The number in bytes 0-7 of record i, of kind k, if those of them are zero that must be.
#[tactic(auto, unfolding(crate::specs::Tidy::front))]
fn front(s: &[u8], i: usize, k: u8) -> u64
    requires { (i * 16 + 16 ≤ length s.now) × (k < 5) }
    ensures { result ≡ front s.now i k }
{
    let members = if is_node(k) { count(s, i) } else { 0 };
    k as u64 + members as u64 * COUNTS + mark(s, i) as u64 * MARKS
}

// Record i, of kind k, is seen by its two halves to have no byte that must be zero and is not.
#[tactic(auto, unfolding(crate::specs::Tidy::is_tidy))]
fn is_tidy(s: &[u8], i: usize, k: u8) -> bool
    requires { (i * 16 + 16 ≤ length s.now) × (k < 5) }
    ensures { result ≡ is_tidy s.now i k }
{
    let room = if k == SYMBOL { SYMBOLS } else { 1 };
    number::read8(s, i * SIZE) == front(s, i, k) && (k == INTEGER || bits(s, i) < room)
}

// The lowest byte of record i, of kind k, that is other than zero and must be zero.
fn stray(s: &[u8], i: usize, k: u8) -> Option<usize>
    requires { (i * 16 + 16 ≤ length s.now) × (k < 5) }
    ensures { result ≡ found_below 16 (stray s.now i k 0 16) }
{
    if is_tidy(s, i, k) {
        return None;
    }
    for j in 0..SIZE {
        if s[i * SIZE + j] != 0 && MAY[k as usize][j] == 0 {
            return Some(j);
        }
    }
    None
}

// What is wrong with the bytes of record i, of kind k.
#[tactic(auto, unfolding(crate::specs::Flaw::byte_flaw))]
fn judge_bytes(s: &[u8], i: usize, k: u8) -> Option<Flaw>
    requires { (i * 16 + 16 ≤ length s.now) × (k < 5) }
    ensures { flaw_of result ≡ byte_flaw s.now i k }
{
    stray(s, i, k).map(Flaw::Byte)
}

// What is wrong with the count of record i, of kind k.
#[tactic(auto, unfolding(crate::specs::Flaw::count_flaw))]
fn judge_count(s: &[u8], i: usize, k: u8) -> Option<Flaw>
    requires { (i * 16 + 16 ≤ length s.now) × (k < 5) }
    ensures { flaw_of result ≡ count_flaw s.now i k }
{
    if is_node(k) && count(s, i) < LEAST {
        return Some(Flaw::Count);
    }
    None
}

// What is wrong with record i, if anything is: its kind, a byte, or its count, in this order.
#[tactic(auto, unfolding(paper::specs::Record::flaw))]
pub fn judge_record(s: &[u8], i: usize) -> Option<Flaw>
    requires { i * 16 + 16 ≤ length s.now }
    ensures { flaw_of result ≡ flaw s.now i }
{
    let byte = kind(s, i);
    match Kind::try_from(byte) {
        Ok(_) => judge_bytes(s, i, byte).or(judge_count(s, i, byte)),
        Err(f) => Some(f),
    }
}

// The two bytes of a count or a mark.
#[tactic(auto, unfolding(paper::specs::Bytes::bytes))]
fn bytes2(v: usize) -> [u8; MARK_BYTES]
    ensures { result ≡ bytes 2 v }
{
    [(v % BYTE) as u8, (v / BYTE % BYTE) as u8]
}

// Record i anew: its kind, its number of members, its mark, and the number in its bytes 8-15; all other bytes of d stay.
pub fn write_record(d: &mut [u8], i: usize, kind: u8, count: usize, mark: usize, bits: u64)
    requires { i * 16 + 16 ≤ length d.old }
    ensures { d.new ≡ put d.old (i * 16) (record_of kind count mark bits) }
{
    let [count_lo, count_hi] = bytes2(count);
    let [mark_lo, mark_hi] = bytes2(mark);
    let b = number::bytes8(bits);
    let r = [
        kind, 0, count_lo, count_hi, mark_lo, mark_hi, 0, 0, b[0], b[1], b[2], b[3], b[4], b[5],
        b[6], b[7],
    ];
    stretch::copy_bytes(d, i * SIZE, &r, 0, SIZE);
}

// Copies record j of src to record i of dst, by its two halves.
pub fn copy_record(dst: &mut [u8], i: usize, src: &[u8], j: usize)
    requires { (i * 16 + 16 ≤ length dst.old) × (j * 16 + 16 ≤ length src.now) }
    ensures { dst.new ≡ put dst.old (i * 16) (part src.now (j * 16) 16) }
{
    let a = number::read8(src, j * SIZE);
    let b = number::read8(src, j * SIZE + BITS_AT);
    number::write8(dst, i * SIZE, a);
    number::write8(dst, i * SIZE + BITS_AT, b);
}

// Another mark for record i; all other bytes of d stay.
pub fn set_mark(d: &mut [u8], i: usize, mark: usize)
    requires { i * 16 + 16 ≤ length d.old }
    ensures { d.new ≡ put d.old (i * 16 + 4) (bytes 2 mark) }
{
    stretch::copy_bytes(d, i * SIZE + MARK_AT, &bytes2(mark), 0, MARK_BYTES);
}

// What is wrong with the record, as numbers.
#[tactic(auto, unfolding(paper::specs::Record::flaw_numbers))]
pub fn flaw_numbers(f: Option<Flaw>) -> FlawNumbers
    ensures { both_numbers result ≡ flaw_numbers (flaw_of f) }
{
    let (what, byte) = match f {
        None => (NOTHING, 0),
        Some(Flaw::Kind) => (BAD_KIND, 0),
        Some(Flaw::Byte(j)) => (BAD_BYTE, j as u64),
        Some(Flaw::Count) => (BAD_COUNT, 0),
    };
    FlawNumbers { what, byte }
}
