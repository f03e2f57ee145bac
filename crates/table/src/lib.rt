// The checker of tables, which judges refusals 19 and 1 to 5, and the weight of a table.
#![tactic(auto)]

ghost use Rattle.std.specs.Prelude.{◌≡◌, ◌+◌, ◌*◌, ◌<◌, ◌≤◌, length, eqb};
ghost use Rattle.paper.specs.Limits.{is_limit};
ghost use Rattle.paper.specs.Record.{arity, weight_from};
ghost use Rattle.paper.specs.Verdict.{records_in, first_flawed, tree_end, first_bad_exponent, table_weight, judge_records, verdict};
ghost use Rattle.paper.specs.Answers.{measured, weighed};
ghost use Rattle.record.specs.Flaw.{found_below};
ghost use Rattle.table.specs.Refusals.{stands_for, says};
ghost use Rattle.table.specs.Judged.{first_flaw};
ghost use Rattle.table.specs.Due.{due_at, turned, owing};
ghost use Rattle.table.specs.Look.{Sees, Looks};

mod refusals;

use record::Flaw;
pub use refusals::{Refusal, Refused, Which};

// What bytes 2, 4 and 6 of a record count in the number that its bytes 0-7 are: there its number of members and its mark begin, and the
// bytes that are zero in every kind.
const BYTE_2: usize = 0x1_0000;

const BYTE_4: u64 = 0x1_0000_0000;

const BYTE_6: u64 = 0x1_0000_0000_0000;

// The kinds as such numbers.
const SYMBOL: usize = record::SYMBOL as usize;

const SUM: usize = record::SUM as usize;

const PRODUCT: usize = record::PRODUCT as usize;

const POWER: usize = record::POWER as usize;

// The fewest members of a sum or a product, and the members of a power.
const FEWEST: usize = 2;

const OF_POWER: usize = 2;

// The greatest number of a symbol.
const LAST_SYMBOL: u64 = 255;

// What a symbol weighs, and what it weighs more than another record.
pub const SYMBOL_WEIGHS: usize = 3;

const SYMBOL_MORE: usize = 2;

// The bits of a word in a row of bits, and the words of the row, a bit for each record of the largest table.
pub const WORD: usize = 64;

const WORDS: usize = 256;

// The limits that there are.
pub const OLD_LIMIT: usize = 3072;

pub const NEW_LIMIT: usize = 16384;

// The number of the refusal for want of room, which a call from C returns where its answer slice is too short.
pub const ROOM: u32 = 6;

// A record at a glance: its kind, and how many members a sum or a product has.
#[derive(Clone, Copy)]
enum Seen {
    Integer,
    Symbol,
    Members(usize),
    Power,
}

// All records of a table at a look, where they are one tree: what it weighs, and whether there is a power in it.
#[derive(Clone, Copy)]
struct Whole {
    weight: usize,
    power: bool,
}

// Refusal 2 of the n records: the first flawed one, and what is wrong with it.
fn first_flawed(s: &[u8], n: usize) -> Result<(), Refusal>
    requires { n * 16 ≤ length s.now }
    ensures { stands_for result ≡ first_flaw s.now n }
{
    for place in 0..n {
        if let Some(flaw) = record::judge_record(s, place) {
            return Err(Refusal::Record { place, flaw });
        }
    }
    Ok(())
}

// The weight of the n records.
fn weight_of(s: &[u8], n: usize) -> usize
    requires { n * 16 ≤ length s.now }
    ensures { result ≡ weight_from s.now 0 n }
{
    let mut w = 0;
    for i in 0..n {
        w += if record::kind(s, i) == record::SYMBOL {
            SYMBOL_WEIGHS
        } else {
            1
        };
    }
    w
}

// The record after the tree at record 0, if the n records do not end before it. Counts the trees that are owed.
fn tree_end(s: &[u8], n: usize) -> Option<usize>
    requires { (n * 16 ≤ length s.now) × (n ≤ 16384) }
    ensures { result ≡ found_below (n + 1) (tree_end s.now n 0) }
{
    let mut owed = 1;
    for i in 0..n {
        if owed < 1 {
            return Some(i);
        }
        owed = owed - 1 + record::arity(s, i);
    }
    if owed < 1 { Some(n) } else { None }
}

// Of a row of bits, 64 to a word, that of k is 1. Tree k of those that are owed is an exponent where its bit is 1.
#[tactic(auto, unfolding(crate::specs::Due::due_at))]
pub fn is_due(due: &[u64], k: usize) -> bool
    requires { k < 64 * length due.now }
    ensures { result ≡ eqb (due_at due.now k) 1 }
{
    (due[k / WORD] >> (k % WORD)) % 2 == 1
}

// Turns the bit of k: 1 to 0, 0 to 1.
pub fn turn(due: &mut [u64], k: usize)
    requires { k < 64 * length due.old }
    ensures { due.new ≡ turned due.old k }
{
    due[k / WORD] ^= 1 << (k % WORD);
}

// Record i, which is no exponent, is taken, k trees being owed besides: its members are owed, the first one on top, and of a power the
// second one is the exponent. Answers how many are owed then.
fn owe_members(s: &[u8], i: usize, due: &mut [u64; WORDS], k: usize) -> usize
    requires { (i * 16 + 16 ≤ length s.now) × (k < 16384) }
    ensures { (result ≡ k + arity s.now i) × (due.new ≡ owing s.now i due.old k) }
{
    let owed = k + record::arity(s, i);
    if record::kind(s, i) == record::POWER {
        turn(due, owed - OF_POWER);
    }
    owed
}

// The first exponent of a tree of n records that is no integer of at least 1. Takes the records one after the other, the top one of the
// trees that are owed, and the bits beyond those stay 0.
fn first_bad(s: &[u8], n: usize) -> Option<usize>
    requires { (n * 16 ≤ length s.now) × (n ≤ 16384) × (tree_end s.now n 0 ≡ n) }
    ensures { result ≡ found_below n (first_bad_exponent s.now n 0 n) }
{
    let mut due = [0u64; WORDS];
    let mut owed = 1;
    for i in 0..n {
        owed -= 1;
        if is_due(&due, owed) {
            if !record::is_positive(s, i) {
                return Some(i);
            }
            turn(&mut due, owed);
        } else {
            owed = owe_members(s, i, &mut due, owed);
        }
    }
    None
}

// Record i at a glance, by its two halves as numbers, if nothing is wrong with it. The tests go by what is less: with a test for each kind by
// itself the check of symbols took 1.22 times the instructions.
fn glance(s: &[u8], i: usize) -> Option<Seen>
    requires { i * 16 + 16 ≤ length s.now }
    ensures { Sees s.now i result }
{
    let h = number::read8(s, i * record::SIZE);
    let v = record::bits(s, i);
    if BYTE_6 <= h {
        return None;
    }
    let front = (h % BYTE_4) as usize;
    if front < SYMBOL {
        return Some(Seen::Integer);
    }
    if front < SUM {
        if LAST_SYMBOL < v {
            return None;
        }
        return Some(Seen::Symbol);
    }
    if 0 < v {
        return None;
    }
    if front < FEWEST * BYTE_2 {
        if front == POWER {
            return Some(Seen::Power);
        }
        return None;
    }
    let kind = front % BYTE_2;
    if kind < SUM {
        return None;
    }
    if PRODUCT < kind {
        return None;
    }
    Some(Seen::Members(front / BYTE_2))
}

// The n records at a look, each of them read once, if they are one tree without a flaw. Each weighs 1 at least, so the weight is counted
// from n on.
fn look(s: &[u8], n: usize) -> Option<Whole>
    requires { (n * 16 ≤ length s.now) × (n ≤ 16384) }
    ensures { Looks s.now n result }
{
    let mut owed = 1;
    let mut weight = n;
    let mut power = false;
    for i in 0..n {
        if owed < 1 {
            return None;
        }
        match glance(s, i)? {
            Seen::Integer => owed -= 1,
            Seen::Symbol => {
                weight += SYMBOL_MORE;
                owed -= 1;
            }
            Seen::Members(c) => owed = owed - 1 + c,
            Seen::Power => {
                owed += 1;
                power = true;
            }
        }
    }
    if 0 < owed {
        return None;
    }
    Some(Whole { weight, power })
}

// Refusals 2 to 4 of the n records of a table, where 2 or 4 applies, the lowest number first; 3 is over the limit.
fn judge_odd(limit: usize, s: &[u8], n: usize) -> Result<usize, Refusal>
    requires { (n ≡ records_in s.now) × (n ≤ 16384) × (n ≤ first_flawed s.now 0 n → tree_end s.now n 0 ≡ n → ⊥) }
    ensures { says result ≡ measured (judge_records limit s.now n) (table_weight s.now) }
{
    first_flawed(s, n)?;
    if limit < weight_of(s, n) {
        return Err(Refusal::Heavy);
    }
    let place = tree_end(s, n).unwrap_or(n);
    Err(Refusal::Shape { place })
}

// The weight of the n records of a table, or refusals 2 to 5, the lowest number first; 3 is over the limit.
fn judge_records(limit: usize, s: &[u8], n: usize) -> Result<usize, Refusal>
    requires { (n ≡ records_in s.now) × (n ≤ 16384) }
    ensures { says result ≡ measured (judge_records limit s.now n) (table_weight s.now) }
{
    let Some(whole) = look(s, n) else {
        return judge_odd(limit, s, n);
    };
    if limit < whole.weight {
        return Err(Refusal::Heavy);
    }
    if whole.power {
        if let Some(place) = first_bad(s, n) {
            return Err(Refusal::Exponent { place });
        }
    }
    Ok(whole.weight)
}

// There is such a limit.
#[tactic(auto, unfolding(paper::specs::Limits::is_limit))]
pub fn is_limit(limit: usize) -> bool
    ensures { result ≡ is_limit limit }
{
    limit == OLD_LIMIT || limit == NEW_LIMIT
}

// The weight of a table, or refusal 19 of the limit, and then 1 to 5, the lowest number first.
pub fn weight(limit: usize, s: &[u8]) -> Result<usize, Refusal>
    ensures { says result ≡ weighed limit s.now }
{
    if !is_limit(limit) {
        return Err(Refusal::Limit);
    }
    if s.is_empty() || 0 < s.len() % record::SIZE || record::SIZE * limit < s.len() {
        return Err(Refusal::Length);
    }
    judge_records(limit, s, s.len() / record::SIZE)
}

// The checker of tables: refusal 19 of the limit, and then 1 to 5, the lowest number first.
pub fn check(limit: usize, s: &[u8]) -> Result<(), Refusal>
    ensures { stands_for result ≡ verdict limit s.now }
{
    weight(limit, s)?;
    Ok(())
}
