// The value of a table under 256 registers of 64 bits, modulo 2^64.
#![tactic(auto)]

ghost use Rattle.std.specs.Prelude.{◌≡◌, ℕ, ◌+◌, ◌*◌, ◌%◌, ◌^◌, ◌<◌, ◌≤◌, length, slice_index};
ghost use Rattle.paper.specs.Limits.{modulus};
ghost use Rattle.paper.specs.Record.{kind};
ghost use Rattle.paper.specs.Tree.{Tree, records, value};
ghost use Rattle.paper.specs.Answers.{register, valued};
ghost use Rattle.record.specs.Kinds.{number_of};
ghost use Rattle.table.specs.Refusals.{says};
ghost use Rattle.paper.specs.Standing.{TreeIn, SomeTree};
ghost use Rattle.value.specs.Evaluated.{Evaluated, held, place, parts, neutral, joined};

use record::kinds::Kind;
use table::Refusal;

// How many registers there are, and their bytes.
const REGISTERS: usize = 256;

const REGISTER_BYTES: usize = 2048;

// The registers as numbers, symbol 0 first.
#[tactic(auto, unfolding(paper::specs::Answers::register))]
fn fill(registers: &[u8]) -> [u64; 256]
    requires { length registers.now ≡ 2048 }
    ensures { (k : ℕ) → k < 256 → slice_index result k ≡ register registers.now k }
{
    let mut r = [0u64; 256];
    for i in 0..REGISTERS {
        r[i] = number::read8(registers, i * number::SIZE);
    }
    r
}

// The register of a symbol.
fn register_of(regs: &[u64; 256], symbol: u8) -> u64
    ensures { result ≡ held regs.now symbol }
{
    regs[symbol as usize]
}

// The number of trees that the value of the node at record i, of kind k, is made from: a power's base, else its members.
#[tactic(auto, unfolding(crate::specs::Evaluated::parts))]
fn parts(s: &[u8], i: usize, k: Kind) -> usize
    requires { (i * 16 + 16 ≤ length s.now) × (number_of k ≡ kind s.now i) }
    ensures { result ≡ parts s.now i }
{
    match k {
        Kind::Power => 1,
        _ => record::count(s, i),
    }
}

// What the value of a node of kind k begins with: a product's and a power's with 1, a sum's with 0.
#[tactic(auto, unfolding(crate::specs::Evaluated::neutral))]
fn neutral(k: Kind) -> u64
    ensures { result ≡ neutral (number_of k) }
{
    match k {
        Kind::Product | Kind::Power => 1,
        _ => 0,
    }
}

// A value and one more of a node of kind k: multiplied in a product or a power, added in a sum.
#[tactic(auto, unfolding(crate::specs::Evaluated::joined))]
fn joined(k: Kind, total: u64, v: u64) -> u64
    ensures { result ≡ joined (number_of k) total v % modulus }
{
    match k {
        Kind::Product | Kind::Power => number::wrapping_mul(total, v),
        _ => total.wrapping_add(v),
    }
}

// The one cell that the levels share: the record at hand.
const PLACE: usize = 0;

// The value of the tree at the record at hand, which moves past the tree: an integer's is its bits, a symbol's its register, and the others'
// come from their members.
fn value_at(s: &&[u8], regs: &[u64; 256], at: &mut [usize; 1]) -> u64
    requires { (length at.old ≡ 1) × SomeTree s.now.now (place at.old) × (length s.now.now < 2 ^ 63) }
    ensures { (t : Tree) → TreeIn s.now.now (place at.old) t
        → Evaluated (place at.old) (records t) (value t (held regs.now)) result at.new }
{
    let i = at[PLACE];
    let k = Kind::at(*s, i);
    at[PLACE] = i + 1;
    if k == Kind::Integer {
        return record::bits(*s, i);
    }
    if k == Kind::Symbol {
        return register_of(regs, record::symbol(*s, i));
    }
    let mut total = neutral(k);
    for _ in 0..parts(*s, i, k) {
        total = joined(k, total, value_at(s, regs, at));
    }
    if k != Kind::Power {
        return total;
    }
    let e = at[PLACE];
    at[PLACE] = e + 1;
    number::wrapping_pow(total, record::bits(*s, e))
}

// The value of a table, unless the table or the registers are refused.
pub fn value(limit: usize, s: &[u8], registers: &[u8]) -> Result<u64, Refusal>
    ensures { says result ≡ valued limit s.now registers.now }
{
    table::check(limit, s)?;
    if registers.len() != REGISTER_BYTES {
        return Err(Refusal::Room);
    }
    let regs = fill(registers);
    let mut at = [0usize; 1];
    let t = s;
    Ok(value_at(&t, &regs, &mut at))
}
