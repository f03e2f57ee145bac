// The splits of a member, read off its records: coefficient and rest, base and exponent. The rest is a view: nothing is copied.
#![tactic(auto)]

ghost use Rattle.std.specs.Prelude.{◌≡◌, ℕ, ◌+◌, ◌^◌, ◌<◌, length};
ghost use Rattle.paper.specs.Record.{kind};
ghost use Rattle.paper.specs.Tree.{Tree, Forest, product, records, to_list};
ghost use Rattle.paper.specs.Rules.{others_of, product_term, term_of, factor_of};
ghost use Rattle.split.specs.Standing.{Told, SomeTold, SomeProduct};
ghost use Rattle.split.specs.Place.{base_at, last_other, rest_at};
ghost use Rattle.split.specs.Rest.{coefficient_of, StandsFor};

use number::OutOfRange;
use record::kinds::Kind;

// From so many members on a rest is a product.
const PAIR: usize = 2;

// The rest of a member: 1, which stands in no record; the tree at a record, no integer; the product at a record without its integers,
// so many members being left, two or more.
#[derive(Clone, Copy)]
pub enum Rest {
    One,
    At(usize),
    Others(usize, usize),
}

// How many members of a product are no integers, and the record of the last of them.
#[derive(Clone, Copy)]
struct Counted {
    many: usize,
    last: usize,
}

// The record after the tree at record i: the next one after a leaf; so many on as a node's record tells; else the trees that are owed are
// counted.
pub fn skip_tree(s: &[u8], i: usize) -> usize
    requires { SomeTold s.now i }
    ensures { (how : Tree → ℕ) (t : Tree) → Told how s.now i t → result ≡ i + records t }
{
    if matches!(Kind::at(s, i), Kind::Integer | Kind::Symbol) {
        return i + 1;
    }
    let told = note::records_of(record::bits(s, i));
    if 0 < told {
        return i + told;
    }
    let mut at = i;
    let mut owed = 1;
    while 0 < owed {
        owed = owed - 1 + record::arity(s, at);
        at += 1;
    }
    at
}

// The product of the integers among the members of the product at record i, in order; out of range as soon as a partial product is.
fn product_coefficient(s: &[u8], i: usize) -> Result<u64, OutOfRange>
    requires { SomeProduct s.now i }
    ensures { (how : Tree → ℕ) (μ : ℕ) (f : Forest) → Told how s.now i (product μ f) → result ≡ coefficient_of (product_term μ (to_list f)) }
{
    let mut n = 1;
    let mut at = i + 1;
    for _ in 0..record::count(s, i) {
        if Kind::at(s, at) == Kind::Integer {
            n = number::mul(n, record::bits(s, at))?;
        }
        at = skip_tree(s, at);
    }
    Ok(n)
}

// The coefficient of the tree at record i: an integer itself, the product of the integers of a product, or 1.
pub fn coefficient(s: &[u8], i: usize) -> Result<u64, OutOfRange>
    requires { SomeTold s.now i }
    ensures { (how : Tree → ℕ) (t : Tree) → Told how s.now i t → result ≡ coefficient_of (term_of t) }
{
    match Kind::at(s, i) {
        Kind::Integer => Ok(record::bits(s, i)),
        Kind::Product => product_coefficient(s, i),
        _ => Ok(1),
    }
}

// Counts the members of the product at record i that are no integers.
fn count_others(s: &[u8], i: usize) -> Counted
    requires { SomeProduct s.now i }
    ensures { (how : Tree → ℕ) (μ : ℕ) (f : Forest) → Told how s.now i (product μ f)
        → (result.many ≡ length (others_of (to_list f))) × (result.last ≡ last_other (i + 1) i f) }
{
    let mut many = 0;
    let mut last = i;
    let mut at = i + 1;
    for _ in 0..record::count(s, i) {
        if Kind::at(s, at) != Kind::Integer {
            many += 1;
            last = at;
        }
        at = skip_tree(s, at);
    }
    Counted { many, last }
}

// The rest of the product at record i: itself where it has no integer, 1 where it has nothing else, its single other member, or its others.
fn rest_of_product(s: &[u8], i: usize) -> Rest
    requires { SomeProduct s.now i }
    ensures by_index { (how : Tree → ℕ) (t : Tree) → Told how s.now i t → kind s.now i ≡ 3 → StandsFor how s.now i result (term_of t).rest }
    ensures place { (how : Tree → ℕ) (t : Tree) → Told how s.now i t → kind s.now i ≡ 3 → result ≡ rest_at i t }
{
    let others = count_others(s, i);
    if others.many == record::count(s, i) {
        return Rest::At(i);
    }
    if others.many < 1 {
        return Rest::One;
    }
    if others.many < PAIR {
        return Rest::At(others.last);
    }
    Rest::Others(i, others.many)
}

// The rest of the tree at record i: what its coefficient leaves, a single other member standing for itself.
pub fn rest_of(s: &[u8], i: usize) -> Rest
    requires { SomeTold s.now i }
    ensures by_index { (how : Tree → ℕ) (t : Tree) → Told how s.now i t → StandsFor how s.now i result (term_of t).rest }
    ensures place { (how : Tree → ℕ) (t : Tree) → Told how s.now i t → result ≡ rest_at i t }
{
    match Kind::at(s, i) {
        Kind::Integer => Rest::One,
        Kind::Product => rest_of_product(s, i),
        _ => Rest::At(i),
    }
}

// The record of the base of the tree at record i: a power's own, else the tree itself.
pub fn base(s: &[u8], i: usize) -> usize
    requires { SomeTold s.now i }
    ensures by_index { (how : Tree → ℕ) (t : Tree) → Told how s.now i t → Told how s.now result (factor_of t).base }
    ensures place { (how : Tree → ℕ) (t : Tree) → Told how s.now i t → result ≡ base_at i t }
{
    if Kind::at(s, i) == Kind::Power {
        i + 1
    } else {
        i
    }
}

// The exponent of the tree at record i: a power's own, else 1.
pub fn exponent(s: &[u8], i: usize) -> u64
    requires { SomeTold s.now i }
    ensures { (how : Tree → ℕ) (t : Tree) → Told how s.now i t → (result ≡ (factor_of t).exponent) × (result < 2 ^ 63) }
{
    if Kind::at(s, i) == Kind::Power {
        record::bits(s, skip_tree(s, i + 1))
    } else {
        1
    }
}
