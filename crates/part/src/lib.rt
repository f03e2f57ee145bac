// The part of a member that the walk of step 2 or of step 6 compares: coefficient and rest, or base and exponent. Where a part takes
// up a later one it changes; nothing is written. The records are those of a run, which hold the nodes' notes.
#![tactic(auto)]

ghost use Rattle.std.specs.Prelude.{◌≡◌, Bool, true, false, ℕ, ◌≤◌, length};
ghost use Rattle.paper.specs.Tree.{Tree};
ghost use Rattle.paper.specs.Equal.{equal};
ghost use Rattle.paper.specs.Rules.{Term, term_of, Factor, factor_of};
ghost use Rattle.note.specs.Note.{note};
ghost use Rattle.split.specs.Standing.{Told, SomeTold};
ghost use Rattle.equal.specs.Matching.{Comparable};
ghost use Rattle.part.specs.Like.{Like, split};
ghost use Rattle.part.specs.Part.{Sized, Shows, ShowsTerm, ShowsWide, ShowsPower, ShowsNumber};
ghost use Rattle.part.specs.Part.{From, MergedIs, IntoFrom, Mergeable};

use number::OutOfRange;
use record::kinds::Kind;

// The records of a power beside its base's: its own and its exponent's.
pub const AROUND: usize = 2;

// A term's coefficient, and the record of the member whose rest and mark are its own; the same of a member whose own coefficient is out
// of range; a factor's exponent, the record and the size of its base, and its mark; a factor's exponent, the bits and the mark of its
// integer base, and its mark.
#[derive(Clone, Copy)]
pub enum Part {
    Term(u64, usize),
    Wide(usize),
    Power {
        exponent: u64,
        base: usize,
        size: usize,
        mark: usize,
    },
    Number {
        exponent: u64,
        base: u64,
        base_mark: usize,
        mark: usize,
    },
}

// The term of the member at record `at`, with a look first whether it is its own rest, or an integer, as most members are.
fn term_of(s: &[u8], at: usize) -> Part
    requires { SomeTold s.now at }
    ensures shows { (t : Tree) → Told note s.now at t → Shows true s.now result (term_of t) }
    ensures place { (p : ℕ) → p ≤ at → From p result }
{
    if equal::is_whole(s, at) {
        return Part::Term(1, at);
    }
    if Kind::at(s, at) == Kind::Integer {
        return Part::Term(record::bits(s, at), at);
    }
    let n = split::coefficient(s, at);
    match n {
        Ok(v) => Part::Term(v, at),
        Err(OutOfRange) => Part::Wide(at),
    }
}

// The part of the member of `size` records at record `at`, of a sum (terms) or of a product.
pub fn part_of(s: &[u8], at: usize, size: usize, terms: bool) -> Part
    requires { (t : Tree) × Sized s.now at size t }
    ensures shows { (t : Tree) → Sized s.now at size t → Shows terms s.now result (split terms t) }
    ensures place { (p : ℕ) → p ≤ at → From p result }
{
    if terms {
        return term_of(s, at);
    }
    let e = split::exponent(s, at);
    let b = split::base(s, at);
    let m = record::mark(s, at);
    if Kind::at(s, b) == Kind::Integer {
        return Part::Number {
            exponent: e,
            base: record::bits(s, b),
            base_mark: record::mark(s, b),
            mark: m,
        };
    }
    if Kind::at(s, at) == Kind::Power {
        return Part::Power {
            exponent: e,
            base: at + 1,
            size: size - AROUND,
            mark: m,
        };
    }
    Part::Power {
        exponent: e,
        base: at,
        size,
        mark: m,
    }
}

// The term with the coefficient n and the rest of the member at record i, where it meets the member at record `at`, with a look first
// whether their rests are seen to differ, as most are.
fn merge_term(
    s: &[u8],
    n: u64,
    i: usize,
    at: usize,
    ticks: &mut [u8],
) -> Result<Option<Part>, OutOfRange>
    requires { Comparable s.now i s.now at (length ticks.old) }
    ensures merged_is { (c : Term) (t : Tree) → ShowsTerm s.now n i c → Told note s.now at t
        → MergedIs true s.now c (term_of t) result }
    ensures place { (p : ℕ) → p ≤ i → IntoFrom p result }
{
    if equal::rests_differ(s, i, at) {
        return Ok(None);
    }
    if equal::same_rest(s, i, at, ticks) {
        return add_term(s, n, i, at);
    }
    Ok(None)
}

// The term with the coefficient n and the rest of the member at record i, where the member at record `at` has the same rest.
fn add_term(s: &[u8], n: u64, i: usize, at: usize) -> Result<Option<Part>, OutOfRange>
    requires { SomeTold s.now at }
    ensures merged_is { (c : Term) (t : Tree) → ShowsTerm s.now n i c → Told note s.now at t
        → equal c.rest (term_of t).rest ≡ true → MergedIs true s.now c (term_of t) result }
    ensures place { (p : ℕ) → p ≤ i → IntoFrom p result }
{
    let m = split::coefficient(s, at)?;
    let sum = number::add(n, m)?;
    Ok(Some(Part::Term(sum, i)))
}

// The term of the member at record `wide`, whose coefficient is out of range, where it meets the member at record `at`.
fn merge_wide(
    s: &[u8],
    wide: usize,
    at: usize,
    ticks: &mut [u8],
) -> Result<Option<Part>, OutOfRange>
    requires { Comparable s.now wide s.now at (length ticks.old) }
    ensures merged_is { (c : Term) (t : Tree) → ShowsWide s.now wide c → Told note s.now at t
        → MergedIs true s.now c (term_of t) result }
    ensures place { (p : ℕ) → IntoFrom p result }
{
    if equal::same_rest(s, wide, at, ticks) {
        return Err(OutOfRange);
    }
    Ok(None)
}

// The factor with the exponent e, the base at record i, no integer, and the mark m, where it meets the member at record `at`.
fn merge_power(
    s: &[u8],
    e: u64,
    i: usize,
    k: usize,
    m: usize,
    at: usize,
    ticks: &mut [u8],
) -> Result<Option<Part>, OutOfRange>
    requires { Comparable s.now i s.now at (length ticks.old) }
    ensures merged_is { (c : Factor) (t : Tree) → ShowsPower s.now e i k m c → Told note s.now at t
        → MergedIs false s.now c (factor_of t) result }
    ensures place { (p : ℕ) → p ≤ i → IntoFrom p result }
{
    let j = split::base(s, at);
    if equal::same(s, i, s, j, ticks).is_none() {
        return Ok(None);
    }
    let exponent = number::add(e, split::exponent(s, at))?;
    Ok(Some(Part::Power {
        exponent,
        base: i,
        size: k,
        mark: m,
    }))
}

// The factor with the exponent e, the integer base v with the mark b, and the mark m, where it meets the member at record `at`: equal
// exponents multiply the bases, and the product takes the mark m; equal bases add the exponents.
fn merge_number(
    s: &[u8],
    e: u64,
    v: u64,
    b: usize,
    m: usize,
    at: usize,
) -> Result<Option<Part>, OutOfRange>
    requires { SomeTold s.now at }
    ensures merged_is { (c : Factor) (t : Tree) → ShowsNumber e v b m c → Told note s.now at t
        → MergedIs false s.now c (factor_of t) result }
    ensures place { (p : ℕ) → IntoFrom p result }
{
    let j = split::base(s, at);
    if Kind::at(s, j) != Kind::Integer {
        return Ok(None);
    }
    let w = record::bits(s, j);
    let f = split::exponent(s, at);
    if e == f {
        let base = number::mul(v, w)?;
        return Ok(Some(Part::Number {
            exponent: e,
            base,
            base_mark: m,
            mark: m,
        }));
    }
    if v != w {
        return Ok(None);
    }
    let exponent = number::add(e, f)?;
    Ok(Some(Part::Number {
        exponent,
        base: v,
        base_mark: b,
        mark: m,
    }))
}

// Whether the current part takes up the member at record `at`: it does not; it does, and what it becomes; it does, and leaves the range.
pub fn merge(s: &[u8], c: Part, at: usize, ticks: &mut [u8]) -> Result<Option<Part>, OutOfRange>
    requires { Mergeable s.now c at (length ticks.old) }
    ensures merged_is { (b : Bool) (x : Like b) (t : Tree) → Shows b s.now c x → Told note s.now at t
        → MergedIs b s.now x (split b t) result }
    ensures place { (p : ℕ) → From p c → IntoFrom p result }
{
    match c {
        Part::Term(n, i) => merge_term(s, n, i, at, ticks),
        Part::Wide(i) => merge_wide(s, i, at, ticks),
        Part::Power {
            exponent,
            base,
            size,
            mark,
        } => { merge_power(s, exponent, base, size, mark, at, ticks) }
        Part::Number {
            exponent,
            base,
            base_mark,
            mark,
        } => { merge_number(s, exponent, base, base_mark, mark, at) }
    }
}
