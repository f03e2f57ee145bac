// The member that a part becomes when its turn is done, written to a table: a rest with its coefficient, a base with its exponent. Whoever
// writes a node's record closes it.
#![tactic(auto)]

ghost use Rattle.std.specs.Prelude.{◌≡◌, Bool, ℕ, ◌+◌, ◌*◌, ◌≤◌, ◌<◌, length, Ok};
ghost use Rattle.std.proofs.Math.Option.{none};
ghost use Rattle.paper.specs.Tree.{Tree, Forest, product, marked, to_list, of_list, recordses};
ghost use Rattle.paper.specs.Rules.{as_integer, others_of, Term, Factor, from_term, from_factor};
ghost use Rattle.note.specs.Note.{note};
ghost use Rattle.note.specs.Noted.{encode_by, encodes_by};
ghost use Rattle.stretch.specs.Put.{put};
ghost use Rattle.split.specs.Standing.{Told};
ghost use Rattle.split.specs.Rest.{Lessened};
ghost use Rattle.part.specs.Like.{Like, join};
ghost use Rattle.part.specs.Part.{Sized, Shows, ShowsTerm, ShowsPower, ShowsNumber};
ghost use Rattle.rebuilt.specs.Written.{WrittenIs, Fitting, Light, paired, lengthened, timed};

use number::OutOfRange;
use part::{AROUND, Part};
use record::kinds::Kind;

// The members of a product of an integer and another tree.
pub const PAIR: usize = 2;

// Where the second member stands, counted from its node's record, where the first is an integer.
pub const SECOND: usize = 2;

// The records of a power of an integer.
const NUMBER: usize = 3;

// Copies the tree of k records at record i.
fn copy_tree(out: &mut [u8], m: usize, s: &[u8], i: usize, k: usize)
    requires { ((t : Tree) × Sized s.now i k t) × ((m + k) * 16 ≤ length out.old) }
    ensures { (t : Tree) → Sized s.now i k t → out.new ≡ put out.old (m * 16) (encode_by note t) }
{
    stretch::copy_bytes(out, m * record::SIZE, s, i * record::SIZE, k * record::SIZE);
}

// Copies the tree of k records at record i, with another mark at its root.
fn copy_marked(out: &mut [u8], m: usize, s: &[u8], i: usize, k: usize, mark: usize)
    requires { ((t : Tree) × Sized s.now i k t) × ((m + k) * 16 ≤ length out.old) }
    ensures { (t : Tree) → Sized s.now i k t
        → out.new ≡ put out.old (m * 16) (encode_by note (marked mark t)) }
{
    copy_tree(out, m, s, i, k);
    record::set_mark(out, m, mark);
}

// The product of the integer n and the tree of k records at record i; it and the integer have the mark.
fn write_pair(out: &mut [u8], m: usize, n: u64, mark: usize, s: &[u8], i: usize, k: usize)
    requires { ((t : Tree) × Sized s.now i k t × Light (paired mark n t)) × ((m + (k + 2)) * 16 ≤ length out.old) }
    ensures { (t : Tree) → Sized s.now i k t
        → out.new ≡ put out.old (m * 16) (encode_by note (paired mark n t)) }
{
    record::write_record(out, m, record::PRODUCT, PAIR, mark, 0);
    record::write_record(out, m + 1, record::INTEGER, 0, mark, n);
    copy_tree(out, m + SECOND, s, i, k);
    note::close(out, m);
}

// The product of k records at record i with the integer n appended last; it and the integer have the mark.
fn write_longer(out: &mut [u8], m: usize, n: u64, mark: usize, s: &[u8], i: usize, k: usize)
    requires { ((μ : ℕ) × (f : Forest) × Sized s.now i k (product μ f) × Light (lengthened mark n f))
        × ((m + (k + 1)) * 16 ≤ length out.old) }
    ensures { (μ : ℕ) (f : Forest) → Sized s.now i k (product μ f)
        → out.new ≡ put out.old (m * 16) (encode_by note (lengthened mark n f)) }
{
    record::write_record(out, m, record::PRODUCT, record::count(s, i) + 1, mark, 0);
    stretch::copy_bytes(
        out,
        (m + 1) * record::SIZE,
        s,
        (i + 1) * record::SIZE,
        (k - 1) * record::SIZE,
    );
    record::write_record(out, m + k, record::INTEGER, 0, mark, n);
    note::close(out, m);
}

// The coefficient n times the tree at record i, which is no integer: a product gets the coefficient appended last, any other tree stands
// after it; 1 times the tree is the tree. What is written has the mark at its root, and so has the coefficient.
fn write_times(out: &mut [u8], m: usize, n: u64, mark: usize, s: &[u8], i: usize) -> usize
    requires mark_bound { mark < 65536 }
    requires told { (t : Tree) × Told note s.now i t × Fitting (timed mark n t) out.old m × (as_integer t ≡ none) }
    ensures { (t : Tree) → Told note s.now i t → WrittenIs (timed mark n t) out.old out.new m (Ok result) }
{
    let k = split::skip_tree(s, i) - i;
    if n == 1 {
        copy_marked(out, m, s, i, k, mark);
        return m + k;
    }
    match Kind::at(s, i) {
        Kind::Product => {
            write_longer(out, m, n, mark, s, i, k);
            m + k + 1
        }
        _ => {
            write_pair(out, m, n, mark, s, i, k);
            m + k + SECOND
        }
    }
}

// The members of the product at record i that are no integers, one after the other; answers the record after them.
fn copy_others(out: &mut [u8], m: usize, s: &[u8], i: usize) -> usize
    requires { (μ : ℕ) × (f : Forest) × Told note s.now i (product μ f)
        × ((m + recordses (of_list (others_of (to_list f)))) * 16 ≤ length out.old) }
    ensures { (μ : ℕ) (f : Forest) → Told note s.now i (product μ f)
        → (result ≡ m + recordses (of_list (others_of (to_list f))))
        × (out.new ≡ put out.old (m * 16) (encodes_by note (of_list (others_of (to_list f))))) }
{
    let mut to = m;
    let mut at = i + 1;
    for _ in 0..record::count(s, i) {
        let e = split::skip_tree(s, at);
        if Kind::at(s, at) != Kind::Integer {
            copy_tree(out, to, s, at, e - at);
            to += e - at;
        }
        at = e;
    }
    to
}

// The coefficient n times the product at record i without its integers, of `many` members: the coefficient is appended last, unless it
// is 1. The product and the coefficient have the mark.
fn write_without(
    out: &mut [u8],
    m: usize,
    n: u64,
    mark: usize,
    s: &[u8],
    i: usize,
    many: usize,
) -> usize
    requires mark_bound { mark < 65536 }
    requires lessened { (t : Tree) × Lessened note s.now i many t × Fitting (timed mark n t) out.old m }
    ensures { (t : Tree) → Lessened note s.now i many t → WrittenIs (timed mark n t) out.old out.new m (Ok result) }
{
    if n == 1 {
        record::write_record(out, m, record::PRODUCT, many, mark, 0);
        let end = copy_others(out, m + 1, s, i);
        note::close(out, m);
        return end;
    }
    record::write_record(out, m, record::PRODUCT, many + 1, mark, 0);
    let e = copy_others(out, m + 1, s, i);
    record::write_record(out, e, record::INTEGER, 0, mark, n);
    note::close(out, m);
    e + 1
}

// The coefficient n times the rest of the member at record i, whose mark it takes.
fn write_term(out: &mut [u8], m: usize, n: u64, s: &[u8], i: usize) -> usize
    requires { (c : Term) × ShowsTerm s.now n i c × Fitting (from_term c) out.old m }
    ensures { (c : Term) → ShowsTerm s.now n i c → WrittenIs (from_term c) out.old out.new m (Ok result) }
{
    let mark = record::mark(s, i);
    let rest = split::rest_of(s, i);
    match rest {
        split::Rest::One => {
            record::write_record(out, m, record::INTEGER, 0, mark, n);
            m + 1
        }
        split::Rest::At(j) => write_times(out, m, n, mark, s, j),
        split::Rest::Others(j, many) => write_without(out, m, n, mark, s, j, many),
    }
}

// The base of k records at record i with the exponent e, unless that is 1. What is written has the mark at its root, and so has the
// exponent.
fn write_power(out: &mut [u8], m: usize, e: u64, s: &[u8], i: usize, k: usize, mark: usize) -> usize
    requires { (c : Factor) × ShowsPower s.now e i k mark c × Fitting (from_factor c) out.old m }
    ensures { (c : Factor) → ShowsPower s.now e i k mark c → WrittenIs (from_factor c) out.old out.new m (Ok result) }
{
    if e == 1 {
        copy_marked(out, m, s, i, k, mark);
        return m + k;
    }
    record::write_record(out, m, record::POWER, 0, mark, 0);
    copy_tree(out, m + 1, s, i, k);
    record::write_record(out, m + 1 + k, record::INTEGER, 0, mark, e);
    note::close(out, m);
    m + AROUND + k
}

// The integer base v, its mark being b, with the exponent e, unless that is 1. What is written has the mark at its root, and so has the
// exponent.
fn write_number(out: &mut [u8], m: usize, e: u64, v: u64, b: usize, mark: usize) -> usize
    requires { (c : Factor) × ShowsNumber e v b mark c × Fitting (from_factor c) out.old m }
    ensures { (c : Factor) → ShowsNumber e v b mark c → WrittenIs (from_factor c) out.old out.new m (Ok result) }
{
    if e == 1 {
        record::write_record(out, m, record::INTEGER, 0, mark, v);
        return m + 1;
    }
    record::write_record(out, m, record::POWER, 0, mark, 0);
    record::write_record(out, m + 1, record::INTEGER, 0, b, v);
    record::write_record(out, m + SECOND, record::INTEGER, 0, mark, e);
    note::close(out, m);
    m + NUMBER
}

// The member that a part becomes: the record after it.
pub fn write_part(out: &mut [u8], m: usize, s: &[u8], c: Part) -> Result<usize, OutOfRange>
    requires { (b : Bool) × (x : Like b) × Shows b s.now c x × Fitting (join b x) out.old m }
    ensures { (b : Bool) (x : Like b) → Shows b s.now c x
        → WrittenIs (join b x) out.old out.new m result }
{
    match c {
        Part::Term(n, i) => Ok(write_term(out, m, n, s, i)),
        Part::Wide(_) => Err(OutOfRange),
        Part::Power {
            exponent,
            base,
            size,
            mark,
        } => { Ok(write_power(out, m, exponent, s, base, size, mark)) }
        Part::Number {
            exponent,
            base,
            base_mark,
            mark,
        } => { Ok(write_number(out, m, exponent, base, base_mark, mark)) }
    }
}
