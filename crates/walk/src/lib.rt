// The walk of steps 2 and 6 over the members of one node: each current member against each later one; where one takes up another, the
// last member moves into its place and is looked at next. The members' starts and 15 bits of their parts' keys stand at the front of
// `work`, the members that come out in `out`. A part takes up another only where their keys are the same, so one whose 15 bits are
// others is passed by without a comparison; a member that is alone with its 15 bits, and stays, is copied at once (`lone`).
#![tactic(auto)]

ghost use Rattle.std.specs.Prelude.{◌≡◌, ℕ, ◌+◌, ◌*◌, ◌<◌, ◌≤◌, Bool, ◌&&◌, List, length, nat_lt};
ghost use Rattle.paper.specs.Record.{kind};
ghost use Rattle.paper.specs.Tree.{Tree, Forest, product, to_list};
ghost use Rattle.stretch.specs.Put.{part, put};
ghost use Rattle.split.specs.Standing.{Told, SomeTold, SomeProduct};
ghost use Rattle.part.specs.Like.{Like, split, join};
ghost use Rattle.part.specs.Part.{Shows, From, MergedIs, IntoFrom};
ghost use Rattle.walk.specs.Listed.{short_key, entry_of, Entry, Listed, Listable, ListedIs};
ghost use Rattle.walk.specs.Numbers.{AfterTelling};
ghost use Rattle.walk.specs.Stays.{is_coefficient, last_stays, product_stays, factor_stays, stays};
ghost use Rattle.walk.specs.Walked.{key_of, Meeting, Keepable, KeptIs, Turned, Finishing, FinishedIs, answer_of, Walkable, Standing, WalkedIs};

use number::OutOfRange;
use part::Part;
use rebuilt::{PAIR, SECOND};
use record::kinds::Kind;

mod lone;
mod numbers;
mod spread;

// The bytes of an entry; where in it the 15 bits of a key stand, and their high byte.
const ENTRY: usize = 4;

const KEY_AT: usize = 2;

const HIGH_AT: usize = 3;

// So many numbers have 15 bits, as two bytes of an entry hold them and as they are taken from a key.
const KEYS: usize = 0x8000;

const SHORT: u64 = 0x8000;

// So many numbers two bytes have, of a start and of a key.
const STARTS: usize = 0x1_0000;

const LONG: u64 = 0x1_0000;

// So many members at least has a product whose coefficient was appended last.
const LONGER: usize = 3;

// How many members came out of a walk that removed some, where they end, and the record of the only one of them that was no member before.
#[derive(Clone, Copy)]
pub struct Done {
    pub count: usize,
    pub end: usize,
    pub new: Option<usize>,
}

// The turn of a member is done: it stays, up to a record; or it is new, up to a record.
#[derive(Clone, Copy)]
enum Finished {
    Kept(usize),
    New(usize),
}

// Entry k: the member's first record, counted from the node's, and 15 bits of its part's key.
fn write_entry(work: &mut [u8], k: usize, start: usize, key: u64)
    requires { k * 4 + 4 ≤ length work.old }
    ensures { work.new ≡ put work.old (k * 4) (entry_of start key) }
{
    let at = k * ENTRY;
    work[at..at + KEY_AT].copy_from_slice(&((start % STARTS) as u16).to_le_bytes());
    work[at + KEY_AT..at + ENTRY].copy_from_slice(&((key % LONG) as u16).to_le_bytes());
}

// Writes the entries of the members of the node at record p, a sum (terms) or a product.
fn list_members(work: &mut [u8], p: usize, terms: bool)
    requires { (f : Forest) × Listable work.old p f }
    ensures { (f : Forest) → Listable work.old p f → ListedIs terms work.old work.new p f }
{
    let mut at = p + 1;
    for k in 0..record::count(work, p) {
        let v = note::note_at(work, at);
        let key = note::part_key(work, at, record::kind(work, at), v, terms);
        write_entry(work, k, at - p, note::key_of(key) % SHORT);
        at += note::records_of(v);
    }
}

// The part of the member of entry i.
fn current(s: &[u8], p: usize, i: usize, terms: bool) -> Part
    requires { (t : Tree) × Entry terms s.now p i t × (i * 4 + 4 ≤ length s.now) }
    ensures shows { (t : Tree) → Entry terms s.now p i t → Shows terms s.now result (split terms t) }
    ensures place { From p result }
{
    let start = p + number::read2(s, i * ENTRY);
    part::part_of(s, start, split::skip_tree(s, start) - start, terms)
}

// The current part, with 15 bits of its key, where it meets the member of entry j.
fn meet(
    s: &[u8],
    c: Part,
    key: usize,
    p: usize,
    j: usize,
    ticks: &mut [u8],
) -> Result<Option<Part>, OutOfRange>
    requires { Meeting s.now c key p j (length ticks.old) }
    ensures merged_is { (b : Bool) (x : Like b) (t : Tree) → Shows b s.now c x → key ≡ short_key (key_of b x)
        → Entry b s.now p j t → MergedIs b s.now x (split b t) result }
    ensures place { From p c → IntoFrom p result }
{
    if number::read2(s, j * ENTRY + KEY_AT) % KEYS != key {
        return Ok(None);
    }
    let start = p + number::read2(s, j * ENTRY);
    part::merge(s, c, start, ticks)
}

// The last entry, n, moves into the place of entry j, which is the one to look at next.
fn remove(work: &mut [u8], j: usize, n: usize) -> usize
    requires { (j ≤ n) × (n * 4 + 4 ≤ length work.old) }
    ensures { (work.new ≡ put work.old (j * 4) (part work.old (n * 4) 4)) × (result ≡ j) }
{
    stretch::shift_left(work, j * ENTRY, n * ENTRY, ENTRY);
    j
}

// An integer stands at record i that is written as a coefficient: it is not 1, and has the mark.
fn is_coefficient(s: &[u8], i: usize, mark: usize) -> bool
    requires { SomeTold s.now i }
    ensures { (how : Tree → ℕ) (t : Tree) → Told how s.now i t → result ≡ is_coefficient mark t }
{
    if Kind::at(s, i) != Kind::Integer {
        return false;
    }
    record::bits(s, i) != 1 && record::mark(s, i) == mark
}

// No member of the product at record i is an integer, but for a coefficient after two others or more.
fn last_stays(s: &[u8], i: usize) -> bool
    requires { SomeProduct s.now i }
    ensures { (how : Tree → ℕ) (μ : ℕ) (f : Forest) → Told how s.now i (product μ f)
        → result ≡ last_stays (nat_lt 2 (length (to_list f))) μ (to_list f) }
{
    let n = record::count(s, i);
    let mut at = i + 1;
    for _ in 1..n {
        if Kind::at(s, at) == Kind::Integer {
            return false;
        }
        at = split::skip_tree(s, at);
    }
    if Kind::at(s, at) != Kind::Integer {
        return true;
    }
    LONGER <= n && is_coefficient(s, at, record::mark(s, i))
}

// The product at record i is what its coefficient and its rest become: where it begins with an integer, a coefficient and a rest that is
// no product; else as above.
fn product_stays(s: &[u8], i: usize) -> bool
    requires { SomeProduct s.now i }
    ensures { (how : Tree → ℕ) (μ : ℕ) (f : Forest) → Told how s.now i (product μ f) → result ≡ product_stays μ (to_list f) }
{
    if Kind::at(s, i + 1) != Kind::Integer {
        return last_stays(s, i);
    }
    if PAIR < record::count(s, i) {
        return false;
    }
    match Kind::at(s, i + SECOND) {
        Kind::Integer | Kind::Product => false,
        _ => is_coefficient(s, i + 1, record::mark(s, i)),
    }
}

// The power at record i is what its base and its exponent become: that is not 1, and has the mark.
fn power_stays(s: &[u8], i: usize) -> bool
    requires { SomeTold s.now i × (kind s.now i ≡ 4) }
    ensures { (how : Tree → ℕ) (t : Tree) → Told how s.now i t → result ≡ factor_stays t }
{
    let e = split::skip_tree(s, i + 1);
    record::bits(s, e) != 1 && record::mark(s, e) == record::mark(s, i)
}

// The member at record i, of a sum (terms) or of a product, is what its own part becomes.
fn stays(s: &[u8], i: usize, terms: bool) -> bool
    requires { SomeTold s.now i }
    ensures { (how : Tree → ℕ) (t : Tree) → Told how s.now i t → result ≡ stays terms t }
{
    match Kind::at(s, i) {
        Kind::Product => !terms || product_stays(s, i),
        Kind::Power => terms || power_stays(s, i),
        _ => true,
    }
}

// The member of entry i comes out as it stands: it took up no other, and stays.
fn is_kept(s: &[u8], p: usize, i: usize, alone: bool, terms: bool) -> bool
    requires { (t : Tree) × Entry terms s.now p i t × (i * 4 + 4 ≤ length s.now) }
    ensures { (t : Tree) → Entry terms s.now p i t → result ≡ (alone && stays terms t) }
{
    alone && stays(s, p + number::read2(s, i * ENTRY), terms)
}

// Copies the member of entry i whole where it comes out as it stands; answers the record after it.
fn keep(
    out: &mut [u8],
    e: usize,
    work: &[u8],
    p: usize,
    i: usize,
    alone: bool,
    terms: bool,
) -> Option<usize>
    requires { Keepable terms out.old e work.now p i alone }
    ensures { (t : Tree) → Entry terms work.now p i t
        → KeptIs (alone && stays terms t) t out.old out.new e result }
{
    if is_kept(work, p, i, alone, terms) {
        let start = p + number::read2(work, i * ENTRY);
        let k = split::skip_tree(work, start) - start;
        stretch::copy_bytes(
            out,
            e * record::SIZE,
            work,
            start * record::SIZE,
            k * record::SIZE,
        );
        return Some(e + k);
    }
    None
}

// The turn of the member of entry i is done: where it comes out as it stands it is copied whole, else what its part became is written.
fn finish(
    out: &mut [u8],
    e: usize,
    work: &[u8],
    p: usize,
    i: usize,
    c: Part,
    alone: bool,
    terms: bool,
) -> Result<Finished, OutOfRange>
    requires { Finishing terms out.old e work.now p i c alone }
    ensures { (x : Like terms) (t : Tree) → Turned terms work.now p i c alone x t
        → FinishedIs (alone && stays terms t) (join terms x) t out.old out.new e result }
{
    if let Some(kept) = keep(out, e, work, p, i, alone, terms) {
        return Ok(Finished::Kept(kept));
    }
    let end = rebuilt::write_part(out, e, work, c)?;
    Ok(Finished::New(end))
}

// The answer where n of `count` members came out, up to record e: `late`, one of them is out of range; `new` of them are new, the last at
// record f.
fn answer(
    count: usize,
    n: usize,
    e: usize,
    late: bool,
    new: usize,
    f: usize,
) -> Result<Option<Done>, OutOfRange>
    ensures { result ≡ answer_of count n e late new f }
{
    if count <= n {
        return Ok(None);
    }
    if late {
        return Err(OutOfRange);
    }
    let only = if new == 1 { Some(f) } else { None };
    Ok(Some(Done {
        count: n,
        end: e,
        new: only,
    }))
}

// Tells which of the n listed members are like no other, unless they are too few for that to pay: by their keys, and those that keys do not tell apart by
// exponents, bases and spreads.
fn tell_lone(out: &mut [u8], work: &mut [u8], d: usize, p: usize, n: usize, terms: bool) -> bool
    requires { ((l : List Tree) × Listed terms work.old p n l) × (n < 65536) × ((d + 1) * 16 + n * 16 ≤ length out.old) }
    ensures { AfterTelling terms out.old out.new work.old work.new d p n result }
{
    if !lone::tell_lone(out, work, d, n) {
        return false;
    }
    numbers::tell_numbers(out, work, d, p, n, terms);
    true
}

// The walk over the `count` members that are listed; None, nothing was removed. A member that is rebuilt out of range counts only if
// something is removed.
fn walk(
    out: &mut [u8],
    work: &mut [u8],
    d: usize,
    p: usize,
    count: usize,
    terms: bool,
) -> Result<Option<Done>, OutOfRange>
    requires { (l : List Tree) × Walkable terms out.old work.old d p count l }
    ensures { (l : List Tree) → Walkable terms out.old work.old d p count l
        → WalkedIs terms l out.old out.new work.old work.new d p result }
{
    let told = tell_lone(out, work, d, p, count, terms);
    let mut n = count;
    let mut i = 0;
    let mut e = d + 1;
    let mut late = false;
    let mut over = false;
    let mut new: usize = 0;
    let mut f = 0;
    // Two loops by hand, the outer one left by its label: the range that was exceeded ends both, and n and j move as members go.
    'walk: while i < n {
        let high = work[i * ENTRY + HIGH_AT];
        let alone = lone::is_lone(high, told);
        if let Some(x) = keep(out, e, work, p, i, alone, terms) {
            e = x;
            i += 1;
            continue;
        }
        let mut c = current(work, p, i, terms);
        let key = number::read2(work, i * ENTRY + KEY_AT) % KEYS;
        let had = n;
        let mut j = i + 1;
        while j < n {
            let a = e * record::SIZE;
            match meet(work, c, key, p, j, &mut out[a..]) {
                Ok(None) => j += 1,
                Ok(Some(x)) => {
                    c = x;
                    n -= 1;
                    j = remove(work, j, n);
                }
                Err(OutOfRange) => {
                    over = true;
                    break 'walk;
                }
            }
        }
        match finish(out, e, work, p, i, c, n == had, terms) {
            Ok(Finished::Kept(x)) => e = x,
            Ok(Finished::New(x)) => {
                new += 1;
                f = e;
                e = x;
            }
            Err(OutOfRange) => late = true,
        }
        i += 1;
    }
    if over {
        return Err(OutOfRange);
    }
    answer(count, n, e, late, new, f)
}

// The walk over the members of the node at record p, a sum (terms) or a product: what comes out stands behind record d of `out`; None,
// nothing was removed.
pub fn walk_members(
    out: &mut [u8],
    work: &mut [u8],
    d: usize,
    p: usize,
    terms: bool,
) -> Result<Option<Done>, OutOfRange>
    requires { (f : Forest) × Standing out.old work.old d p f }
    ensures { (f : Forest) → Standing out.old work.old d p f
        → WalkedIs terms (to_list f) out.old out.new work.old work.new d p result }
{
    let n = record::count(work, p);
    list_members(work, p, terms);
    walk(out, work, d, p, n, terms)
}
