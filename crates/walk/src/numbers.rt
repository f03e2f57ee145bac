// Members that keys do not tell apart: any two integers may be like, as bases, by their exponents or by themselves, so such members share one key; others
// share 15 bits of it, or all, by chance or because they were searched for. Were they compared two by two, many of them would cost the square. So the
// entries that have no bit yet are put down at flags, bytes of `out` that are free at that time: an integer base at one for the exponent and at one for
// itself, any other member at one for its spread. Like ones share a flag. An entry that finds its flags free gets its bit, and loses it to the next one there;
// those that shared a flag by chance are put down again by another factor.
ghost use Rattle.std.specs.Prelude.{◌≡◌, ℕ, ◌+◌, ◌*◌, ◌<◌, ◌≤◌, Bool, true, List, length, nat_lt};
ghost use Rattle.paper.specs.Limits.{modulus};
ghost use Rattle.paper.specs.Tree.{Tree};
ghost use Rattle.split.specs.Standing.{Told, SomeTold};
ghost use Rattle.walk.specs.Listed.{Entry, Listed};
ghost use Rattle.walk.specs.Numbers.{place_of, first_flag, second_flag, filled, Numbered, Unmarked, Put, MarkedIf, Visited, ToldMore};

use crate::{ENTRY, HIGH_AT, lone, spread};
use record::kinds::Kind;

// So many rounds at most.
const ROUNDS: usize = 4;

// So many open entries at least are worth a round, and so many pairs of one of them and another.
const FEW: usize = 2;

const PAIRS: usize = 128;

// So many entries at the front, where all of them are open, are enough to take all for open.
const FRONT: usize = 64;

// So many entries about are tried first, and so many of them that share a flag say that a round is in vain.
const TRIES: usize = 16;

const VAIN: usize = 4;

// So many eighths of the flags for each open entry.
const SPARSE: usize = 8;

// The flags of an eighth, half of them, and the bytes of a flag.
const EIGHTH: usize = 8;

const HALF: usize = 4;

const FLAG: usize = 2;

// So many times those that share a flag are more than all: the next round is in vain. So many times those are open after it.
const CROWDED: usize = 3;

const AGAIN: usize = 2;

// A half of the bits of a number.
const WORD: u64 = 0x1_0000_0000;

// What makes the factor of the first round of a number, and that of factors.
const FACTOR: u64 = 0x9e37_79b9_7f4a_7c15;

const NEXT: u64 = 0xd6e8_feb8_6659_fd93;

// A round over the n listed members of the node at record p, a sum (terms) or a product: 8 m flags, and the factor f.
#[derive(Clone, Copy)]
struct Round {
    p: usize,
    n: usize,
    m: usize,
    f: u64,
    terms: bool,
}

// The two flags of a member, or what they held.
#[derive(Clone, Copy)]
struct Pair {
    first: usize,
    second: usize,
}

// Which of n flags the number v has.
fn place(v: u64, n: usize, f: u64) -> usize
    requires { (0 < n) × (n < 1048576) }
    ensures { (result ≡ place_of f n v) × (result < n) }
{
    let x = number::wrapping_mul(spread::stirred(v), f);
    (x / WORD * n as u64 / WORD) as usize
}

// The flags of the member at record i, among those of the round.
fn flags_of(s: &[u8], i: usize, round: Round) -> Pair
    requires { SomeTold s.now i × (0 < round.m) × (round.m < 65536) }
    ensures { (result.first < round.m * 8) × (result.second < round.m * 8) × ((how : Tree → ℕ) (t : Tree) → Told how s.now i t
        → (result.first ≡ first_flag round.terms round.f round.m t) × (result.second ≡ second_flag round.terms round.f round.m t)) }
{
    if round.terms {
        let first = place(spread::rest_spread(s, i), EIGHTH * round.m, round.f);
        return Pair {
            first,
            second: first,
        };
    }
    let b = split::base(s, i);
    if Kind::at(s, b) == Kind::Integer {
        let first = place(split::exponent(s, i), HALF * round.m, round.f);
        let y = place(record::bits(s, b), HALF * round.m, round.f);
        return Pair {
            first,
            second: HALF * round.m + y,
        };
    }
    let first = place(spread::spread(s, b), EIGHTH * round.m, round.f);
    Pair {
        first,
        second: first,
    }
}

// Writes entry k at the flag at byte a, which held x, where it held none.
fn fill(out: &mut [u8], a: usize, x: usize, k: usize)
    requires { (a + 2 ≤ length out.old) × (k < 65535) }
    ensures { out.new ≡ filled out.old a x k }
{
    if x < 1 {
        out[a..a + FLAG].copy_from_slice(&((k + 1) as u16).to_le_bytes());
    }
}

// Takes the bit from the entry that a flag held as x, if it is one before entry k.
fn unmark(work: &mut [u8], x: usize, k: usize)
    requires { k * 4 ≤ length work.old }
    ensures { Unmarked work.old work.new x k }
{
    if 0 < x && x <= k {
        let b = x * ENTRY - 1;
        work[b] %= lone::BIT;
    }
}

// Puts entry k down at its flags, which lie from byte `at` of `out` on; what they held.
fn put(out: &mut [u8], work: &[u8], at: usize, k: usize, round: Round) -> Pair
    requires k_in_bounds { ((t : Tree) × Entry round.terms work.now round.p k t) × (k * 4 + 4 ≤ length work.now) × (k < 65535) }
    requires m_nonzero { (0 < round.m) × (round.m < 65536) × (at + round.m * 16 ≤ length out.old) }
    ensures { (t : Tree) → Entry round.terms work.now round.p k t
        → Put round.terms out.old out.new at k round.m round.f t result.first result.second }
{
    let v = flags_of(work, round.p + number::read2(work, k * ENTRY), round);
    let a = at + v.first * FLAG;
    let b = at + v.second * FLAG;
    let first = number::read2(out, a);
    let second = number::read2(out, b);
    fill(out, a, first, k);
    fill(out, b, second, k);
    Pair { first, second }
}

// Gives entry k its bit, where bits are given and its flags held none.
fn mark(work: &mut [u8], k: usize, marks: bool)
    requires { k * 4 + 4 ≤ length work.old }
    ensures { MarkedIf marks work.old work.new k }
{
    if marks {
        let c = k * ENTRY + HIGH_AT;
        work[c] = lone::lone_byte(work[c], 1);
    }
}

// Puts entry k down, if it is open: it gets its bit, if bits are given, where its flags held none, else those that they held lose theirs.
// Answers whether it shares a flag.
fn visit(out: &mut [u8], work: &mut [u8], at: usize, k: usize, round: Round, marks: bool) -> bool
    requires { Numbered round.terms work.old round.p round.n × (k < round.n) × (0 < round.m) × (round.m ≤ round.n)
        × (at + round.n * 16 ≤ length out.old) }
    ensures { (t : Tree) → Entry round.terms work.old round.p k t
        → Visited round.terms out.old out.new work.old work.new at k round.n round.m round.f marks t }
{
    if !is_open(work[k * ENTRY + HIGH_AT]) {
        return false;
    }
    let h = put(out, work, at, k, round);
    unmark(work, h.first, k);
    unmark(work, h.second, k);
    if 0 < h.first + h.second {
        return true;
    }
    mark(work, k, marks);
    false
}

// How far it is from one entry to the next that is put down: all of n are, or about TRIES of them.
fn stride(n: usize, all: bool) -> usize
    requires { n < 65536 }
    ensures { (1 ≤ result) × (result < 65537) × (all ≡ true → result ≡ 1) }
{
    if all { 1 } else { n / TRIES + 1 }
}

// Puts the entries of a round down, or some of them if no bits are given, at flags behind record d; how many share a flag.
fn put_down(out: &mut [u8], work: &mut [u8], d: usize, round: Round, marks: bool) -> usize
    requires { Numbered round.terms work.old round.p round.n × (0 < round.m) × (round.m ≤ round.n)
        × ((d + 1) * 16 + round.n * 16 ≤ length out.old) }
    ensures { (result < 131073)
        × ToldMore round.terms out.old out.new work.old work.new d round.p round.n }
{
    let at = (d + 1) * record::SIZE;
    stretch::clear(out, at, round.m * record::SIZE);
    let mut shared = 0;
    for k in (0..round.n).step_by(stride(round.n, marks)) {
        shared += usize::from(visit(out, work, at, k, round, marks));
    }
    shared
}

// An entry with this high byte of its key is open.
fn is_open(high: u8) -> bool
    ensures { result ≡ nat_lt high 128 }
{
    high < lone::BIT
}

// How many of n entries are open.
fn count_open(work: &[u8], n: usize) -> usize
    requires { (n < 65536) × (n * 4 ≤ length work.now) }
    ensures { result ≤ n }
{
    (0..n)
        .filter(|k| is_open(work[*k * ENTRY + HIGH_AT]))
        .count()
}

// The same of so many that it is seen at the front: where all there are open all n are taken for it.
fn many_open(work: &[u8], n: usize) -> usize
    requires { (n < 65536) × (n * 4 ≤ length work.now) }
    ensures { result ≤ n }
{
    if n <= FRONT {
        return count_open(work, n);
    }
    if count_open(work, FRONT) == FRONT {
        return n;
    }
    count_open(work, n)
}

// A round over n entries of which m are open pays.
fn pays(m: usize, n: usize) -> bool
    requires { (m < 65536) × (n < 65536) }
    ensures { result ≡ true → 0 < m }
{
    FEW <= m && PAIRS <= m * n
}

// The factor of the first round for the members of the node at record p, which the node's own key names: any number is right.
fn factor(work: &[u8], p: usize) -> u64
    requires { p * 16 + 16 ≤ length work.now }
    ensures { result < modulus }
{
    number::wrapping_mul(note::odd_key(work, p), FACTOR)
}

// Eighths of the flags for n entries of which m are open: the fewer they are the less they share one.
fn room(m: usize, n: usize) -> usize
    requires { (m < 65536) × (0 < m) × (m ≤ n) }
    ensures { (result ≤ n) × (0 < result) }
{
    n.min(m * SPARSE)
}

// Tells of more members that they are like no other, where the keys are told: about twice as many are open after a round as share a flag in it.
pub fn tell_numbers(out: &mut [u8], work: &mut [u8], d: usize, p: usize, n: usize, terms: bool)
    requires { ((l : List Tree) × Listed terms work.old p n l) × (0 < n) × (n < 65536) × ((d + 1) * 16 + n * 16 ≤ length out.old) }
    ensures { ToldMore terms out.old out.new work.old work.new d p n }
{
    let mut m = many_open(work, n);
    if !pays(m, n) {
        return;
    }
    let mut f = factor(work, p);
    let tried = Round { p, n, m, f, terms };
    if VAIN <= put_down(out, work, d, tried, false) {
        return;
    }
    for _ in 0..ROUNDS {
        let round = Round {
            m: room(m, n),
            f,
            ..tried
        };
        let shared = put_down(out, work, d, round, true);
        if m < shared * CROWDED {
            return;
        }
        if !pays(shared * AGAIN, n) {
            return;
        }
        m = shared * AGAIN;
        f = number::wrapping_mul(f, NEXT);
    }
}
