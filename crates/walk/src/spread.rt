// A number of a tree by which members are told apart that notes do not: it goes by all bits of its leaves and not through a key. Every record adds its
// share, whatever its place, so equal trees have one spread; the head of a product adds nothing, so the rest of a term is added up from its members.
ghost use Rattle.std.specs.Prelude.{◌≡◌, ℕ, ◌+◌, ◌*◌, ◌%◌, ◌≤◌, length};
ghost use Rattle.paper.specs.Limits.{modulus};
ghost use Rattle.paper.specs.Tree.{Tree, Forest, product, to_list};
ghost use Rattle.paper.specs.Rules.{term_of, product_term};
ghost use Rattle.split.specs.Standing.{Told, SomeTold, SomeProduct};
ghost use Rattle.walk.specs.Spread.{stirred, share_in, spread, rest_spread};

use record::kinds::Kind;

// What a head adds for each unit of its kind, and what is added to a leaf's bits.
const KIND: u64 = 0x5a_8279_9950_7d31;

// What stirs a number, and its two halves of 32 bits.
const FACTOR: u64 = 0x9e37_79b9_7f4a_7c15;

const HALF: u64 = 0x1_0000_0000;

// v stirred, so that no simple relation brings sums of such numbers to agree.
pub fn stirred(v: u64) -> u64
    ensures { result ≡ stirred v }
{
    let y = number::wrapping_mul(v, FACTOR);
    let low = y % HALF;
    let high = y / HALF;
    (low + high) % HALF * high + low
}

// The share of record i: of a leaf by its kind and its bits, of the head of a sum or a power by its kind, of that of a product none.
fn share(s: &[u8], i: usize) -> u64
    requires { i * 16 + 16 ≤ length s.now }
    ensures { result ≡ share_in s.now i }
{
    // By the byte itself, and not by `Kind`: the contract is about any record, also one whose first byte names no kind.
    let k = record::kind(s, i);
    if k < record::SUM {
        return stirred(record::bits(s, i).wrapping_add(k as u64 * KIND));
    }
    if k == record::PRODUCT {
        return 0;
    }
    k as u64 * KIND
}

// The spread of the tree at record i.
pub fn spread(s: &[u8], i: usize) -> u64
    requires { SomeTold s.now i }
    ensures { (how : Tree → ℕ) (t : Tree) → Told how s.now i t → result ≡ spread t % modulus }
{
    let end = split::skip_tree(s, i);
    let mut sum: u64 = 0;
    for j in i..end {
        sum = sum.wrapping_add(share(s, j));
    }
    sum
}

// The spread of the rest of the product at record i: those of its members that are no integers, added up.
fn others_spread(s: &[u8], i: usize) -> u64
    requires { SomeProduct s.now i }
    ensures { (how : Tree → ℕ) (μ : ℕ) (f : Forest) → Told how s.now i (product μ f)
        → result ≡ rest_spread (product_term μ (to_list f)).rest % modulus }
{
    let mut sum: u64 = 0;
    let mut at = i + 1;
    for _ in 0..record::count(s, i) {
        if Kind::at(s, at) != Kind::Integer {
            sum = sum.wrapping_add(spread(s, at));
        }
        at = split::skip_tree(s, at);
    }
    sum
}

// The spread of the rest of the term at record i; that of the rest 1 is 0.
pub fn rest_spread(s: &[u8], i: usize) -> u64
    requires { SomeTold s.now i }
    ensures { (how : Tree → ℕ) (t : Tree) → Told how s.now i t → result ≡ rest_spread (term_of t).rest % modulus }
{
    match Kind::at(s, i) {
        Kind::Integer => 0,
        Kind::Product => others_spread(s, i),
        _ => spread(s, i),
    }
}
