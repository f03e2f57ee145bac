// The test by keys that no rule applies at a node: the keys of its members' parts are read off their notes, and kept in scratch to see
// whether any two are the same. Where none are, and no member is one that a rule looks for, none need be asked.
#![tactic(auto)]

ghost use Rattle.std.specs.Prelude.{◌≡◌, not, List, [], ℕ, ◌+◌, ◌*◌, ◌^◌, ◌≤◌, ◌<◌, length};
ghost use Rattle.paper.specs.Tree.{Tree, Forest, to_list, weight};
ghost use Rattle.paper.specs.Standing.{kind_number};
ghost use Rattle.note.specs.Note.{keys, note};
ghost use Rattle.note.specs.Noted.{TreeBy, TreesBy};
ghost use Rattle.still.specs.Still.{among, sought, apart, still_by};
ghost use Rattle.still.specs.Met.{met_of};
ghost use Rattle.still.specs.Keys.{flag_of, turned, KeysIn, KeptIn, keeping, Scratched, Testable};

use note::KEYS;
use record::kinds::Kind;

// The bytes of a key and of its flags in scratch, of both, and of scratch for each unit of a tree's weight.
const KEY_BYTES: usize = 8;

const FLAG_BYTES: usize = 32;

const PLACE: usize = 40;

const UNIT: usize = 16;

// The flags for each key, one a byte.
const FLAGS: u64 = 32;

// What a factor is multiplied by for the second flag.
const TURNS: u64 = 0x85eb_ca6b;

// From so many members on there are flags.
const MANY: usize = 9;

// The edition that has rules for powers.
const EDITION_TWO: usize = 2;

// The key is one of the m that are kept from byte o on.
fn is_kept(d: &[u8], o: usize, m: usize, key: u64) -> bool
    requires { (ks : List ℕ) × KeysIn d.now o m ks }
    ensures { (ks : List ℕ) → KeysIn d.now o m ks → result ≡ among key ks }
{
    (0..m).any(|j| key == number::read8(d, o + j * KEY_BYTES))
}

// The place of the key's flag by the factor x.
fn flag_at(o: usize, n: usize, x: u64, key: u64) -> usize
    requires { (n < 65536) × (0 < n) × (o + n * 40 < 2 ^ 63) × (x < keys) }
    ensures { (result ≡ o + n * 8 + flag_of n x key) × (result < o + n * 40) }
{
    let half = note::key_of(key) * x % KEYS;
    o + n * KEY_BYTES + (half * (FLAGS * n as u64) / KEYS) as usize
}

// The factor of the second flag.
fn turned(x: u64) -> u64
    requires { x < keys }
    ensures { (result ≡ turned x) × (result < keys) }
{
    x * TURNS % KEYS
}

// No key that is kept is this one: one of its two flags is still zero, or else the keys are looked through.
fn is_new(d: &[u8], o: usize, n: usize, x: u64, m: usize, key: u64) -> bool
    requires { (ks : List ℕ) × KeptIn d.now o n x m ks }
    ensures { (ks : List ℕ) → KeptIn d.now o n x m ks → result ≡ not (among key ks) }
{
    d[flag_at(o, n, x, key)] < 1 || d[flag_at(o, n, turned(x), key)] < 1 || !is_kept(d, o, m, key)
}

// Keeps the key as the m-th, and sets its flags.
fn keep_key(d: &mut [u8], o: usize, n: usize, x: u64, m: usize, key: u64)
    requires { (ks : List ℕ) × KeptIn d.old o n x m ks }
    ensures { d.new ≡ keeping d.old o n x m key }
{
    let f = flag_at(o, n, x, key);
    d[f] = 1;
    let g = flag_at(o, n, turned(x), key);
    d[g] = 1;
    number::write8(d, o + m * KEY_BYTES, key);
}

// The tree of kind k at record i is an integer that steps 1, 3 and 4 look for: 0, and in a product 1.
fn is_sought(s: &[u8], i: usize, k: u8, terms: bool) -> bool
    requires { (t : Tree) × TreeBy note s.now i t × (k ≡ kind_number t) }
    ensures { (t : Tree) → TreeBy note s.now i t → k ≡ kind_number t → result ≡ sought terms t }
{
    if record::INTEGER < k {
        return false;
    }
    let v = record::bits(s, i);
    if terms {
        return v < 1;
    }
    v < 2
}

// What is kept of a member that no rule looks for: its part's key, and its number of records.
#[derive(Clone, Copy)]
struct Met {
    key: u64,
    size: usize,
}

// What is kept of the tree at record i, a member of a sum or a product; nothing where it is such an integer. It is a part of both loops:
// as a call it was slower by a tenth.
#[inline(always)]
fn meet(s: &[u8], i: usize, terms: bool) -> Option<Met>
    requires { (t : Tree) × TreeBy note s.now i t }
    ensures { (t : Tree) → TreeBy note s.now i t → result ≡ met_of terms t }
{
    let k = record::kind(s, i);
    if is_sought(s, i, k, terms) {
        return None;
    }
    let v = note::note_at(s, i);
    let key = note::part_key(s, i, k, v, terms);
    let size = note::records_of(v);
    Some(Met { key, size })
}

// None of the n trees from record i on, the members of a sum or a product, is such an integer, and no two of their parts have one key; the
// keys are kept in d from byte o on.
fn members_apart(s: &[u8], i: usize, n: usize, d: &mut [u8], o: usize, x: u64, terms: bool) -> bool
    requires trees_by { (f : Forest) × TreesBy note s.now i n f }
    requires n_in_bounds { (o + n * 40 ≤ length d.old) × (x < keys) }
    ensures value { (f : Forest) → TreesBy note s.now i n f → result ≡ apart terms [] (to_list f) }
    ensures around { Scratched d.old d.new o (n * 40) }
{
    let mut at = i;
    for m in 0..n {
        let Some(met) = meet(s, at, terms) else {
            return false;
        };
        if !is_new(d, o, n, x, m, met.key) {
            return false;
        }
        keep_key(d, o, n, x, m, met.key);
        at += met.size;
    }
    true
}

// The same without flags, where the members are few: each key is looked for among those before it. One loop for both would take the flags
// as an Option and match on it at each look and each store, which is no plainer.
fn few_apart(s: &[u8], i: usize, n: usize, d: &mut [u8], o: usize, terms: bool) -> bool
    requires trees_by { (f : Forest) × TreesBy note s.now i n f }
    requires n_in_bounds { o + n * 8 ≤ length d.old }
    ensures value { (f : Forest) → TreesBy note s.now i n f → result ≡ apart terms [] (to_list f) }
    ensures around { Scratched d.old d.new o (n * 8) }
{
    let mut at = i;
    for m in 0..n {
        let Some(met) = meet(s, at, terms) else {
            return false;
        };
        if is_kept(d, o, m, met.key) {
            return false;
        }
        number::write8(d, o + m * KEY_BYTES, met.key);
        at += met.size;
    }
    true
}

// The test at the sum or product of kind k at record i: where there is room for its members' keys, with the flags cleared first unless the
// members are few. The factor of the flags is one that the node's key names: any number is right.
fn still_members(s: &[u8], i: usize, k: u8, d: &mut [u8], o: usize) -> bool
    requires le_k { (2 ≤ k) × (k < 4) }
    requires testable { (t : Tree) × Testable s.now i k d.old o t }
    ensures value { (t : Tree) (edition : ℕ) → TreeBy note s.now i t → k ≡ kind_number t → result ≡ still_by edition t }
    ensures around { (t : Tree) → TreeBy note s.now i t → Scratched d.old d.new o (16 * weight t) }
{
    let n = record::count(s, i);
    let w = note::weight_of(record::bits(s, i));
    if UNIT * w < PLACE * n {
        return false;
    }
    let terms = k < record::PRODUCT;
    if n < MANY {
        return few_apart(s, i + 1, n, d, o, terms);
    }
    stretch::clear(d, o + n * KEY_BYTES, n * FLAG_BYTES);
    let x = note::odd_key(s, i) % KEYS;
    members_apart(s, i + 1, n, d, o, x, terms)
}

// The test at the power at record i: its base is no power, and neither 0 nor 1, and its exponent, which is its last record, is not 1.
fn still_power(s: &[u8], i: usize) -> bool
    requires { (t : Tree) × TreeBy note s.now i t × (kind_number t ≡ 4) }
    ensures { (t : Tree) → TreeBy note s.now i t → kind_number t ≡ 4 → result ≡ still_by 2 t }
{
    let k = record::kind(s, i + 1);
    if record::PRODUCT < k || is_sought(s, i + 1, k, false) {
        return false;
    }
    let size = note::records_of(record::bits(s, i));
    record::bits(s, i + size - 1) != 1
}

// No rule of the edition applies at the tree at record i, as far as keys tell: where it is false, the rules are to be asked. Scratch is
// in d from byte o on, 16 bytes for each unit of the tree's weight.
pub fn still(s: &[u8], i: usize, d: &mut [u8], o: usize, edition: usize) -> bool
    requires { (t : Tree) × TreeBy note s.now i t × (o + 16 * weight t ≤ length d.old) }
    ensures value { (t : Tree) → TreeBy note s.now i t → result ≡ still_by edition t }
    ensures around { (t : Tree) → TreeBy note s.now i t → Scratched d.old d.new o (16 * weight t) }
{
    match Kind::at(s, i) {
        Kind::Integer | Kind::Symbol => true,
        Kind::Power => edition != EDITION_TWO || still_power(s, i),
        k => still_members(s, i, k.number(), d, o),
    }
}
