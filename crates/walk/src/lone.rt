// Members that are alone with their keys, which the walk need not compare with any other: the entries are counted at flags, bytes of `out`
// that are free at that time, and an entry whose flag counts it alone gets its highest bit set.
ghost use Rattle.std.specs.Prelude.{◌≡◌, ◌+◌, ◌*◌, ◌<◌, ◌≤◌, length};
ghost use Rattle.walk.specs.Lone.{entry_flag, one_more, counted, lone_byte, marked, LoneTold, is_lone};

use crate::{ENTRY, HIGH_AT, KEY_AT, KEYS};

// So many members at least are told apart by flags.
const FEW: usize = 12;

// The flags for each entry, and what scales 15 bits to them.
const FLAGS: usize = 16;

const SCALE: usize = 0x800;

// What a flag counts beyond one.
const SEVERAL: u8 = 2;

// The bit of an entry, in the high byte of its key, and the highest byte without it.
pub const BIT: u8 = 0x80;

pub const NO_BIT: u8 = 0x7f;

// The flag of entry k among the 16 n of n entries: the 15 bits of its key, scaled.
fn flag_of(work: &[u8], k: usize, n: usize) -> usize
    requires { (k < n) × (n < 65536) × (n * 4 ≤ length work.now) }
    ensures { (result ≡ entry_flag work.now n k) × (result < n * 16) }
{
    number::read2(work, k * ENTRY + KEY_AT) % KEYS * n / SCALE
}

// A count with one more.
fn more(count: u8) -> u8
    ensures { result ≡ one_more count }
{
    if count < 1 {
        return 1;
    }
    SEVERAL
}

// Counts the n entries at their flags, which lie from byte `at` of `out` on.
fn count_flags(out: &mut [u8], work: &[u8], at: usize, n: usize)
    requires { (n < 65536) × (n * 4 ≤ length work.now) × (at + n * 16 ≤ length out.old) }
    ensures { out.new ≡ counted out.old work.now at n n }
{
    for k in 0..n {
        let a = at + flag_of(work, k, n);
        out[a] = more(out[a]);
    }
}

// The high byte of an entry's key, with the bit for an entry that its flag counts alone.
pub fn lone_byte(high: u8, count: u8) -> u8
    ensures { result ≡ lone_byte high count }
{
    if count == 1 {
        return high % BIT + BIT;
    }
    high % BIT
}

// Gives each of the n entries its bit, by the flags from byte `at` of `out` on.
fn mark_lone(work: &mut [u8], out: &[u8], at: usize, n: usize)
    requires { (n < 65536) × (n * 4 ≤ length work.old) × (at + n * 16 ≤ length out.now) }
    ensures { work.new ≡ marked work.old out.now at n n }
{
    for k in 0..n {
        let a = at + flag_of(work, k, n);
        let b = k * ENTRY + HIGH_AT;
        work[b] = lone_byte(work[b], out[a]);
    }
}

// Tells which of the n listed members are alone with their keys, by flags behind record d, unless they are too few for that to pay.
pub fn tell_lone(out: &mut [u8], work: &mut [u8], d: usize, n: usize) -> bool
    requires { (n < 65536) × (n * 4 ≤ length work.old) × ((d + 1) * 16 + n * 16 ≤ length out.old) }
    ensures { LoneTold out.old out.new work.old work.new d n result }
{
    if n < FEW {
        return false;
    }
    let at = (d + 1) * record::SIZE;
    stretch::clear(out, at, n * FLAGS);
    count_flags(out, work, at, n);
    mark_lone(work, out, at, n);
    true
}

// The bits are told, and an entry with this high byte of its key has its own set.
pub fn is_lone(high: u8, told: bool) -> bool
    ensures { result ≡ is_lone high told }
{
    told && NO_BIT < high
}
