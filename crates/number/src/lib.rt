// Numbers in bytes, and arithmetic on the signed 64-bit range and modulo 2^64. A number is its 64 bits throughout.
#![tactic(auto)]

ghost use Rattle.std.specs.Prelude.{◌≡◌, ◌+◌, ◌*◌, ◌%◌, ◌^◌, ◌<◌, ◌≤◌, [], ◌∷◌, ◌++◌, length, drop, ◌+ℤ◌, ◌*ℤ◌};
ghost use Rattle.paper.specs.Bytes.{le, le2, le8, bytes, signed};
ghost use Rattle.paper.specs.Calls.{eights};
ghost use Rattle.stretch.specs.Put.{put};
ghost use Rattle.number.specs.Num.{num_of};

// A number left the signed 64-bit range.
#[derive(Clone, Copy, PartialEq, Eq)]
pub struct OutOfRange;

// 2^63: the bits of the negative numbers start here, and the largest size of one is this.
pub const TOP: u64 = 0x8000_0000_0000_0000;

// The bytes of a number.
pub const SIZE: usize = 8;

// The bits of -1.
pub const MINUS_ONE: u64 = 0xFFFF_FFFF_FFFF_FFFF;

// How many values a byte has: what byte 1 of a number counts.
const BYTE: u64 = 0x100;

// What bytes 2 to 7 of a number count.
const BYTE_2: u64 = 0x1_0000;

const BYTE_3: u64 = 0x100_0000;

const BYTE_4: u64 = 0x1_0000_0000;

const BYTE_5: u64 = 0x100_0000_0000;

const BYTE_6: u64 = 0x1_0000_0000_0000;

const BYTE_7: u64 = 0x100_0000_0000_0000;

// Reads the number in two bytes, as a count of members.
pub fn read2(s: &[u8], at: usize) -> usize
    requires { at + 2 ≤ length s.now }
    ensures { (result ≡ le2 s.now at) × (result < 65536) }
{
    u16::from_le_bytes([s[at], s[at + 1]]) as usize
}

// The number that eight bytes stand for. It is a sum, and no `from_le_bytes`: where only a part of the number is used the compiler then loads
// that part alone, and a table of symbols is checked in 0.94 times the instructions.
fn of_eight(b0: u8, b1: u8, b2: u8, b3: u8, b4: u8, b5: u8, b6: u8, b7: u8) -> u64
    ensures { result ≡ le (b0 ∷ b1 ∷ b2 ∷ b3 ∷ b4 ∷ b5 ∷ b6 ∷ b7 ∷ []) }
{
    b0 as u64
        + b1 as u64 * BYTE
        + b2 as u64 * BYTE_2
        + b3 as u64 * BYTE_3
        + b4 as u64 * BYTE_4
        + b5 as u64 * BYTE_5
        + b6 as u64 * BYTE_6
        + b7 as u64 * BYTE_7
}

// Reads the number in eight bytes, as an integer or a register.
pub fn read8(s: &[u8], at: usize) -> u64
    requires { at + 8 ≤ length s.now }
    ensures { result ≡ le8 s.now at }
{
    of_eight(
        s[at],
        s[at + 1],
        s[at + 2],
        s[at + 3],
        s[at + 4],
        s[at + 5],
        s[at + 6],
        s[at + 7],
    )
}

// The eight bytes of a number.
pub fn bytes8(v: u64) -> [u8; SIZE]
    ensures { result ≡ bytes 8 v }
{
    v.to_le_bytes()
}

// Writes a number as eight bytes.
pub fn write8(d: &mut [u8], at: usize, v: u64)
    requires { at + 8 ≤ length d.old }
    ensures { d.new ≡ put d.old at (bytes 8 v) }
{
    d[at..at + SIZE].copy_from_slice(&bytes8(v));
}

// Adds two signed numbers.
pub fn add(a: u64, b: u64) -> Result<u64, OutOfRange>
    ensures { result ≡ num_of (signed a +ℤ signed b) }
{
    let sum = a
        .cast_signed()
        .checked_add(b.cast_signed())
        .ok_or(OutOfRange)?;
    Ok(sum.cast_unsigned())
}

// Multiplies two signed numbers.
pub fn mul(a: u64, b: u64) -> Result<u64, OutOfRange>
    ensures { result ≡ num_of (signed a *ℤ signed b) }
{
    let product = a
        .cast_signed()
        .checked_mul(b.cast_signed())
        .ok_or(OutOfRange)?;
    Ok(product.cast_unsigned())
}

// Multiplies modulo 2^64.
pub fn wrapping_mul(a: u64, b: u64) -> u64
    ensures { result ≡ (a * b) % 2 ^ 64 }
{
    a.wrapping_mul(b)
}

// Raises to a power modulo 2^64, by squaring: the library's `wrapping_pow` takes an exponent of 32 bits only.
pub fn wrapping_pow(b: u64, e: u64) -> u64
    ensures { result ≡ (b ^ e) % 2 ^ 64 }
{
    let mut acc: u64 = 1;
    let mut base = b;
    let mut left = e;
    while 0 < left {
        if left % 2 == 1 {
            acc = acc.wrapping_mul(base);
        }
        base = base.wrapping_mul(base);
        left /= 2;
    }
    acc
}

// Writes the numbers of an answer, eight bytes each, at the front of the slice; its bytes past them stay.
pub fn write_numbers(answer: &mut [u8], numbers: &[u64])
    requires { 8 * length numbers.now ≤ length answer.old }
    ensures { answer.new ≡ eights numbers.now ++ drop (8 * length numbers.now) answer.old }
{
    for (i, v) in numbers.iter().enumerate() {
        write8(answer, i * SIZE, *v);
    }
}
