// Numbers in decimal digits, the highest first, with no leading zero.
#![tactic(auto)]

ghost use Rattle.std.specs.Prelude.{◌≡◌, ◌+◌, ◌*◌, ◌^◌, ◌<◌, ◌≤◌, length, drop};
ghost use Rattle.paper_text.specs.Text.{digit_ahead, read_number};
ghost use Rattle.decimal.specs.Digits.{NumberRead, NumberSpelt};

// What a digit counts by, and the greatest digit.
const BASE: u64 = 10;

const GREATEST: u64 = 9;

// The most digits of a number of 64 bits.
const MOST_DIGITS: usize = 20;

// A digit stands at `at`.
pub fn digit_at(text: &[u8], at: usize) -> bool
    ensures { result ≡ digit_ahead (drop at text.now) }
{
    text.get(at).is_some_and(u8::is_ascii_digit)
}

// The number below `bound` whose digits begin at `at`, and the place after its last digit: 0 stands alone, no other begins with 0. None:
// no number that the writer would write. The place is a part of the answer, so the loop counts it.
pub fn read_number(text: &[u8], at: usize, bound: u64) -> Option<(u64, usize)>
    requires { bound ≤ 2 ^ 63 + 1 }
    ensures { NumberRead bound text.now at result }
{
    if !digit_at(text, at) {
        return None;
    }
    if text[at] == b'0' && digit_at(text, at + 1) {
        return None;
    }
    let most = bound / BASE;
    let mut v: u64 = 0;
    let mut e = at;
    while digit_at(text, e) {
        if most < v {
            return None;
        }
        v = BASE * v + u64::from(text[e] - b'0');
        e += 1;
    }
    if v < bound { Some((v, e)) } else { None }
}

// Spells v from `at` on, where its digits lie in the area, and answers the place after them. The lowest digit comes first, so the loop goes
// back from the end until one digit is left: how many turns that takes is told by the number alone.
pub fn spell_number(v: u64, out: &mut [u8], at: usize) -> usize
    requires { at < 2 ^ 63 }
    ensures { NumberSpelt v out.old at out.new result }
{
    let mut b = [0u8; MOST_DIGITS];
    let mut i: usize = MOST_DIGITS;
    let mut w = v;
    while GREATEST < w {
        i -= 1;
        b[i] = b'0' + (w % BASE) as u8;
        w /= BASE;
    }
    i -= 1;
    b[i] = b'0' + w as u8;
    let n = MOST_DIGITS - i;
    if out.len() < at + n {
        return at + n;
    }
    stretch::copy_bytes(out, at, &b, i, n);
    at + n
}
