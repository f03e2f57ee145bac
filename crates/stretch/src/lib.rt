// Stretches of bytes, copied between two slices, moved within one and cleared.
#![tactic(auto)]

ghost use Rattle.std.specs.Prelude.{◌≡◌, ◌+◌, ◌≤◌, length, replicate};
ghost use Rattle.stretch.specs.Put.{part, put};

// Copies the n bytes of src from `from` on to dst, from `at` on.
pub fn copy_bytes(dst: &mut [u8], at: usize, src: &[u8], from: usize, n: usize)
    requires { (at + n ≤ length dst.old) × (from + n ≤ length src.now) }
    ensures { dst.new ≡ put dst.old at (part src.now from n) }
{
    dst[at..at + n].copy_from_slice(&src[from..from + n]);
}

// Moves the n bytes from `from` on to `to` on, within one slice; the two stretches may overlap.
pub fn shift(d: &mut [u8], to: usize, from: usize, n: usize)
    requires { (to + n ≤ length d.old) × (from + n ≤ length d.old) }
    ensures { d.new ≡ put d.old to (part d.old from n) }
{
    d.copy_within(from..from + n, to);
}

// Shifts the n bytes from `from` on to the left, or not at all.
pub fn shift_left(d: &mut [u8], to: usize, from: usize, n: usize)
    requires { (to ≤ from) × (from + n ≤ length d.old) }
    ensures { d.new ≡ put d.old to (part d.old from n) }
{
    shift(d, to, from, n);
}

// Shifts the n bytes from `from` on to the right, or not at all: the highest first, so that none is written over before it is read. It is a
// loop, and no `shift`: where a caller shifts by a constant the compiler makes a memmove of it, and a text of nested powers is read in half
// the instructions.
pub fn shift_right(d: &mut [u8], to: usize, from: usize, n: usize)
    requires { (from ≤ to) × (to + n ≤ length d.old) }
    ensures { d.new ≡ put d.old to (part d.old from n) }
{
    for j in (0..n).rev() {
        d[to + j] = d[from + j];
    }
}

// Sets n bytes from `at` on to 0.
pub fn clear(d: &mut [u8], at: usize, n: usize)
    requires { at + n ≤ length d.old }
    ensures { d.new ≡ put d.old at (replicate n 0) }
{
    d[at..at + n].fill(0);
}
