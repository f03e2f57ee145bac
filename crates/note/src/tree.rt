// The note of a plain tree in a table that is only read: its nodes hold none, so it is added up by recursion.
ghost use Rattle.std.specs.Prelude.{◌≡◌, ◌+◌, ◌*◌, ◌^◌, ◌<◌, ◌≤◌, length};
ghost use Rattle.paper.specs.Standing.{TreeIn};
ghost use Rattle.paper.specs.Tree.{Tree, weight};
ghost use Rattle.note.specs.Note.{note};
ghost use Rattle.note.specs.Plain.{parts_in};

use crate::{KEY, RECORD_NOTE, added, added_exponent, leaf_note, records_of};

// The number of trees that are added up behind the record i of a node of kind k: its members, or a power's base.
fn parts(s: &[u8], i: usize, k: u8) -> usize
    requires { i * 16 + 16 ≤ length s.now }
    ensures { result ≡ parts_in s.now i k }
{
    if k < record::POWER {
        return record::count(s, i);
    }
    1
}

// The note of the tree at record i. A member ends as many records later as its note says, and there an exponent stands. The table is handed on
// as a reference to a slice, which is one word of each level where the slice is two.
fn note_from(s: &&[u8], i: usize) -> u64
    requires { ((t : Tree) × TreeIn s.now.now i t × (weight t < 65536)) × (length s.now.now < 2 ^ 63) }
    ensures { (t : Tree) → TreeIn s.now.now i t → weight t < 65536 → result ≡ note t }
{
    let k = record::kind(*s, i);
    if k < record::SUM {
        return leaf_note(k, record::bits(*s, i));
    }
    let mut sum = RECORD_NOTE + k as u64 * KEY;
    let mut at = i + 1;
    for _ in 0..parts(*s, i, k) {
        let n = note_from(s, at);
        sum = sum.wrapping_add(added(record::kind(*s, at), n));
        at += records_of(n);
    }
    if record::PRODUCT < k {
        return sum.wrapping_add(added_exponent(record::bits(*s, at)));
    }
    sum
}

// The note of the tree at record i.
pub fn tree_note(s: &[u8], i: usize) -> u64
    requires { (t : Tree) × TreeIn s.now i t × (weight t < 65536) }
    ensures { (t : Tree) → TreeIn s.now i t → weight t < 65536 → result ≡ note t }
{
    note_from(&s, i)
}
