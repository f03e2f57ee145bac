// The members of one node: which of them are a certain integer, and what is left of the node without those.
ghost use Rattle.std.specs.Prelude.{◌≡◌, List, ◌++◌, ℕ, ◌+◌, ◌-◌, ◌*◌, ◌<◌, ◌≤◌, length, drop, pos};
ghost use Rattle.paper.specs.Record.{mark_in};
ghost use Rattle.paper.specs.Tree.{Tree, Forest, to_list, records, recordses};
ghost use Rattle.paper.specs.Rules.{is_the, any_of, drop_all};
ghost use Rattle.note.specs.Note.{note};
ghost use Rattle.note.specs.Noted.{encode_by};
ghost use Rattle.stretch.specs.Put.{part, put};
ghost use Rattle.split.specs.Standing.{Told, SomeTold};
ghost use Rattle.record.specs.Kinds.{number_of};
ghost use Rattle.part.specs.Like.{node_kind, neutral, node_of};
ghost use Rattle.rebuilt.specs.Written.{Light};
ghost use Rattle.rules.specs.Alike.{drop_neutral};
ghost use Rattle.rules.specs.Asked.{Ready};
ghost use Rattle.rules.specs.Tried.{Answers, Held, MembersIn, last_kept, last_dropped, Around, Built, Collapsed, PutBack};

use number::OutOfRange;
use record::kinds::Kind;

// So many members at least has a node.
pub const SEVERAL: usize = 2;

// Where the first member is moved to, counted from its node's record.
const MOVED: usize = 2;

// The members of a node that are kept: how many, and the record of the last of them; the record of the last that is dropped; and the record
// after all members.
#[derive(Clone, Copy)]
struct Kept {
    many: usize,
    last: usize,
    dropped: usize,
    end: usize,
}

// The kind of a sum or of a product.
pub fn node_kind(sum: bool) -> Kind
    ensures { number_of result ≡ node_kind sum }
{
    if sum { Kind::Sum } else { Kind::Product }
}

// The integer that a sum, or a product, can do without.
fn neutral(sum: bool) -> u64
    ensures { (result ≡ neutral sum) × (result < 2) }
{
    if sum { 0 } else { 1 }
}

// The tree at record i is the integer z, 0 or 1.
fn is_the(s: &[u8], i: usize, z: u64) -> bool
    requires { SomeTold s.now i × (z < 2) }
    ensures { (t : Tree) → Told note s.now i t → result ≡ is_the (pos z) t }
{
    Kind::at(s, i) == Kind::Integer && record::bits(s, i) == z
}

// A member of the node at record p is the integer z, 0 or 1.
pub fn any_member(s: &[u8], p: usize, z: u64) -> bool
    requires { ((f : Forest) × MembersIn s.now p f) × (z < 2) }
    ensures { (f : Forest) → MembersIn s.now p f → result ≡ any_of (is_the (pos z)) (to_list f) }
{
    let mut at = p + 1;
    for _ in 0..record::count(s, p) {
        if is_the(s, at, z) {
            return true;
        }
        at = split::skip_tree(s, at);
    }
    false
}

// Makes a tree of the members behind record d of out: of none the integer that stands for none, one alone is itself, and a node is closed;
// the integer, or the node, has the mark.
pub fn collapse(out: &mut [u8], d: usize, count: usize, sum: bool, mark: usize) -> usize
    requires { (e : ℕ) × (l : List Tree) × Built out.old d e l × (length l ≡ count) × Light (node_of sum mark l) }
    ensures { (e : ℕ) (l : List Tree) → Built out.old d e l → length l ≡ count → Light (node_of sum mark l)
        → Collapsed sum mark l out.old out.new d e result }
{
    if count < 1 {
        record::write_record(out, d, record::INTEGER, 0, mark, neutral(sum));
        return d;
    }
    if count < SEVERAL {
        return d + 1;
    }
    record::write_record(out, d, node_kind(sum).number(), count, mark, 0);
    note::close(out, d);
    d
}

// Copies the tree that stands in out from record `from` up to record e into the pending records, so that it ends at record `end`.
pub fn copy_back(out: &[u8], work: &mut [u8], from: usize, e: usize, end: usize) -> usize
    requires { (from ≤ e) × (e ≤ from + end) × (e * 16 ≤ length out.now) × (end * 16 ≤ length work.old) }
    ensures { (result ≡ end - (e - from))
        × (work.new ≡ put work.old (result * 16) (part out.now (from * 16) ((e - from) * 16))) }
{
    let n = e - from;
    let q = end - n;
    stretch::copy_bytes(
        work,
        q * record::SIZE,
        out,
        from * record::SIZE,
        n * record::SIZE,
    );
    q
}

// Puts the tree of the members behind record d of out, up to record e, into the pending records, so that it ends at record `end`; a
// node, or the integer that stands for none, has the mark.
pub fn put_back(
    out: &mut [u8],
    work: &mut [u8],
    d: usize,
    e: usize,
    end: usize,
    count: usize,
    sum: bool,
    mark: usize,
) -> usize
    requires { ((l : List Tree) × Built out.old d e l × (length l ≡ count) × Light (node_of sum mark l))
        × (e ≤ d + end) × (end * 16 ≤ length work.old) }
    ensures { (l : List Tree) → Built out.old d e l → length l ≡ count → Light (node_of sum mark l)
        → PutBack sum mark l (drop (end * 16) work.old) out.old out.new work.new d result }
{
    let from = collapse(out, d, count, sum, mark);
    copy_back(out, work, from, e, end)
}

// The members of the node at record p that are not the integer z, 0 or 1: how many they are, the record of the last of them, that of the
// last that is the integer, and the record after all members.
fn count_kept(s: &[u8], p: usize, z: u64) -> Kept
    requires { ((f : Forest) × MembersIn s.now p f) × (z < 2) }
    ensures { (f : Forest) → MembersIn s.now p f
        → (result.many ≡ length (drop_all (is_the (pos z)) (to_list f))) × (result.last ≡ last_kept z (p + 1) p f)
        × (result.dropped ≡ last_dropped z (p + 1) p f) × (result.end ≡ p + 1 + recordses f) }
{
    let mut kept = Kept {
        many: 0,
        last: p,
        dropped: p,
        end: p + 1,
    };
    for _ in 0..record::count(s, p) {
        let at = kept.end;
        if is_the(s, at, z) {
            kept.dropped = at;
        } else {
            kept.many += 1;
            kept.last = at;
        }
        kept.end = split::skip_tree(s, at);
    }
    kept
}

// Moves the tree at record i to the right, so that it ends at record `end`, or leaves it where it ends there.
fn move_to_end(work: &mut [u8], i: usize, end: usize) -> usize
    requires { ((t : Tree) × Told note work.old i t × (i + records t ≤ end)) × (end * 16 ≤ length work.old) }
    ensures { (t : Tree) → Told note work.old i t → i + records t ≤ end
        → drop (result * 16) work.new ≡ encode_by note t ++ drop (end * 16) work.old }
{
    let next = split::skip_tree(work, i);
    if end <= next {
        return i;
    }
    let q = end - (next - i);
    stretch::shift_right(
        work,
        q * record::SIZE,
        i * record::SIZE,
        (next - i) * record::SIZE,
    );
    q
}

// Drops the members of the node at record p that are the integer z, 0 or 1: those that are kept are copied to out and put back.
fn copy_kept(out: &mut [u8], work: &mut [u8], d: usize, p: usize, sum: bool, z: u64) -> usize
    requires { ((f : Forest) × (rest : List ℕ) × Held out.old work.old d p f rest) × (z < 2) }
    ensures { (f : Forest) (rest : List ℕ) → Held out.old work.old d p f rest
        → PutBack sum (mark_in work.old p) (drop_all (is_the (pos z)) (to_list f)) rest out.old out.new work.new d result }
{
    let mark = record::mark(work, p);
    let mut at = p + 1;
    let mut e = d + 1;
    let mut kept = 0;
    for _ in 0..record::count(work, p) {
        let next = split::skip_tree(work, at);
        if !is_the(work, at, z) {
            stretch::copy_bytes(
                out,
                e * record::SIZE,
                work,
                at * record::SIZE,
                (next - at) * record::SIZE,
            );
            e += next - at;
            kept += 1;
        }
        at = next;
    }
    put_back(out, work, d, e, at, kept, sum, mark)
}

// Drops the member at record x of the node at record p, an integer: the members before it move one record to the right, and the node's record
// is written before them and closed.
fn drop_one(work: &mut [u8], p: usize, x: usize, sum: bool) -> usize
    requires { (a : List Tree) × (b : List Tree) × (rest : List ℕ) × Around work.old p x a b rest }
    ensures { (a b : List Tree) (rest : List ℕ) → Around work.old p x a b rest
        → drop (result * 16) work.new ≡ encode_by note (node_of sum (mark_in work.old p) (a ++ b)) ++ rest }
{
    let n = record::count(work, p);
    let mark = record::mark(work, p);
    stretch::shift_right(
        work,
        (p + MOVED) * record::SIZE,
        (p + 1) * record::SIZE,
        (x - (p + 1)) * record::SIZE,
    );
    record::write_record(work, p + 1, node_kind(sum).number(), n - 1, mark, 0);
    note::close(work, p + 1);
    p + 1
}

// Drops the members of the node at record p that are the integer z, 0 or 1. A lone member that is kept is not copied, nor is any where only
// one is dropped.
fn drop_members(out: &mut [u8], work: &mut [u8], d: usize, p: usize, sum: bool, z: u64) -> usize
    requires { ((f : Forest) × (rest : List ℕ) × Held out.old work.old d p f rest) × (z < 2) }
    ensures { (f : Forest) (rest : List ℕ) → Held out.old work.old d p f rest
        → PutBack sum (mark_in work.old p) (drop_all (is_the (pos z)) (to_list f)) rest out.old out.new work.new d result }
{
    let kept = count_kept(work, p, z);
    if kept.many == 1 {
        return move_to_end(work, kept.last, kept.end);
    }
    if kept.many + 1 == record::count(work, p) {
        return drop_one(work, p, kept.dropped, sum);
    }
    copy_kept(out, work, d, p, sum, z)
}

// Steps 1 and 4 alike: where a member of the sum, or of the product, at record p is the integer it can do without, drops all such.
pub fn drop_neutral(
    out: &mut [u8],
    work: &mut [u8],
    d: usize,
    p: usize,
    sum: bool,
) -> Result<Option<usize>, OutOfRange>
    requires { (t : Tree) × (rest : List ℕ) × Ready out.old work.old d p t rest }
    ensures { (t : Tree) (rest : List ℕ) → Ready out.old work.old d p t rest
        → Answers (drop_neutral sum t) rest out.old out.new work.old work.new d p result }
{
    if Kind::at(work, p) != node_kind(sum) {
        return Ok(None);
    }
    let z = neutral(sum);
    if any_member(work, p, z) {
        return Ok(Some(drop_members(out, work, d, p, sum, z)));
    }
    Ok(None)
}
