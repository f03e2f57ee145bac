// What differs between two tables: their trees walked in step, and the pairs of record numbers where they do not agree. Where two records
// agree they have equally many members, so that the walk is one record further on in both tables; where they do not it is past both trees.
// So there is no recursion. The walk is taken twice, with no list to count the pairs and then to write them, and the list is as it was where it
// is too short.
#![tactic(auto)]

ghost use Rattle.std.specs.Prelude.{◌≡◌, ◌++◌, ◌+◌, ◌*◌, ◌≤◌, length};
ghost use Rattle.paper.specs.Bytes.{bytes};
ghost use Rattle.paper.specs.Tree.{Tree};
ghost use Rattle.paper.specs.Standing.{TreeIn, SomeTree};
ghost use Rattle.paper_differ.specs.Differ.{alike, differences_of, at_front, differing};
ghost use Rattle.stretch.specs.Put.{put};
ghost use Rattle.differ.specs.Together.{Together};
ghost use Rattle.differ.specs.Differed.{gives};

use table::{Refusal, Refused, Which};

// Record i of a and record j of b agree: all their 16 bytes are the same, those of a tree's record that have no meaning being zero.
fn agree(a: &[u8], i: usize, b: &[u8], j: usize) -> bool
    requires { SomeTree a.now i × SomeTree b.now j }
    ensures { (t u : Tree) → TreeIn a.now i t → TreeIn b.now j u → result ≡ alike t u }
{
    number::read8(a, i * record::SIZE) == number::read8(b, j * record::SIZE)
        && record::bits(a, i) == record::bits(b, j)
}

// The bytes of a pair in the list.
pub const PAIR: usize = 16;

// Writes a pair of record numbers to the list as its pair p, eight bytes each; all other bytes stay.
fn write_pair(list: &mut [u8], p: usize, i: usize, j: usize)
    requires { p * 16 + 16 ≤ length list.old }
    ensures { list.new ≡ put list.old (p * 16) (bytes 8 i ++ bytes 8 j) }
{
    number::write8(list, p * PAIR, i as u64);
    number::write8(list, p * PAIR + number::SIZE, j as u64);
}

// Writes the pairs at the front of the list, in walking order, as many as it has room for, and answers how many there are. Where there is room
// for all, the bytes past them stay.
fn write_pairs(a: &[u8], b: &[u8], list: &mut [u8]) -> usize
    requires { Together a.now b.now }
    ensures all { result ≡ length (differences_of a.now b.now) }
    ensures written { 16 * length (differences_of a.now b.now) ≤ length list.old
        → list.new ≡ at_front (differences_of a.now b.now) list.old }
{
    let n = a.len() / record::SIZE;
    let room = list.len() / PAIR;
    let mut i = 0;
    let mut j = 0;
    let mut pairs = 0;
    // No `for`: a turn goes one record on or past a whole tree.
    while i < n {
        if agree(a, i, b, j) {
            i += 1;
            j += 1;
        } else {
            if pairs < room {
                write_pair(list, pairs, i, j);
            }
            pairs += 1;
            i = split::skip_tree(a, i);
            j = split::skip_tree(b, j);
        }
    }
    pairs
}

// Judges the limit, the first table, then the second, then whether the list has two places of eight bytes for each pair; then writes the pairs, and
// answers how many there are.
pub fn differ(limit: usize, a: &[u8], b: &[u8], list: &mut [u8]) -> Result<usize, Refused>
    ensures { gives result list.new ≡ differing limit a.now b.now list.old }
{
    if !table::is_limit(limit) {
        return Err(Refused {
            refusal: Refusal::Limit,
            which: Which::Neither,
        });
    }
    if let Err(refusal) = table::check(limit, a) {
        return Err(Refused {
            refusal,
            which: Which::First,
        });
    }
    if let Err(refusal) = table::check(limit, b) {
        return Err(Refused {
            refusal,
            which: Which::Second,
        });
    }
    let pairs = write_pairs(a, b, &mut []);
    if list.len() / PAIR < pairs {
        return Err(Refused {
            refusal: Refusal::Room,
            which: Which::Neither,
        });
    }
    write_pairs(a, b, list);
    Ok(pairs)
}
