// A gathered node, whose members are finished: its like members are combined, and where a look tells that nothing more is to be done at what
// comes out, it is left standing where it was built.
ghost use Rattle.std.specs.Prelude.{◌≡◌, false, List, ℕ, ◌*◌, ◌≤◌, length, drop};
ghost use Rattle.paper.specs.Tree.{Tree, Forest, to_list, weight};
ghost use Rattle.paper.specs.Record.{kind};
ghost use Rattle.paper.specs.Rules.{rules_of};
ghost use Rattle.paper.specs.Driver.{members};
ghost use Rattle.note.specs.Note.{note};
ghost use Rattle.note.specs.Noted.{TreeBy};
ghost use Rattle.still.specs.Keys.{Scratched};
ghost use Rattle.part.specs.Like.{node_kind};
ghost use Rattle.rules.specs.Alike.{step_of, any_earlier};
ghost use Rattle.rules.specs.Asked.{Ready, CombinedIs};
ghost use Rattle.rules.specs.Quiet.{calm, quiet, Looked, Emerged, EmergedIs};
ghost use Rattle.rules.specs.Tried.{MembersIn};

use crate::{Combined, members};
use record::kinds::Kind;

// The step that combines the terms of a sum, or the factors of a product.
fn step_of(terms: bool) -> u8
    ensures { result ≡ step_of terms }
{
    if terms {
        crate::COMBINE_LIKE_TERMS
    } else {
        crate::COMBINE_LIKE_FACTORS
    }
}

// A member of the sum, or of the product, at record p is an integer that a rule before that step looks for: 0, and in a product 1.
pub fn any_earlier(s: &[u8], p: usize, terms: bool) -> bool
    requires { (f : Forest) × MembersIn s.now p f }
    ensures { (f : Forest) → MembersIn s.now p f → result ≡ any_earlier terms (to_list f) }
{
    members::any_member(s, p, 0) || (!terms && members::any_member(s, p, 1))
}

// The tree at record i of out is calm: it has no members but leaves, and its notes tell that no rule applies to it. Scratch is work from byte
// 0 on.
fn is_calm(out: &[u8], i: usize, work: &mut [u8], edition: usize) -> bool
    requires { (t : Tree) × TreeBy note out.now i t × (16 * weight t ≤ length work.old) }
    ensures value { (t : Tree) → TreeBy note out.now i t → result ≡ calm edition t }
    ensures around { (t : Tree) → TreeBy note out.now i t → Scratched work.old work.new 0 (16 * weight t) }
{
    let next = split::skip_tree(out, i);
    next <= i + record::arity(out, i) + 1 && still::still(out, i, work, 0, edition)
}

// The node at record d of out, whose members are finished but for the one at record f, is finished as far as a look tells: that one is calm
// and not of the node's kind, and the notes tell that no rule applies to the node. Scratch is work from byte 0 on.
fn is_quiet(out: &[u8], work: &mut [u8], d: usize, f: usize, edition: usize) -> bool
    requires { (end : ℕ) × (u : Tree) × (x : Tree) × Looked out.now work.old d f end u x }
    ensures by_index { (end : ℕ) (u x : Tree) → Looked out.now work.old d f end u x → result ≡ quiet edition u x }
    ensures around { (end : ℕ) (u x : Tree) → Looked out.now work.old d f end u x
        → drop (end * 16) work.new ≡ drop (end * 16) work.old }
{
    if Kind::at(out, f) == Kind::at(out, d) {
        return false;
    }
    is_calm(out, f, work, edition) && still::still(out, d, work, 0, edition)
}

// Makes the node of the members that came out behind record d of out, and leaves it there where it is quiet; else it is pending, and ends
// where the gathered node ended.
fn make_node(
    out: &mut [u8],
    work: &mut [u8],
    d: usize,
    came: walk::Done,
    end: usize,
    terms: bool,
    mark: usize,
    edition: usize,
) -> Combined
    requires { (l : List Tree) × (m : List Tree) × (rest : List ℕ)
        × Emerged terms mark l m rest out.old work.old d came.end came.new end came.count }
    ensures { (l m : List Tree) (rest : List ℕ)
        → Emerged terms mark l m rest out.old work.old d came.end came.new end came.count
        → EmergedIs terms mark edition l m rest out.old out.new work.new d end result }
{
    let from = members::collapse(out, d, came.count, terms, mark);
    let step = step_of(terms);
    if came.count < members::SEVERAL {
        return Combined::Pending(step, members::copy_back(out, work, from, came.end, end));
    }
    let Some(new) = came.new else {
        return Combined::Pending(step, members::copy_back(out, work, from, came.end, end));
    };
    if is_quiet(out, work, d, new, edition) {
        return Combined::Quiet(step, came.end);
    }
    Combined::Pending(step, members::copy_back(out, work, from, came.end, end))
}

// Combines the like members of the gathered sum, or product, at record p of work, where no rule before that step applies.
pub fn combine_members(
    out: &mut [u8],
    work: &mut [u8],
    d: usize,
    p: usize,
    terms: bool,
    edition: usize,
) -> Combined
    requires { ((t : Tree) × (rest : List ℕ) × Ready out.old work.old d p t rest) × (kind work.old p ≡ node_kind terms) }
    ensures { (t : Tree) (rest : List ℕ) → Ready out.old work.old d p t rest → any_earlier terms (members t) ≡ false
        → CombinedIs (rules_of edition) t rest out.old out.new work.new d p result }
{
    let mark = record::mark(work, p);
    let Ok(walked) = walk::walk_members(out, work, d, p, terms) else {
        return Combined::No;
    };
    let Some(came) = walked else {
        return Combined::Nothing;
    };
    let end = split::skip_tree(work, p);
    make_node(out, work, d, came, end, terms, mark, edition)
}
