// Steps 2 and 6 alike: the members are listed, the walk goes over them, and what comes out is put in place of the node.
ghost use Rattle.std.specs.Prelude.{List, ℕ};
ghost use Rattle.paper.specs.Tree.{Tree};
ghost use Rattle.rules.specs.Alike.{combine_like};
ghost use Rattle.rules.specs.Asked.{Ready};
ghost use Rattle.rules.specs.Tried.{Answers};

use crate::members;
use number::OutOfRange;
use record::kinds::Kind;

// Combines the like members of the sum, or of the product, at record p: its terms, or its factors.
pub fn combine(
    out: &mut [u8],
    work: &mut [u8],
    d: usize,
    p: usize,
    terms: bool,
) -> Result<Option<usize>, OutOfRange>
    requires { (t : Tree) × (rest : List ℕ) × Ready out.old work.old d p t rest }
    ensures { (t : Tree) (rest : List ℕ) → Ready out.old work.old d p t rest
        → Answers (combine_like terms t) rest out.old out.new work.old work.new d p result }
{
    if Kind::at(work, p) != members::node_kind(terms) {
        return Ok(None);
    }
    let mark = record::mark(work, p);
    let walked = walk::walk_members(out, work, d, p, terms)?;
    let Some(came) = walked else {
        return Ok(None);
    };
    let end = split::skip_tree(work, p);
    Ok(Some(members::put_back(out, work, d, came.end, end, came.count, terms, mark)))
}
