// The rules on a sum.
ghost use Rattle.std.specs.Prelude.{List, ℕ};
ghost use Rattle.paper.specs.Tree.{Tree};
ghost use Rattle.paper.specs.Rules.{add_zero, combine_like_terms};
ghost use Rattle.rules.specs.Asked.{Ready};
ghost use Rattle.rules.specs.Tried.{Answers};

use crate::{combine, members};
use number::OutOfRange;

// Step 1: 0 + a = a.
pub fn add_zero(
    out: &mut [u8],
    work: &mut [u8],
    d: usize,
    p: usize,
) -> Result<Option<usize>, OutOfRange>
    requires { (t : Tree) × (rest : List ℕ) × Ready out.old work.old d p t rest }
    ensures { (t : Tree) (rest : List ℕ) → Ready out.old work.old d p t rest
        → Answers (add_zero t) rest out.old out.new work.old work.new d p result }
{
    members::drop_neutral(out, work, d, p, true)
}

// Step 2: a + a = 2 * a.
pub fn combine_like_terms(
    out: &mut [u8],
    work: &mut [u8],
    d: usize,
    p: usize,
) -> Result<Option<usize>, OutOfRange>
    requires { (t : Tree) × (rest : List ℕ) × Ready out.old work.old d p t rest }
    ensures { (t : Tree) (rest : List ℕ) → Ready out.old work.old d p t rest
        → Answers (combine_like_terms t) rest out.old out.new work.old work.new d p result }
{
    combine::combine(out, work, d, p, true)
}
