// The rules on a product.
ghost use Rattle.std.specs.Prelude.{List, ℕ};
ghost use Rattle.paper.specs.Tree.{Tree};
ghost use Rattle.paper.specs.Rules.{multiply_zero, multiply_one, combine_like_factors};
ghost use Rattle.rules.specs.Asked.{Ready};
ghost use Rattle.rules.specs.Tried.{Answers};

use crate::{combine, members};
use number::OutOfRange;
use record::kinds::Kind;

// Step 3: 0 * a = 0, with the product's mark.
pub fn multiply_zero(
    out: &mut [u8],
    work: &mut [u8],
    d: usize,
    p: usize,
) -> Result<Option<usize>, OutOfRange>
    requires { (t : Tree) × (rest : List ℕ) × Ready out.old work.old d p t rest }
    ensures { (t : Tree) (rest : List ℕ) → Ready out.old work.old d p t rest
        → Answers (multiply_zero t) rest out.old out.new work.old work.new d p result }
{
    if Kind::at(work, p) != Kind::Product {
        return Ok(None);
    }
    if members::any_member(work, p, 0) {
        let mark = record::mark(work, p);
        let q = split::skip_tree(work, p) - 1;
        record::write_record(work, q, record::INTEGER, 0, mark, 0);
        return Ok(Some(q));
    }
    Ok(None)
}

// Step 4: 1 * a = a.
pub fn multiply_one(
    out: &mut [u8],
    work: &mut [u8],
    d: usize,
    p: usize,
) -> Result<Option<usize>, OutOfRange>
    requires { (t : Tree) × (rest : List ℕ) × Ready out.old work.old d p t rest }
    ensures { (t : Tree) (rest : List ℕ) → Ready out.old work.old d p t rest
        → Answers (multiply_one t) rest out.old out.new work.old work.new d p result }
{
    members::drop_neutral(out, work, d, p, false)
}

// Step 6: a * a = a^2, and 2^3 * 5^3 = 10^3.
pub fn combine_like_factors(
    out: &mut [u8],
    work: &mut [u8],
    d: usize,
    p: usize,
) -> Result<Option<usize>, OutOfRange>
    requires { (t : Tree) × (rest : List ℕ) × Ready out.old work.old d p t rest }
    ensures { (t : Tree) (rest : List ℕ) → Ready out.old work.old d p t rest
        → Answers (combine_like_factors t) rest out.old out.new work.old work.new d p result }
{
    combine::combine(out, work, d, p, false)
}
