// The rules on a power, which edition two adds. A result ends where the power ended.
ghost use Rattle.std.specs.Prelude.{List, ℕ};
ghost use Rattle.paper.specs.Tree.{Tree};
ghost use Rattle.paper.specs.Rules.{power_one, power_constant, power_power};
ghost use Rattle.note.specs.Note.{note};
ghost use Rattle.rules.specs.Asked.{Ready};
ghost use Rattle.rules.specs.Tried.{Answers};

use number::OutOfRange;
use record::kinds::Kind;

// Where, counted from a power's record, the result begins; where the base of a power that is its base stands; and where this is moved to.
const RESULT: usize = 2;

const INNER: usize = 2;

const MOVED: usize = 3;

// Step 7: a^1 = a. The base moves one record to the right.
pub fn power_one(
    out: &mut [u8],
    work: &mut [u8],
    d: usize,
    p: usize,
) -> Result<Option<usize>, OutOfRange>
    requires { (t : Tree) × (rest : List ℕ) × Ready out.old work.old d p t rest }
    ensures { (t : Tree) (rest : List ℕ) → Ready out.old work.old d p t rest
        → Answers (power_one t) rest out.old out.new work.old work.new d p result }
{
    if Kind::at(work, p) != Kind::Power {
        return Ok(None);
    }
    let x = split::skip_tree(work, p + 1);
    if record::bits(work, x) != 1 {
        return Ok(None);
    }
    stretch::shift_right(
        work,
        (p + RESULT) * record::SIZE,
        (p + 1) * record::SIZE,
        (x - (p + 1)) * record::SIZE,
    );
    Ok(Some(p + RESULT))
}

// Step 8: 0^n = 0 and 1^n = 1, with the power's mark.
pub fn power_constant(
    out: &mut [u8],
    work: &mut [u8],
    d: usize,
    p: usize,
) -> Result<Option<usize>, OutOfRange>
    requires { (t : Tree) × (rest : List ℕ) × Ready out.old work.old d p t rest }
    ensures { (t : Tree) (rest : List ℕ) → Ready out.old work.old d p t rest
        → Answers (power_constant t) rest out.old out.new work.old work.new d p result }
{
    if Kind::at(work, p) != Kind::Power {
        return Ok(None);
    }
    if Kind::at(work, p + 1) != Kind::Integer {
        return Ok(None);
    }
    let v = record::bits(work, p + 1);
    if 1 < v {
        return Ok(None);
    }
    let mark = record::mark(work, p);
    record::write_record(work, p + RESULT, record::INTEGER, 0, mark, v);
    Ok(Some(p + RESULT))
}

// Step 9: (a^m)^n = a^(m*n). The base moves one record to the right, between the power's record and the product of the exponents,
// which have the outer power's mark and its exponent's.
pub fn power_power(
    out: &mut [u8],
    work: &mut [u8],
    d: usize,
    p: usize,
) -> Result<Option<usize>, OutOfRange>
    requires { (t : Tree) × (rest : List ℕ) × Ready out.old work.old d p t rest }
    ensures { (t : Tree) (rest : List ℕ) → Ready out.old work.old d p t rest
        → Answers (power_power t) rest out.old out.new work.old work.new d p result }
{
    if Kind::at(work, p) != Kind::Power {
        return Ok(None);
    }
    if Kind::at(work, p + 1) != Kind::Power {
        return Ok(None);
    }
    let y = split::skip_tree(work, p + INNER);
    let n = number::mul(record::bits(work, y), record::bits(work, y + 1))?;
    let mark = record::mark(work, p);
    let exponent_mark = record::mark(work, y + 1);
    stretch::shift_right(
        work,
        (p + MOVED) * record::SIZE,
        (p + INNER) * record::SIZE,
        (y - (p + INNER)) * record::SIZE,
    );
    record::write_record(work, y + 1, record::INTEGER, 0, exponent_mark, n);
    record::write_record(work, p + RESULT, record::POWER, 0, mark, 0);
    note::close(work, p + RESULT);
    Ok(Some(p + RESULT))
}
