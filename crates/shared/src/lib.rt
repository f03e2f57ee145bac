// Formulas that share sub-formulas: up to 16 symbols are defined by tables of their own. One call opens a formula, the other opens and
// simplifies it.
#![tactic(auto)]

ghost use Rattle.std.specs.Prelude.{◌≡◌, ◌≤◌};
ghost use Rattle.paper_shared.specs.Answers.{open_given, shared_given};
ghost use Rattle.replace.specs.Planned.{handed};
ghost use Rattle.simplify.specs.Answer.{lent};
ghost use Rattle.shared.specs.Answer.{gives_opened, gives_shared, tight};

use simplify::Answer;
use table::Refusal;

// The records of the opened table, and its weight.
#[derive(Clone, Copy)]
pub struct Opened {
    pub records: usize,
    pub weight: usize,
}

// Opens a formula: the opened table stands at the beginning of the area, whose other bytes stay. All refusals leave the area as it was.
pub fn open(
    limit: usize,
    table: &[u8],
    symbols: &[u8],
    lengths: &[u8],
    definitions: &[u8],
    opened: &mut [u8],
) -> Result<Opened, Refusal>
    ensures { gives_opened result opened.new
        ≡ open_given limit (handed table.now symbols.now lengths.now definitions.now) opened.old }
{
    let p = replace::prepare(limit, table, symbols, lengths, definitions)?;
    let w = p.weight;
    if opened.len() < record::SIZE * w {
        return Err(Refusal::Room);
    }
    let records = replace::open_records(
        definitions,
        &p.which,
        &p.from,
        table,
        symbols.len(),
        opened,
        0,
    );
    Ok(Opened { records, weight: w })
}

// 6: one of the four areas, of these lengths, is too short for a run on an opened table of weight w.
fn is_tight(limit: usize, w: usize, opened: usize, out: usize, steps: usize, work: usize) -> bool
    requires { w ≤ 16384 }
    ensures { result ≡ tight limit w opened out steps work }
{
    if opened < record::SIZE * w {
        return true;
    }
    simplify::is_cramped(limit, w, out, steps, work)
}

// Opens a formula, and simplifies the opened table by the rules of an edition. 6 is known before the opened table is written: all refusals but
// 7 change no area.
pub fn simplify(
    limit: usize,
    edition: usize,
    table: &[u8],
    symbols: &[u8],
    lengths: &[u8],
    definitions: &[u8],
    opened: &mut [u8],
    out: &mut [u8],
    steps: &mut [u8],
    work: &mut [u8],
) -> Answer
    ensures { gives_shared result opened.new out.new steps.new work.new
        ≡ shared_given limit edition (handed table.now symbols.now lengths.now definitions.now) opened.old
        (lent out.old steps.old work.old) }
{
    if let Err(refusal) = simplify::judge_call(limit, edition) {
        return simplify::refused(refusal);
    }
    let p = match replace::prepare(limit, table, symbols, lengths, definitions) {
        Ok(p) => p,
        Err(r) => return simplify::refused(r),
    };
    if is_tight(
        limit,
        p.weight,
        opened.len(),
        out.len(),
        steps.len(),
        work.len(),
    ) {
        return simplify::refused(Refusal::Room);
    }
    let e = replace::open_records(
        definitions,
        &p.which,
        &p.from,
        table,
        symbols.len(),
        opened,
        0,
    );
    let end = record::SIZE * e;
    simplify::simplify(limit, edition, &opened[0..end], out, steps, work)
}
