// A whole site at once: the tables end to end, one after the other through the simplifier, each in what the ones before it left over.
#![tactic(auto)]

ghost use Rattle.std.specs.Prelude.{◌≡◌, ◌*◌, ◌/◌, ◌≤◌, length, eqb};
ghost use Rattle.table.specs.Refusals.{stands_for};
ghost use Rattle.simplify.specs.Answer.{lent};
ghost use Rattle.paper_batch.specs.Batch.{lengths_in, total, turns_down, site_number, site_called};
ghost use Rattle.batch.specs.Turn.{turn, turned, cleared, called, still};

use table::Refusal;

// The most items, the bytes of a length, and those of the place of an answer.
const ITEMS: usize = 200;

const LENGTH: usize = 8;

const PLACE: usize = 80;

// The lengths add up to the bytes given. What is left of these is counted down, so that no sum wraps.
fn adds_up(lengths: &[u8], given: usize) -> bool
    ensures { result ≡ eqb (total (lengths_in lengths.now)) given }
{
    let mut left = given as u64;
    for i in 0..lengths.len() / LENGTH {
        let next = number::read8(lengths, i * LENGTH);
        if left < next {
            return false;
        }
        left -= next;
    }
    left < 1
}

// 8: no list of lengths, over 200 items, lengths that do not add up, or fewer places for answers than items.
fn turns_down(tables: &[u8], lengths: &[u8], answers: &[u8]) -> bool
    ensures { result ≡ turns_down tables.now lengths.now answers.now }
{
    let n = lengths.len() / LENGTH;
    if 0 < lengths.len() % LENGTH || ITEMS < n {
        return true;
    }
    !adds_up(lengths, tables.len()) || answers.len() / PLACE < n
}

// What the call refuses: 19, a limit that there is not, 9, such an edition, then 8.
fn judge(
    limit: usize,
    edition: usize,
    tables: &[u8],
    lengths: &[u8],
    answers: &[u8],
) -> Result<(), Refusal>
    ensures { (stands_for result).number ≡ site_number limit edition tables.now lengths.now answers.now }
{
    simplify::judge_call(limit, edition)?;
    if turns_down(tables, lengths, answers) {
        return Err(Refusal::Lists);
    }
    Ok(())
}

// One item: its numbers go to the front of the slice for its answer. Answers W that it used up: all of it where it ran, to its end or
// to 7, and none where it was refused. `work` is cleared yet, where W was used up.
fn item(
    limit: usize,
    edition: usize,
    table: &[u8],
    out: &mut [u8],
    steps: &mut [u8],
    work: &mut [u8],
    answer: &mut [u8],
) -> usize
    requires { 80 ≤ length answer.old }
    ensures { turned result out.new steps.new (cleared limit result work.new) answer.new
        ≡ turn limit edition table.now (lent out.old steps.old work.old) answer.old }
{
    let a = simplify::simplify_in(limit, edition, table, out, steps, work);
    let numbers = simplify::answer_numbers(a);
    number::write_numbers(answer, &numbers);
    if a.number == simplify::RANGE {
        return table::weight(limit, table).unwrap_or(0);
    }
    a.weight_in
}

// The items one after the other: the next one's bytes begin at `at`, and it is handed what is past the first 16 x `used` bytes of `out`
// and `used` of `steps`. No item looks at what the one before it left in `work`, so that is cleared once, at the end, where an item ran.
fn in_turn(
    limit: usize,
    edition: usize,
    tables: &[u8],
    lengths: &[u8],
    out: &mut [u8],
    steps: &mut [u8],
    work: &mut [u8],
    answers: &mut [u8],
)
    requires { (total (lengths_in lengths.now) ≡ length tables.now) × (80 * (length lengths.now / 8) ≤ length answers.old) }
    ensures { called 0 out.new steps.new work.new answers.new
        ≡ still limit edition 0 0 (lengths_in lengths.now) tables.now
        (lent out.old steps.old work.old) answers.old }
{
    let mut at = 0;
    let mut used = 0;
    for i in 0..lengths.len() / LENGTH {
        let end = at + number::read8(lengths, i * LENGTH) as usize;
        let o = record::SIZE * used;
        let s = used;
        let p = PLACE * i;
        used += item(
            limit,
            edition,
            &tables[at..end],
            &mut out[o..],
            &mut steps[s..],
            work,
            &mut answers[p..],
        );
        at = end;
    }
    if 0 < used {
        stretch::clear(work, 0, simplify::work_bytes(limit));
    }
}

// The call for a whole site: refused, by 19, 9 or 8, it changes nothing; else the answers of the items stand in their places, and the areas are as
// the items leave them.
pub fn batch(
    limit: usize,
    edition: usize,
    tables: &[u8],
    lengths: &[u8],
    out: &mut [u8],
    steps: &mut [u8],
    work: &mut [u8],
    answers: &mut [u8],
) -> Result<(), Refusal>
    ensures { called (stands_for result).number out.new steps.new work.new answers.new
        ≡ site_called limit edition tables.now lengths.now
        (lent out.old steps.old work.old) answers.old }
{
    judge(limit, edition, tables, lengths, answers)?;
    in_turn(limit, edition, tables, lengths, out, steps, work, answers);
    Ok(())
}
