// The rules, each tried on one node of the pending records, and all of them asked in the paper's order. The records are noted, and a rule
// that writes a node's record closes it.
#![tactic(auto)]

ghost use Rattle.std.specs.Prelude.{◌≡◌, false, List, ℕ, MatchOption};
ghost use Rattle.paper.specs.Tree.{Tree};
ghost use Rattle.paper.specs.Record.{is_node};
ghost use Rattle.paper.specs.Rules.{rules_of};
ghost use Rattle.record.specs.Kinds.{number_of};
ghost use Rattle.part.specs.Like.{node_kind};
ghost use Rattle.rules.specs.Alike.{rule_of, first_for, end_for};
ghost use Rattle.rules.specs.Asked.{Ready, AskedIs, CombinedIs};
ghost use Rattle.rules.specs.Tried.{Answers};

mod add;
mod combine;
mod gathered;
mod members;
mod multiply;
mod power;

use number::OutOfRange;
use record::kinds::Kind;

// A step that applied: its number in the paper, and the record that its result is pending from.
#[derive(Clone, Copy)]
pub struct Applied {
    pub step: u8,
    pub at: usize,
}

// What became of a gathered node: nothing, and the rules are to be asked; nothing, for none of them applies; the step that applies, and the
// record that its result is pending from; the step that applies, its result standing finished in out, up to a record.
#[derive(Clone, Copy)]
pub enum Combined {
    No,
    Nothing,
    Pending(u8, usize),
    Quiet(u8, usize),
}

// The steps, by their numbers in the paper. They are numbers and no enum: the driver notes them as bytes, which the listing reads, so an enum would only
// name each of them twice.
pub const ADD_ZERO: u8 = 1;

pub const COMBINE_LIKE_TERMS: u8 = 2;

pub const MULTIPLY_ZERO: u8 = 3;

pub const MULTIPLY_ONE: u8 = 4;

pub const COMBINE_LIKE_FACTORS: u8 = 6;

pub const POWER_ONE: u8 = 7;

pub const POWER_CONSTANT: u8 = 8;

pub const POWER_POWER: u8 = 9;

// Where in STEPS those for a product, and those for a power begin, and where these end.
const FOR_PRODUCT: usize = 2;

const FOR_POWER: usize = 5;

const ALL: usize = 8;

// The edition that has rules on powers.
const WITH_POWERS: usize = 2;

// The steps, in the paper's order: those for a sum, after them those for a product, and those for a power, which edition two adds.
const STEPS: [u8; ALL] = [
    ADD_ZERO,
    COMBINE_LIKE_TERMS,
    MULTIPLY_ZERO,
    MULTIPLY_ONE,
    COMBINE_LIKE_FACTORS,
    POWER_ONE,
    POWER_CONSTANT,
    POWER_POWER,
];

// Tries the rule of one step on the node at record p of work. Answers the record that its result is pending from, or none where it does not apply; an
// error where the range is exceeded. A number that no rule has never applies.
fn try_step(
    out: &mut [u8],
    work: &mut [u8],
    d: usize,
    p: usize,
    step: u8,
) -> Result<Option<usize>, OutOfRange>
    requires { (t : Tree) × (rest : List ℕ) × Ready out.old work.old d p t rest }
    ensures { (t : Tree) (rest : List ℕ) → Ready out.old work.old d p t rest
        → Answers (rule_of step t) rest out.old out.new work.old work.new d p result }
{
    match step {
        ADD_ZERO => add::add_zero(out, work, d, p),
        COMBINE_LIKE_TERMS => add::combine_like_terms(out, work, d, p),
        MULTIPLY_ZERO => multiply::multiply_zero(out, work, d, p),
        MULTIPLY_ONE => multiply::multiply_one(out, work, d, p),
        COMBINE_LIKE_FACTORS => multiply::combine_like_factors(out, work, d, p),
        POWER_ONE => power::power_one(out, work, d, p),
        POWER_CONSTANT => power::power_constant(out, work, d, p),
        POWER_POWER => power::power_power(out, work, d, p),
        _ => Ok(None),
    }
}

// Where in STEPS those for a tree of this kind begin.
fn first_for(kind: Kind) -> usize
    ensures { result ≡ first_for (number_of kind) }
{
    match kind {
        Kind::Product => FOR_PRODUCT,
        Kind::Power => FOR_POWER,
        _ => 0,
    }
}

// Where in STEPS they end, in this edition. For a leaf there are none, and for a power there are some in edition two alone.
fn end_for(kind: Kind, edition: usize) -> usize
    ensures { result ≡ end_for (number_of kind) edition }
{
    match kind {
        Kind::Sum => FOR_PRODUCT,
        Kind::Product => FOR_POWER,
        Kind::Power if edition == WITH_POWERS => ALL,
        Kind::Power => FOR_POWER,
        _ => 0,
    }
}

// Tries the rules of the edition, in the paper's order, on the node at record p of work; those for another kind of node are passed over,
// for none of them applies. A rule builds its result in out, from record d on. Answers the step that applied, or none; an error where a rule exceeds
// the range.
pub fn ask(
    out: &mut [u8],
    work: &mut [u8],
    d: usize,
    p: usize,
    edition: usize,
) -> Result<Option<Applied>, OutOfRange>
    requires { (t : Tree) × (rest : List ℕ) × Ready out.old work.old d p t rest }
    ensures { (t : Tree) (rest : List ℕ) → Ready out.old work.old d p t rest
        → AskedIs (rules_of edition) t rest out.old out.new work.new d p result }
{
    let kind = Kind::at(work, p);
    for i in first_for(kind)..end_for(kind, edition) {
        let step = STEPS[i];
        if let Some(at) = try_step(out, work, d, p, step)? {
            return Ok(Some(Applied { step, at }));
        }
    }
    Ok(None)
}

// Whether a node of this kind is a sum; none for a kind that is no sum and no product.
fn is_sum(kind: Kind) -> Option<bool>
    ensures { MatchOption result (is_node (number_of kind) ≡ false) (λ b. number_of kind ≡ node_kind b) }
{
    match kind {
        Kind::Sum => Some(true),
        Kind::Product => Some(false),
        _ => None,
    }
}

// Combines the like members of the gathered node at record p of work, whose members are finished: step 2 or 6, where no rule before it
// applies. Nothing is said of a leaf, of a power, and of a node at which a rule before it applies or the range is left. The result is built in
// out, from record d on.
pub fn combine_gathered(
    out: &mut [u8],
    work: &mut [u8],
    d: usize,
    p: usize,
    edition: usize,
) -> Combined
    requires { (t : Tree) × (rest : List ℕ) × Ready out.old work.old d p t rest }
    ensures { (t : Tree) (rest : List ℕ) → Ready out.old work.old d p t rest
        → CombinedIs (rules_of edition) t rest out.old out.new work.new d p result }
{
    let Some(terms) = is_sum(Kind::at(work, p)) else {
        return Combined::No;
    };
    if gathered::any_earlier(work, p, terms) {
        return Combined::No;
    }
    gathered::combine_members(out, work, d, p, terms, edition)
}
