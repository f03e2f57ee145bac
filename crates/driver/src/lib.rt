// The driver: at a node the rules of an edition are asked, then the members are driven and gathered, and it begins again while anything changes.
#![tactic(auto)]

ghost use Rattle.std.specs.Prelude.{◌≡◌, List, ℕ, ◌+◌, ◌*◌, ◌^◌, ◌≤◌, ◌<◌, ◌&&◌, length, eqb, MatchResult, IfOk, IfErr};
ghost use Rattle.paper.specs.Record.{kind, is_node, arity};
ghost use Rattle.paper.specs.Tree.{Tree};
ghost use Rattle.paper.specs.Rules.{rules_of};
ghost use Rattle.record.specs.Kinds.{number_of};
ghost use Rattle.stretch.specs.Put.{part, put};
ghost use Rattle.rules.specs.Asked.{Ready};
ghost use Rattle.driver.specs.Driven.{closed_over, Set, Back, SettledIs, EasedIs, TakenIs, KeptIs, Gathers, Closed};
ghost use Rattle.driver.specs.Paused.{first_stand, begun_at, joined_to, kept_by, ended_at, Onward};
ghost use Rattle.driver.specs.Paused.{Call, Fell, Drivable, Drives, Midway, Resumed, GoesOn, WentOn, TurnIs};

use record::SIZE;
use record::kinds::Kind;

// A rule left the range; `steps` were completed before it.
#[derive(Clone, Copy)]
pub struct LeftRange {
    pub steps: usize,
}

// Where a tree stands once no rule applies to it, and the steps noted.
#[derive(Clone, Copy)]
struct Settled {
    at: usize,
    noted: usize,
}

// Takes steps at the tree at record p of work until no rule applies. Where the notes tell that none does, none is asked.
fn settle(
    out: &mut [u8],
    work: &mut [u8],
    steps: &mut [u8],
    d: usize,
    p: usize,
    s: usize,
    edition: usize,
) -> Result<Settled, LeftRange>
    requires { (t : Tree) × (rest : List ℕ) × Set out.old work.old steps.old d p s t rest }
    ensures { (t : Tree) (rest : List ℕ) → Set out.old work.old steps.old d p s t rest
        → SettledIs (rules_of edition) t rest out.old out.new work.new
        steps.old steps.new d s result }
{
    let mut at = p;
    let mut noted = s;
    loop {
        if still::still(work, at, out, d * SIZE, edition) {
            return Ok(Settled { at, noted });
        }
        let Ok(asked) = rules::ask(out, work, d, at, edition) else {
            return Err(LeftRange { steps: noted });
        };
        let Some(applied) = asked else {
            return Ok(Settled { at, noted });
        };
        steps[noted] = applied.step;
        noted += 1;
        at = applied.at;
    }
}

// What became of a gathered node that stands in front of what is pending: finished after one step, its result standing in out, up to a record; or
// settled.
#[derive(Clone, Copy)]
enum Eased {
    Quiet(usize),
    Settled(Settled),
}

// Takes steps at the gathered node at record p of work until no rule applies, its like members being combined first.
fn ease(
    out: &mut [u8],
    work: &mut [u8],
    steps: &mut [u8],
    d: usize,
    p: usize,
    s: usize,
    edition: usize,
) -> Result<Eased, LeftRange>
    requires { (t : Tree) × (rest : List ℕ) × Set out.old work.old steps.old d p s t rest }
    ensures { (t : Tree) (rest : List ℕ) → Set out.old work.old steps.old d p s t rest
        → EasedIs (rules_of edition) t rest out.old out.new work.new
        steps.old steps.new d p s result }
{
    let c = rules::combine_gathered(out, work, d, p, edition);
    match c {
        rules::Combined::No => {
            let settled = settle(out, work, steps, d, p, s, edition)?;
            Ok(Eased::Settled(settled))
        }
        rules::Combined::Nothing => Ok(Eased::Settled(Settled { at: p, noted: s })),
        rules::Combined::Pending(k, q) => {
            steps[s] = k;
            let settled = settle(out, work, steps, d, q, s + 1, edition)?;
            Ok(Eased::Settled(settled))
        }
        rules::Combined::Quiet(k, e) => {
            steps[s] = k;
            Ok(Eased::Quiet(e))
        }
    }
}

// A gathered node: finished, and what is pending after it; or finished after one more step, up to a record of out, and what is pending; or, after
// steps, settled.
#[derive(Clone, Copy)]
enum TakenUp {
    Finished(usize),
    Quiet(usize, usize),
    Stepped(Settled),
}

// Takes up the gathered node that stands from record d up to e of out, q being the first record pending: where no rule applies it is finished, for its
// members are; else it goes back in front of what is pending, and steps are taken, its like members being combined first.
fn take_up(
    out: &mut [u8],
    work: &mut [u8],
    steps: &mut [u8],
    d: usize,
    e: usize,
    q: usize,
    s: usize,
    edition: usize,
) -> Result<TakenUp, LeftRange>
    requires { (g : Tree) × (rest : List ℕ) × Back out.old work.old steps.old d e q s g rest }
    ensures { (g : Tree) (rest : List ℕ) → Back out.old work.old steps.old d e q s g rest
        → TakenIs (rules_of edition) g rest out.old out.new work.new
        steps.old steps.new d e s result }
{
    if still::still(out, d, work, 0, edition) {
        return Ok(TakenUp::Finished(q));
    }
    let size = e - d;
    let at = q - size;
    stretch::copy_bytes(work, at * SIZE, out, d * SIZE, size * SIZE);
    let eased = ease(out, work, steps, d, at, s, edition)?;
    match eased {
        Eased::Quiet(f) => Ok(TakenUp::Quiet(f, q)),
        Eased::Settled(settled) => {
            if s < settled.noted {
                return Ok(TakenUp::Stepped(settled));
            }
            stretch::copy_bytes(out, d * SIZE, work, settled.at * SIZE, size * SIZE);
            Ok(TakenUp::Finished(settled.at + size))
        }
    }
}

// Where the driver stands: the first record pending, the steps noted, the openings and the tries so far; and at which node: its record in out, where what
// is gathered after it ends, its members left, the trees gathered, and the steps and openings before the pass over them.
#[derive(Clone, Copy)]
pub struct Stand {
    pub edition: usize,
    pub place: usize,
    pub noted: usize,
    pub openings: usize,
    pub tries: usize,
    pub node: usize,
    pub end: usize,
    pub left: usize,
    pub gathered: usize,
    pub prior: usize,
}

// Where the driver stands at the beginning: the tree is pending at record p, nothing is done, noted or tried.
pub fn first_stand(edition: usize, p: usize) -> Stand
    ensures { result ≡ first_stand edition p }
{
    Stand {
        edition,
        place: p,
        noted: 0,
        openings: 0,
        tries: 0,
        node: 0,
        end: 0,
        left: 0,
        gathered: 0,
        prior: 0,
    }
}

// How a pass ended: the tree is finished, up to a record of out, or it begins again; the first record pending, the steps noted and the tries.
#[derive(Clone, Copy)]
enum Turn {
    Finished {
        end: usize,
        place: usize,
        noted: usize,
        tries: usize,
    },
    Again {
        place: usize,
        noted: usize,
        tries: usize,
    },
}

// What the levels of the driver share: the areas, and where it stands.
#[derive(Drop)]
struct Driver<'a> {
    out: &'a mut [u8],
    work: &'a mut [u8],
    steps: &'a mut [u8],
    stand: Stand,
}

// Drives the tree pending until nothing changes, and appends its result to the records done and its steps to those noted. Answers where the
// result ends. The levels share all but the four numbers of its node, which each keeps.
fn drive_tree(w: &mut Driver) -> Result<usize, LeftRange>
    requires { Drivable w.old.out.now w.old.work.now w.old.steps.now w.old.stand }
    ensures drives { Drives w.old.out.now w.old.work.now w.old.steps.now w.old.stand
        w.new.out.now w.new.work.now w.new.steps.now w.new.stand result }
    ensures same_lengths { (length w.new.out.now ≡ length w.old.out.now) × (length w.new.work.now ≡ length w.old.work.now)
        × (length w.new.steps.now ≡ length w.old.steps.now) }
    ensures same_references { (w.new.out.ghost_name ≡ w.old.out.ghost_name) × (w.new.work.ghost_name ≡ w.old.work.ghost_name)
        × (w.new.steps.ghost_name ≡ w.old.steps.ghost_name) }
{
    let mut end = go_on(w, None)?;
    while 0 < w.stand.left {
        let node = w.stand.node;
        let left = w.stand.left;
        let gathered = w.stand.gathered;
        let prior = w.stand.prior;
        w.stand.node = w.stand.end;
        let member = drive_tree(w)?;
        w.stand.end = w.stand.node;
        w.stand.node = node;
        w.stand.left = left;
        w.stand.gathered = gathered;
        w.stand.prior = prior;
        end = go_on(w, Some(member))?;
    }
    Ok(end)
}

// The same, of areas and a place that are lent. Where a rule left the range the place, too, has the steps noted.
pub fn drive(
    out: &mut [u8],
    work: &mut [u8],
    steps: &mut [u8],
    st: &mut Stand,
) -> Result<usize, LeftRange>
    requires { Drivable out.old work.old steps.old st.old }
    ensures drives { Drives out.old work.old steps.old st.old
        out.new work.new steps.new st.new result }
    ensures noted { IfErr result (λ l. st.new.noted ≡ l.steps) }
{
    let mut driver = Driver {
        out,
        work,
        steps,
        stand: *st,
    };
    let driven = drive_tree(&mut driver);
    *st = driver.stand;
    if let Err(left) = driven {
        st.noted = left.steps;
    }
    driven
}

// Goes on with the tree, from its beginning, or from the result of the member that it waited for, which ends at g: up to the next member that is to be
// driven, or to the end. Answers where what is gathered ends.
fn go_on(w: &mut Driver, g: Option<usize>) -> Result<usize, LeftRange>
    requires { (c : Call) × GoesOn c w.old.out.now w.old.work.now w.old.steps.now w.old.stand g }
    ensures onward { IfOk result (λ e. (e ≡ w.new.stand.end) × Onward w.old.stand w.new.stand) }
    ensures went { (c : Call) → GoesOn c w.old.out.now w.old.work.now w.old.steps.now w.old.stand g
        → MatchResult result (λ e. WentOn c w.new.out.now w.new.work.now w.new.steps.now w.new.stand) (λ x. Fell c x.steps) }
    ensures same_lengths { (length w.new.out.now ≡ length w.old.out.now) × (length w.new.work.now ≡ length w.old.work.now)
        × (length w.new.steps.now ≡ length w.old.steps.now) }
    ensures same_references { (w.new.out.ghost_name ≡ w.old.out.ghost_name) × (w.new.work.ghost_name ≡ w.old.work.ghost_name)
        × (w.new.steps.ghost_name ≡ w.old.steps.ghost_name) }
{
    let begun = first(w.out, w.work, w.steps, w.stand, g)?;
    w.stand = pass_on(w.out, w.work, w.steps, begun)?;
    Ok(w.stand.end)
}

// The tree is settled and a pass begun; or the member's result, which ends at g, is gathered.
fn first(
    out: &mut [u8],
    work: &mut [u8],
    steps: &mut [u8],
    s: Stand,
    g: Option<usize>,
) -> Result<Stand, LeftRange>
    requires { (c : Call) × GoesOn c out.old work.old steps.old s g }
    ensures onward { IfOk result (λ x. Onward s x) }
    ensures begun { (c : Call) → GoesOn c out.old work.old steps.old s g
        → MatchResult result (λ x. Midway c out.new work.new steps.new x) (λ l. Fell c l.steps) }
{
    if let Some(end) = g {
        return Ok(gather(out, s, end));
    }
    let settled = settle(out, work, steps, s.node, s.place, s.noted, s.edition)?;
    let tries = s.tries + (settled.noted - s.noted);
    Ok(begin(out, work, s, settled.at, settled.noted, tries))
}

// Begins a pass over the members of the tree at record q of work: its first record goes to done.
fn begin(out: &mut [u8], work: &[u8], s: Stand, q: usize, n: usize, tries: usize) -> Stand
    requires { (s.node * 16 + 16 ≤ length out.old) × (q * 16 + 16 ≤ length work.now) × (n + s.openings < 65536) }
    ensures { (result ≡ begun_at s q n tries (arity work.now q))
        × (out.new ≡ put out.old (s.node * 16) (part work.now (q * 16) 16)) }
{
    let d = s.node;
    record::copy_record(out, d, work, q);
    Stand {
        place: q + 1,
        noted: n,
        tries,
        end: d + 1,
        left: record::arity(work, q),
        gathered: 0,
        prior: n + s.openings,
        ..s
    }
}

// Gathers the result of a member, which ends at g: opens it where it is of the node's kind.
fn gather(out: &mut [u8], s: Stand, g: usize) -> Stand
    requires { (c : Call) × (work : List ℕ) × (steps : List ℕ) × Resumed c out.old work steps s g }
    ensures { Onward s result × ((c : Call) (work steps : List ℕ) → Resumed c out.old work steps s g → Midway c out.new work steps result) }
{
    let e = s.end;
    let k = record::kind(out, s.node);
    if opens(k, record::kind(out, e)) {
        let m = record::count(out, e);
        stretch::shift_left(out, e * SIZE, e * SIZE + SIZE, (g - e - 1) * SIZE);
        return joined(s, g - 1, s.openings + 1, m);
    }
    joined(s, g, s.openings, 1)
}

// A member's result is gathered to m trees, which end at f, after o openings.
fn joined(s: Stand, f: usize, o: usize, m: usize) -> Stand
    requires { (1 ≤ s.left) × (s.gathered + m < 2 ^ 63) }
    ensures { result ≡ joined_to s f o m }
{
    Stand {
        openings: o,
        end: f,
        left: s.left - 1,
        gathered: s.gathered + m,
        ..s
    }
}

// The most members of a member that is looked at before it is driven: at one that has more, a look in vain costs too much.
const FEW: usize = 8;

// Keeps the member at record q of work, of the node at record d of out, where it is finished as it stands: a leaf; or a node that is not opened
// there, that has few members and all of them leaves, and whose notes tell that no rule applies. It goes to record e of out, from which on there
// is scratch. Answers the number of its records, none where it is to be driven.
fn keep_member(
    out: &mut [u8],
    work: &[u8],
    e: usize,
    q: usize,
    d: usize,
    edition: usize,
) -> Option<usize>
    requires { (d < e) × ((t : Tree) × (rest : List ℕ) × Ready out.old work.now e q t rest) }
    ensures { (t : Tree) (rest : List ℕ) → Ready out.old work.now e q t rest
        → KeptIs (rules_of edition) (kind out.old d) t out.old out.new e result }
{
    let j = record::kind(work, q);
    if j < record::SUM {
        record::copy_record(out, e, work, q);
        return Some(1);
    }
    if opens(record::kind(out, d), j) {
        return None;
    }
    let n = record::arity(work, q) + 1;
    if n < note::records_of(record::bits(work, q)) || FEW < n - 1 {
        return None;
    }
    if still::still(work, q, out, e * SIZE, edition) {
        stretch::copy_bytes(out, e * SIZE, work, q * SIZE, n * SIZE);
        return Some(n);
    }
    None
}

// Keeps the members up to the next one that is to be driven: each is finished after as many tries as it has records.
fn keep_members(out: &mut [u8], work: &[u8], s: Stand) -> Stand
    requires { (c : Call) × (steps : List ℕ) × Midway c out.old work.now steps s }
    ensures { Onward s result × (result.noted ≡ s.noted) × ((c : Call) (steps : List ℕ) → Midway c out.old work.now steps s
        → Midway c out.new work.now steps result) }
{
    let mut r = 0;
    for i in 0..s.left {
        let Some(n) = keep_member(out, work, s.end + r, s.place + r, s.node, s.edition) else {
            return kept(s, i, r);
        };
        r += n;
    }
    kept(s, s.left, r)
}

// Members are kept, i of them, of r records, one try for each record.
fn kept(s: Stand, i: usize, r: usize) -> Stand
    requires { (i ≤ s.left) × (s.place + r < 2 ^ 63) × (s.tries + r < 2 ^ 63) × (s.end + r < 2 ^ 63) × (s.gathered + i < 2 ^ 63) }
    ensures { result ≡ kept_by s i r }
{
    Stand {
        place: s.place + r,
        tries: s.tries + r,
        end: s.end + r,
        left: s.left - i,
        gathered: s.gathered + i,
        ..s
    }
}

// Goes on with a pass: up to the next member that is to be driven, or, beginning again while anything changes, to the end.
fn pass_on(
    out: &mut [u8],
    work: &mut [u8],
    steps: &mut [u8],
    from: Stand,
) -> Result<Stand, LeftRange>
    requires { (c : Call) × Midway c out.old work.old steps.old from }
    ensures onward { IfOk result (λ x. Onward from x) }
    ensures went { (c : Call) → Midway c out.old work.old steps.old from
        → MatchResult result (λ x. WentOn c out.new work.new steps.new x) (λ l. Fell c l.steps) }
{
    let mut s = from;
    loop {
        let k = keep_members(out, work, s);
        if 0 < k.left {
            return Ok(k);
        }
        let turn = end_pass(out, work, steps, k)?;
        match turn {
            Turn::Finished {
                end,
                place,
                noted,
                tries,
            } => return Ok(ended(k, end, place, noted, tries)),
            Turn::Again {
                place,
                noted,
                tries,
            } => {
                s = begin(out, work, k, place, noted, tries);
            }
        }
    }
}

// The tree is finished.
fn ended(s: Stand, e: usize, q: usize, n: usize, tries: usize) -> Stand
    ensures { result ≡ ended_at s e q n tries }
{
    Stand {
        place: q,
        noted: n,
        tries,
        end: e,
        left: 0,
        ..s
    }
}

// Ends a pass, all members being gathered: where nothing changed the node is finished; else it is closed up and taken up.
fn end_pass(out: &mut [u8], work: &mut [u8], steps: &mut [u8], s: Stand) -> Result<Turn, LeftRange>
    requires { (s.left ≤ 0) × ((c : Call) × Midway c out.old work.old steps.old s) }
    ensures { (c : Call) → Midway c out.old work.old steps.old s
        → TurnIs c out.new work.new steps.new s result }
{
    let tries = s.tries + 1;
    if s.noted + s.openings <= s.prior {
        return Ok(Turn::Finished {
            end: s.end,
            place: s.place,
            noted: s.noted,
            tries,
        });
    }
    close_up(out, Kind::at(out, s.node), s.gathered, s.node);
    let taken = take_up(out, work, steps, s.node, s.end, s.place, s.noted, s.edition)?;
    let turn = match taken {
        TakenUp::Finished(r) => {
            // Each of its records would be asked once more, in vain.
            Turn::Finished {
                end: s.end,
                place: r,
                noted: s.noted,
                tries: tries + (s.end - s.node),
            }
        }
        TakenUp::Quiet(f, r) => Turn::Finished {
            end: f,
            place: r,
            noted: s.noted + 1,
            tries: tries + 1 + (f - s.node),
        },
        TakenUp::Stepped(settled) => Turn::Again {
            place: settled.at,
            noted: settled.noted,
            tries: tries + (settled.noted - s.noted),
        },
    };
    Ok(turn)
}

// A tree of kind j is opened among the members of a node of kind k: a sum in a sum, a product in a product.
// The kinds are the records' first bytes: `keep_member` asks nothing of the record at d, so a Kind would tell less of it than is promised.
fn opens(k: u8, j: u8) -> bool
    ensures { result ≡ (eqb j k && is_node k) }
{
    j == k && (k == record::SUM || k == record::PRODUCT)
}

// The first record of a gathered node at d, of kind k: a sum's or a product's gets the number m of its gathered members, and keeps its mark; and
// its note is made.
fn close_up(out: &mut [u8], k: Kind, m: usize, d: usize)
    requires { (t : Tree) × (l : List Tree) × (e : ℕ) × Gathers t l out.old d e (number_of k) m }
    ensures { (t : Tree) (l : List Tree) (e : ℕ) → Gathers t l out.old d e (number_of k) m
        → Closed (closed_over t l) out.old out.new d e }
{
    match k {
        Kind::Integer | Kind::Symbol => {}
        Kind::Power => note::close(out, d),
        Kind::Sum | Kind::Product => {
            let mark = record::mark(out, d);
            record::write_record(out, d, k.number(), m, mark, 0);
            note::close(out, d);
        }
    }
}
