// The receiver of tables that come over the serial link in pieces: by value, and in thin functions over it that change the link task's
// record on the spot.
#![tactic(auto)]

ghost use Rattle.std.specs.Prelude.{◌≡◌, ◌≤◌, length};
ghost use Rattle.paper_receiver.specs.Receiver.{is_past, with_piece, received, finish_verdict, finish_state};
ghost use Rattle.table.specs.Refusals.{stands_for};
ghost use Rattle.receiver.specs.Receiving.{says, held, gives, most_of, kept_verdict};

use table::Refusal;

// The link task's record: how many bytes of the area are the table's, and whether more came than are kept (0 for no). It is handed in as two
// numbers, of which any may be there, and a call that is refused leaves them.
#[derive(Clone, Copy, PartialEq, Eq)]
pub struct Receiver {
    pub count: usize,
    pub past: usize,
}

// The answer to a piece, and the record afterwards.
#[derive(Clone, Copy)]
pub struct Taking {
    pub state: Receiver,
    pub taken: Result<(), Refusal>,
}

// The checker's answer at the finish, and the record afterwards.
#[derive(Clone, Copy)]
pub struct Finishing {
    pub state: Receiver,
    pub judged: Result<(), Refusal>,
}

// More came than the most that is kept, by what the record says.
fn is_past(most: usize, r: Receiver) -> bool
    ensures { result ≡ is_past most (says r) }
{
    r.past != 0 || most < r.count
}

// The most bytes of a table that are kept, unless there is no such limit, or the area is short of them.
fn most_of(limit: usize, area: &[u8]) -> Result<usize, Refusal>
    ensures { result ≡ most_of limit area.now }
{
    if !table::is_limit(limit) {
        return Err(Refusal::Limit);
    }
    let most = record::SIZE * limit;
    if area.len() < most {
        return Err(Refusal::Room);
    }
    Ok(most)
}

// As much of a piece as there is room for is kept behind what came before, and nothing past the most.
fn keep(most: usize, r: Receiver, area: &mut [u8], piece: &[u8]) -> Receiver
    requires { most ≤ length area.old }
    ensures { held result area.new ≡ with_piece most (held r area.old) piece.now }
{
    if is_past(most, r) {
        return r;
    }
    let n = piece.len();
    let kept = n.min(most - r.count);
    stretch::copy_bytes(area, r.count, piece, 0, kept);
    Receiver {
        count: r.count + kept,
        past: if kept < n { 1 } else { 0 },
    }
}

// The checker's answer on what was kept, 1 past the most.
fn judge(limit: usize, most: usize, r: Receiver, area: &[u8]) -> Result<(), Refusal>
    requires { most ≤ length area.now }
    ensures { stands_for result ≡ kept_verdict limit most (held r area.now) }
{
    if is_past(most, r) {
        return Err(Refusal::Length);
    }
    table::check(limit, &area[..r.count])
}

// A piece is taken, and nothing of it past the limit.
pub fn after_piece(limit: usize, r: Receiver, area: &mut [u8], piece: &[u8]) -> Taking
    ensures { gives result.taken result.state area.new ≡ received limit (held r area.old) piece.now }
{
    match most_of(limit, area) {
        Ok(most) => Taking {
            state: keep(most, r, area, piece),
            taken: Ok(()),
        },
        Err(refusal) => Taking {
            state: r,
            taken: Err(refusal),
        },
    }
}

// The finish: the checker's answer on what was kept; the receiver is empty afterwards.
pub fn at_finish(limit: usize, r: Receiver, area: &[u8]) -> Finishing
    ensures { (stands_for result.judged ≡ finish_verdict limit (held r area.now))
        × (says result.state ≡ finish_state limit (held r area.now)) }
{
    match most_of(limit, area) {
        Ok(most) => Finishing {
            state: Receiver { count: 0, past: 0 },
            judged: judge(limit, most, r, area),
        },
        Err(refusal) => Finishing {
            state: r,
            judged: Err(refusal),
        },
    }
}

// Takes a piece, and changes the link task's record on the spot.
pub fn take(limit: usize, r: &mut Receiver, area: &mut [u8], piece: &[u8]) -> Result<(), Refusal>
    ensures { gives result r.new area.new ≡ received limit (held r.old area.old) piece.now }
{
    let t = after_piece(limit, *r, area, piece);
    *r = t.state;
    t.taken
}

// Finishes, and empties the link task's record on the spot.
pub fn finish(limit: usize, r: &mut Receiver, area: &[u8]) -> Result<(), Refusal>
    ensures { (stands_for result ≡ finish_verdict limit (held r.old area.now))
        × (says r.new ≡ finish_state limit (held r.old area.now)) }
{
    let f = at_finish(limit, *r, area);
    *r = f.state;
    f.judged
}
