// Each defined symbol of a formula is replaced by the tree of its definition, again inside the replacement. A symbol has no members, so the
// opened table is the formula's records in order, each record of a defined symbol replaced by the opened records of its definition.
#![tactic(auto)]

ghost use Rattle.std.specs.Prelude.{◌≡◌, List, cond, ℕ, ◌+◌, ◌-◌, ◌*◌, ◌<◌, ◌≤◌, length, get_or, eqb, IfSome, MatchOption};
ghost use Rattle.paper.specs.Tree.{Tree};
ghost use Rattle.paper.specs.Record.{kind, symbol_in};
ghost use Rattle.paper_shared.specs.Shared.{Definition};
ghost use Rattle.paper_shared.specs.Answers.{length_at, beginning, table_at, misses, any_refused, is_among, twice, opening};
ghost use Rattle.replace.specs.Weighed.{told, count_at, weighs, most_counted, most_bytes, AllCounted};
ghost use Rattle.replace.specs.Index.{piece_at, Lies, Index, Knows, Openable, Holding};
ghost use Rattle.replace.specs.Place.{place_from};
ghost use Rattle.replace.specs.Planned.{handed, Planned};

use table::{Refusal, SYMBOL_WEIGHS};

// The most definitions, and the most places where one begins or the last one ends.
const DEFINITIONS: usize = 16;

const PLACES: usize = 17;

// There are as many symbols as a byte has values.
const SYMBOLS: usize = 256;

// The bytes of the length of a definition.
const LENGTH: usize = 8;

// The weight of the opened tree, the definition of each symbol + 1, and where each begins.
#[derive(Clone, Copy)]
pub struct Plan {
    pub weight: usize,
    pub which: [u8; SYMBOLS],
    pub from: [usize; PLACES],
}

// 8: the lists differ in length, or the lengths miss the bytes. Each length is taken off what is left, since their sum can wrap round.
fn misses(symbols: &[u8], lengths: &[u8], definitions: &[u8]) -> bool
    ensures { result ≡ misses symbols.now lengths.now definitions.now }
{
    if 0 < lengths.len() % LENGTH || lengths.len() / LENGTH != symbols.len() {
        return true;
    }
    let mut left = definitions.len() as u64;
    for i in 0..symbols.len() {
        let n = number::read8(lengths, i * LENGTH);
        if left < n {
            return true;
        }
        left -= n;
    }
    0 < left
}

// 15: one of the n definitions is refused.
fn any_refused(limit: usize, n: usize, lengths: &[u8], definitions: &[u8]) -> bool
    requires { (n * 8 ≤ length lengths.now) × (beginning lengths.now n ≤ length definitions.now) }
    ensures { result ≡ any_refused limit lengths.now definitions.now 0 n }
{
    let mut a = 0;
    for i in 0..n {
        let e = a + number::read8(lengths, i * LENGTH) as usize;
        if table::check(limit, &definitions[a..e]).is_err() {
            return true;
        }
        a = e;
    }
    false
}

// The symbol x is among those from symbol i on.
fn is_among(x: u8, symbols: &[u8], i: usize) -> bool
    requires { i ≤ length symbols.now }
    ensures { result ≡ is_among x symbols.now i (length symbols.now - i) }
{
    symbols[i..].contains(&x)
}

// 16: a symbol is defined twice.
fn twice(symbols: &[u8]) -> bool
    ensures { result ≡ twice symbols.now 0 (length symbols.now) }
{
    for (i, x) in symbols.iter().enumerate() {
        if is_among(*x, symbols, i + 1) {
            return true;
        }
    }
    false
}

// The definition of each symbol + 1; 0 for one that is not defined: one byte for each symbol keeps the plan small. The last symbol comes first,
// so that the first of two stays.
fn which_of(symbols: &[u8]) -> [u8; SYMBOLS]
    requires { length symbols.now ≤ 16 }
    ensures { (x : ℕ) → x < 256 → get_or result x 0 ≡ place_from symbols.now x 0 (length symbols.now) }
{
    let mut which = [0u8; SYMBOLS];
    for i in (0..symbols.len()).rev() {
        which[usize::from(symbols[i])] = (i + 1) as u8;
    }
    which
}

// Where each definition begins, and where the last one ends.
fn from_of(n: usize, lengths: &[u8]) -> [usize; PLACES]
    requires { (n ≤ 16) × (n * 8 ≤ length lengths.now) × (beginning lengths.now n < 18446744073709551616) }
    ensures { (j : ℕ) → j ≤ n → get_or result j 0 ≡ beginning lengths.now j }
{
    let mut from = [0usize; PLACES];
    let mut a = 0;
    for i in 0..n {
        a += number::read8(lengths, i * LENGTH) as usize;
        from[i + 1] = a;
    }
    from
}

// The definition of a symbol; none where it has none.
fn definition_of(which: &[u8; SYMBOLS], symbol: u8) -> Option<usize>
    ensures { MatchOption result (get_or which.now symbol 0 ≡ 0)
        (λ k. get_or which.now symbol 0 ≡ k + 1) }
{
    usize::from(which[usize::from(symbol)]).checked_sub(1)
}

// The definition of the symbol of record i; none where that has none, or the record is no symbol's.
fn found(s: &[u8], i: usize, which: &[u8; SYMBOLS]) -> Option<usize>
    requires { i * 16 + 16 ≤ length s.now }
    ensures { let place = cond (eqb (kind s.now i) 1) (get_or which.now (symbol_in s.now i) 0) 0 in
        MatchOption result (place ≡ 0) (λ k. place ≡ k + 1) }
{
    if record::kind(s, i) != record::SYMBOL {
        return None;
    }
    definition_of(which, record::symbol(s, i))
}

// What record i counts: 1, a symbol 3, a defined symbol what is known of its definition; nothing where that is nothing.
fn counted(
    s: &[u8],
    i: usize,
    which: &[u8; SYMBOLS],
    weights: &[Option<usize>; DEFINITIONS],
) -> Option<usize>
    requires { (i * 16 + 16 ≤ length s.now) × ((x : ℕ) → x < 256 → get_or which.now x 0 ≤ 16)
        × AllCounted weights.now }
    ensures counts { result ≡ told (count_at which.now weights.now s.now i) }
    ensures few { IfSome result (λ w. w ≤ most_counted) }
{
    if record::kind(s, i) != record::SYMBOL {
        return Some(1);
    }
    match definition_of(which, record::symbol(s, i)) {
        Some(k) => weights[k],
        None => Some(SYMBOL_WEIGHS),
    }
}

// The weight of a table, opened, from the weights of the definitions; one over the limit where it is too heavy, none where it cannot be opened.
fn weigh(
    limit: usize,
    s: &[u8],
    which: &[u8; SYMBOLS],
    weights: &[Option<usize>; DEFINITIONS],
) -> Option<usize>
    requires { (limit ≤ 16384) × (length s.now ≤ most_bytes) × ((x : ℕ) → x < 256 → get_or which.now x 0 ≤ 16)
        × AllCounted weights.now }
    ensures weighs { result ≡ weighs limit which.now weights.now s.now }
    ensures few { IfSome result (λ w. w ≤ most_counted) }
{
    let mut w = 0;
    for i in 0..s.len() / record::SIZE {
        w += counted(s, i, which, weights)?;
    }
    Some(w.min(limit + 1))
}

// The weights of the n definitions, opened one deeper than those that are known.
fn round(
    limit: usize,
    definitions: &[u8],
    which: &[u8; SYMBOLS],
    from: &[usize; PLACES],
    n: usize,
    weights: &[Option<usize>; DEFINITIONS],
) -> [Option<usize>; DEFINITIONS]
    requires { (limit ≤ 16384) × (n ≤ 16) × ((j : ℕ) → j < n → Lies definitions.now from.now j)
        × ((x : ℕ) → x < 256 → get_or which.now x 0 ≤ 16) × AllCounted weights.now }
    ensures weighs { (j : ℕ) → j < n
        → get_or result j None ≡ weighs limit which.now weights.now (piece_at definitions.now from.now j) }
    ensures few { AllCounted result }
{
    let mut next = [None; DEFINITIONS];
    for j in 0..n {
        next[j] = weigh(limit, &definitions[from[j]..from[j + 1]], which, weights);
    }
    next
}

// The weights of the n definitions, opened as deep as there are definitions.
fn rounds(
    limit: usize,
    definitions: &[u8],
    which: &[u8; SYMBOLS],
    from: &[usize; PLACES],
    n: usize,
) -> [Option<usize>; DEFINITIONS]
    requires { (limit ≤ 16384) × (n ≤ 16) × ((ds : List Definition) × Index ds definitions.now which.now from.now n) }
    ensures knows { (ds : List Definition) → Index ds definitions.now which.now from.now n
        → Knows limit ds which.now result n }
    ensures few { AllCounted result }
{
    let mut weights = [None; DEFINITIONS];
    for _ in 0..n {
        weights = round(limit, definitions, which, from, n, &weights);
    }
    weights
}

// Writes the records of a table, opened, from record d of the area on: each record of a defined symbol by those of its definition, opened in
// turn, any other as it is. The next free record.
pub fn open_records(
    definitions: &[u8],
    which: &[u8; SYMBOLS],
    from: &[usize; PLACES],
    s: &[u8],
    deep: usize,
    area: &mut [u8],
    d: usize,
) -> usize
    requires { (ds : List Definition) × (n : ℕ) × (t : Tree) × (v : Tree)
        × Openable ds definitions.now which.now from.now s.now area.old n deep d t v }
    ensures { (ds : List Definition) (n : ℕ) (t v : Tree)
        → Openable ds definitions.now which.now from.now s.now area.old n deep d t v
        → Holding v d result area.old area.new }
{
    let mut at = d;
    for i in 0..s.len() / record::SIZE {
        match found(s, i, which) {
            Some(k) => {
                at = open_records(
                    definitions,
                    which,
                    from,
                    &definitions[from[k]..from[k + 1]],
                    deep - 1,
                    area,
                    at,
                );
            }
            None => {
                stretch::copy_bytes(area, at * record::SIZE, s, i * record::SIZE, record::SIZE);
                at += 1;
            }
        }
    }
    at
}

// What becomes of a formula: the first of 19, 8, 1 to 5, 15, 16, 17 and 18 that applies; or the weight of the opened tree, and where each
// definition is found.
pub fn prepare(
    limit: usize,
    table: &[u8],
    symbols: &[u8],
    lengths: &[u8],
    definitions: &[u8],
) -> Result<Plan, Refusal>
    ensures { Planned limit (handed table.now symbols.now lengths.now definitions.now)
        (opening limit (handed table.now symbols.now lengths.now definitions.now)) result }
{
    if !table::is_limit(limit) {
        return Err(Refusal::Limit);
    }
    if misses(symbols, lengths, definitions) {
        return Err(Refusal::Lists);
    }
    table::check(limit, table)?;
    let n = symbols.len();
    if any_refused(limit, n, lengths, definitions) {
        return Err(Refusal::Definition);
    }
    if DEFINITIONS < n || twice(symbols) {
        return Err(Refusal::Defined);
    }
    let which = which_of(symbols);
    let from = from_of(n, lengths);
    let weights = rounds(limit, definitions, &which, &from, n);
    let Some(weight) = weigh(limit, table, &which, &weights) else {
        return Err(Refusal::Endless);
    };
    if limit < weight {
        return Err(Refusal::TooHeavy);
    }
    Ok(Plan {
        weight,
        which,
        from,
    })
}
