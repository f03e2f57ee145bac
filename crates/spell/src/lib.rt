// The text of a tree that stands in records, written where it fits and measured either way.
#![tactic(auto)]

ghost use Rattle.std.specs.Prelude.{◌≡◌, [], ◌∷◌, ℕ, ◌+◌, ◌-◌, ◌*◌, ◌^◌, ◌<◌, ◌≤◌, length};
ghost use Rattle.paper.specs.Bytes.{signed};
ghost use Rattle.paper.specs.Tree.{Tree, Forest, records, recordses};
ghost use Rattle.paper.specs.Record.{kind, bits};
ghost use Rattle.paper_text.specs.Text.{Place, power_sign, digits, signed_digits, needs, enclosed, text, joined};
ghost use Rattle.paper_text.specs.Levels.{rank};
ghost use Rattle.paper.specs.Standing.{TreeIn, TreesIn, SomeTree, SomeTrees};
ghost use Rattle.spell.specs.Ranks.{number_of};
ghost use Rattle.spell.specs.Spelt.{Put, TextPut, least_rank, Roomy, place_of};

use record::NEGATIVE;
use record::kinds::Kind;

// What all levels of the writer share: the area, the record that is next, and the place in the area.
#[derive(Drop)]
struct Writer<'a> {
    out: &'a mut [u8],
    next: usize,
    end: usize,
}

// The record after what is spelt, and the place after its text.
#[derive(Clone, Copy, PartialEq, Eq)]
pub struct Spelt {
    pub next: usize,
    pub end: usize,
}

// The ranks of trees: a symbol or an integer from 0; a negative integer or a power; a product; a sum.
#[derive(Clone, Copy, PartialEq, Eq, PartialOrd, Ord)]
enum Rank {
    Leaf,
    Power,
    Product,
    Sum,
}

// One character, where it lies in the area; the place after it.
fn put_sign(c: u8, out: &mut [u8], at: usize) -> usize
    requires { at < 2 ^ 63 }
    ensures { Put (c ∷ []) out.old at out.new result }
{
    if out.len() <= at {
        return at + 1;
    }
    out[at] = c;
    at + 1
}

// The integer of 64 bits v, its sign before its digits.
fn put_integer(v: u64, out: &mut [u8], at: usize) -> usize
    requires { at < 2 ^ 62 + 2 }
    ensures { Put (signed_digits (signed v)) out.old at out.new result }
{
    if v < NEGATIVE {
        return decimal::spell_number(v, out, at);
    }
    let e = put_sign(b'-', out, at);
    decimal::spell_number(v.wrapping_neg(), out, e)
}

// The rank of the tree at record i.
fn rank_at(s: &[u8], i: usize) -> Rank
    requires { SomeTree s.now i }
    ensures { (t : Tree) → TreeIn s.now i t → number_of result ≡ rank t }
{
    match Kind::at(s, i) {
        Kind::Integer => {
            if record::bits(s, i) < NEGATIVE {
                Rank::Leaf
            } else {
                Rank::Power
            }
        }
        Kind::Symbol => Rank::Leaf,
        Kind::Sum => Rank::Sum,
        Kind::Product => Rank::Product,
        Kind::Power => Rank::Power,
    }
}

// The symbol or the integer at record i.
fn put_leaf(s: &[u8], i: usize, out: &mut [u8], at: usize) -> usize
    requires { SomeTree s.now i × (kind s.now i < 2) × Roomy s.now i (at - 1) }
    ensures { (t : Tree) → TreeIn s.now i t
        → TextPut i (records t) (text t) out.old at out.new (record { next = i + 1; end = result }) }
{
    match Kind::at(s, i) {
        Kind::Integer => put_integer(record::bits(s, i), out, at),
        _ => {
            let b = put_sign(b's', out, at);
            decimal::spell_number(record::symbol(s, i) as u64, out, b)
        }
    }
}

// The sign of a power, and its exponent at record i.
fn put_exponent(s: &[u8], i: usize, out: &mut [u8], at: usize) -> usize
    requires { (i * 16 + 16 ≤ length s.now) × (at + 1 ≤ 2 ^ 62) }
    ensures { Put (power_sign ∷ digits (bits s.now i)) out.old at out.new result }
{
    let b = put_sign(b'^', out, at);
    decimal::spell_number(record::bits(s, i), out, b)
}

// The n members from the next record on, with a sign between two, each in parentheses from rank `least` on.
#[cycle(joined_at_member_at_tree_at)]
fn joined_at(s: &&[u8], w: &mut Writer, n: usize, least: Rank, sign: u8)
    requires { (length s.now.now < 2 ^ 63) × SomeTrees s.now.now w.old.next n × (0 < n) × ((p : Place) × (number_of least ≡ least_rank p))
        × Roomy s.now.now w.old.next w.old.end }
    ensures members_put { (p : Place) (f : Forest) → number_of least ≡ least_rank p → TreesIn s.now.now w.old.next n f
        → TextPut w.old.next (recordses f) (joined p sign f) w.old.out.now w.old.end w.new.out.now (place_of w.new) }
    ensures area_kept { (w.new.out.ghost_name ≡ w.old.out.ghost_name) × (length w.new.out.now ≡ length w.old.out.now) }
{
    member_at(s, w, least);
    for _ in 1..n {
        w.end = put_sign(sign, w.out, w.end);
        member_at(s, w, least);
    }
}

// The tree at the next record where it is a member, in parentheses from rank `least` on.
#[cycle(joined_at_member_at_tree_at)]
fn member_at(s: &&[u8], w: &mut Writer, least: Rank)
    requires { (length s.now.now < 2 ^ 63) × SomeTree s.now.now w.old.next × ((p : Place) × (number_of least ≡ least_rank p))
        × Roomy s.now.now w.old.next w.old.end }
    ensures member_put { (p : Place) (t : Tree) → number_of least ≡ least_rank p → TreeIn s.now.now w.old.next t
        → TextPut w.old.next (records t) (enclosed (needs p t) (text t)) w.old.out.now w.old.end w.new.out.now (place_of w.new) }
    ensures area_kept { (w.new.out.ghost_name ≡ w.old.out.ghost_name) × (length w.new.out.now ≡ length w.old.out.now) }
{
    if rank_at(*s, w.next) < least {
        tree_at(s, w);
        return;
    }
    w.end = put_sign(b'(', w.out, w.end);
    tree_at(s, w);
    w.end = put_sign(b')', w.out, w.end);
}

// The tree at the next record, from the writer's place on; the writer moves past both. Table and writer stand behind references, one word of
// each level, and what calls no further stands in functions of its own.
#[cycle(joined_at_member_at_tree_at)]
fn tree_at(s: &&[u8], w: &mut Writer)
    requires { (length s.now.now < 2 ^ 63) × SomeTree s.now.now w.old.next × Roomy s.now.now w.old.next (w.old.end - 1) }
    ensures tree_put { (t : Tree) → TreeIn s.now.now w.old.next t
        → TextPut w.old.next (records t) (text t) w.old.out.now w.old.end w.new.out.now (place_of w.new) }
    ensures area_kept { (w.new.out.ghost_name ≡ w.old.out.ghost_name) × (length w.new.out.now ≡ length w.old.out.now) }
{
    let i = w.next;
    w.next = i + 1;
    match Kind::at(*s, i) {
        Kind::Integer | Kind::Symbol => w.end = put_leaf(*s, i, w.out, w.end),
        Kind::Sum => joined_at(s, w, record::count(*s, i), Rank::Sum, b'+'),
        Kind::Product => joined_at(s, w, record::count(*s, i), Rank::Product, b'*'),
        Kind::Power => {
            member_at(s, w, Rank::Power);
            let e = w.next;
            w.next = e + 1;
            w.end = put_exponent(*s, e, w.out, w.end);
        }
    }
}

// The tree at record i, from place `at` on: the record after it, and the place after its text.
pub fn spell(s: &[u8], i: usize, out: &mut [u8], at: usize) -> Spelt
    requires { SomeTree s.now i × Roomy s.now i (at - 1) }
    ensures { (t : Tree) → TreeIn s.now i t → TextPut i (records t) (text t) out.old at out.new result }
{
    let mut w = Writer {
        out,
        next: i,
        end: at,
    };
    tree_at(&s, &mut w);
    Spelt {
        next: w.next,
        end: w.end,
    }
}

// How long the text of the tree at record 0 is.
pub fn measure(s: &[u8]) -> usize
    requires { SomeTree s.now 0 × Roomy s.now 0 0 }
    ensures { (t : Tree) → TreeIn s.now 0 t → result ≡ length (text t) }
{
    let mut none = [0u8; 1];
    let spelt = spell(s, 0, &mut none, 0);
    spelt.end
}
