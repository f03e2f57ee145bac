// Reading a text, n levels of parentheses deep: a sum from products, a product from powers, a power from a base that may hold a sum again.
// A group that lies deeper is passed over and judged by its signs. What is read is written to an area as records, where they lie in it.
#![tactic(auto)]

ghost use Rattle.std.specs.Prelude.{◌≡◌, true, List, ℕ, suc, ◌+◌, ◌-◌, ◌*◌, ◌^◌, ◌<◌, ◌≤◌, length, drop};
ghost use Rattle.std.proofs.Math.Option.{some};
ghost use Rattle.paper.specs.Tree.{Tree, weight};
ghost use Rattle.paper.specs.Table.{encode};
ghost use Rattle.paper_text.specs.Text.{Reading, then, begins, closed, read_leaf, read_power, read_product, read_sum, read_text};
ghost use Rattle.paper_text.specs.Levels.{stand_in, skim, read_cut, sign_rank, closing, blocks, formed, shallow};
ghost use Rattle.paper_text.specs.Text as paper;
ghost use Rattle.parse.specs.Written.{Written};
ghost use Rattle.parse.specs.Parsed.{Laid, ItemIs, Found, bare_item, bared, raising, fitted, Sized, StepIs, TurnIs, DiveIs, weighed};
ghost use Rattle.parse.specs.Joined.{kind_of, Is, FormIs, Gives, InRank};
ghost use Rattle.parse.specs.Joined.{lone_as, AfterAsks, Followed, RaiseAsks, RaiseIs, Ready, ReadFrom};

use number::MINUS_ONE;
use record::SYMBOLS;

pub mod area;

// The ranks of trees: a symbol or an integer from 0; a negative integer or a power; a product; a sum.
const RANK_LEAF: u8 = 0;

const RANK_POWER: u8 = 1;

const RANK_PRODUCT: u8 = 2;

const RANK_SUM: u8 = 3;

// Numbers are read below these: integers and exponents, and what stands behind a `-`.
const INTEGERS: u64 = 0x8000_0000_0000_0000;

const NEGATIVES: u64 = 0x8000_0000_0000_0001;

// What an integer weighs, what a symbol does, and what a power does beside its base.
const INTEGER_WEIGHT: usize = 1;

const SYMBOL_WEIGHT: usize = 3;

const POWER_WEIGHT: usize = 2;

// The records of a power beside its base.
const POWER_RECORDS: usize = 2;

// Every level of parentheses takes at least this of a tree's weight.
const LEVEL_WEIGHT: usize = 2;

// How an item stands: in parentheses or bare, and its rank. A rank is a number, since ranks are compared with bounds.
#[derive(Clone, Copy)]
struct Form {
    grouped: bool,
    rank: u8,
}

// An item that is read: how it stands, the place after it, its weight, the record after it.
#[derive(Clone, Copy)]
struct Item {
    form: Form,
    next: usize,
    weight: usize,
    end: usize,
}

// What a level has read: nothing that the writer could write, an item of a rank, bare or in parentheses, or a member behind which another one
// follows. With a `Form` inside it would be returned through memory, and a level of the reader would take more of the stack.
#[derive(Clone, Copy)]
enum Read {
    Nothing,
    Bare(u8),
    Grouped(u8),
    Another,
}

// What all levels of the reader share: the area, the place in the text, the record that is next, the weight read so far, the levels left, and
// the record where the item or the node at work stands.
#[derive(Drop)]
struct Reader<'a> {
    out: &'a mut [u8],
    place: usize,
    next: usize,
    weight: usize,
    level: usize,
    first: usize,
}

// A node whose members a loop reads.
#[derive(Clone, Copy)]
enum Node {
    Sum,
    Product,
}

// Why a text has no records to count: it is none that the writer can write, or its tree is over the limit.
#[derive(Clone, Copy, PartialEq, Eq)]
pub enum Unread {
    NotWritten,
    Heavy,
}

// The character c stands at `at`.
fn sign_at(text: &[u8], at: usize, c: u8) -> bool
    ensures { result ≡ begins c (drop at text.now) }
{
    text.get(at) == Some(&c)
}

// An item that stands bare.
fn bare(rank: u8, next: usize, weight: usize, end: usize) -> Item
    ensures { result ≡ bare_item rank next weight end }
{
    let form = Form {
        grouped: false,
        rank,
    };
    Item {
        form,
        next,
        weight,
        end,
    }
}

// What stands so may be a member where parentheses are put from rank p on.
fn fits(form: Form, p: u8) -> bool
    ensures { result ≡ fitted p form }
{
    if form.grouped {
        return p <= form.rank;
    }
    form.rank < p
}

// A symbol or an integer.
fn leaf(text: &[u8], at: usize, out: &mut [u8], d: usize) -> Option<Item>
    requires { d ≤ 2 * at }
    ensures { ItemIs text.now at (bared (read_leaf (drop at text.now))) (Laid out.old d out.new) result }
{
    if sign_at(text, at, b's') {
        let Some((v, e)) = decimal::read_number(text, at + 1, SYMBOLS) else {
            return None;
        };
        area::put_record(out, d, record::SYMBOL, 0, v);
        return Some(bare(RANK_LEAF, e, SYMBOL_WEIGHT, d + 1));
    }
    if sign_at(text, at, b'-') {
        let Some((v, e)) = decimal::read_number(text, at + 1, NEGATIVES) else {
            return None;
        };
        if v < 1 {
            return None;
        }
        area::put_record(out, d, record::INTEGER, 0, MINUS_ONE - v + 1);
        return Some(bare(RANK_POWER, e, INTEGER_WEIGHT, d + 1));
    }
    let Some((v, e)) = decimal::read_number(text, at, INTEGERS) else {
        return None;
    };
    area::put_record(out, d, record::INTEGER, 0, v);
    Some(bare(RANK_LEAF, e, INTEGER_WEIGHT, d + 1))
}

// A base that stands from record d on, with the exponent that may follow it.
fn raised(text: &[u8], i: Item, out: &mut [u8], d: usize) -> Option<Item>
    requires { Sized text.now d i }
    ensures { (at : ℕ) (o : Reading paper.Item) (old : List ℕ) → Found text.now at o (Laid old d out.old) i
        → ItemIs text.now at (then o raising) (Laid old d out.new) result }
{
    if !sign_at(text, i.next, b'^') {
        return Some(i);
    }
    if !fits(i.form, RANK_POWER) {
        return None;
    }
    let Some((v, e)) = decimal::read_number(text, i.next + 1, INTEGERS) else {
        return None;
    };
    if v < 1 {
        return None;
    }
    area::make_room(out, d, i.end);
    area::put_record(out, i.end + 1, record::INTEGER, 0, v);
    area::put_record(out, d, record::POWER, 0, 0);
    Some(bare(
        RANK_POWER,
        e,
        i.weight + POWER_WEIGHT,
        i.end + POWER_RECORDS,
    ))
}

// The rank that a sign outside deeper groups gives a text.
fn sign_rank(c: u8) -> u8
    ensures { (result ≡ sign_rank c) × (result ≤ 3) }
{
    match c {
        b'+' => RANK_SUM,
        b'*' => RANK_PRODUCT,
        b'^' | b'-' => RANK_POWER,
        _ => RANK_LEAF,
    }
}

// One character of a group that is passed over, d deeper groups being open and k the greatest rank of a sign outside them: both behind it,
// or none where the group ends here.
fn step(c: u8, d: usize, k: u8) -> Option<(usize, u8)>
    requires { (d < 2 ^ 63) × (k ≤ 3) }
    ensures { StepIs c d k result }
{
    match c {
        b'(' => Some((d + 1, k)),
        b')' if d < 1 => None,
        b')' => Some((d - 1, k)),
        _ if 0 < d => Some((d, k)),
        _ => Some((d, k.max(sign_rank(c)))),
    }
}

// The record of the tree that stands for a group of rank k.
fn put_stand_in(out: &mut [u8], d: usize, k: u8)
    requires { k ≤ 3 }
    ensures { Written (encode (stand_in k)) out.old d out.new }
{
    match k {
        RANK_LEAF => area::put_record(out, d, record::INTEGER, 0, 0),
        RANK_POWER => area::put_record(out, d, record::INTEGER, 0, MINUS_ONE),
        RANK_PRODUCT => area::put_record(out, d, record::PRODUCT, 0, 0),
        _ => area::put_record(out, d, record::SUM, 0, 0),
    }
}

// A group that is not read: passed from its opening parenthesis at `at` to the one that closes it, its rank told by its signs.
fn passed(text: &[u8], at: usize, out: &mut [u8], d: usize) -> Option<Item>
    requires { (at < length text.now) × (d ≤ 2 * at) }
    ensures { ItemIs text.now at (then (skim (drop (at + 1) text.now)) closed) (Laid out.old d out.new) result }
{
    let mut deep: usize = 0;
    let mut k = RANK_LEAF;
    for e in at + 1..text.len() {
        let Some((deeper, greater)) = step(text[e], deep, k) else {
            put_stand_in(out, d, k);
            let form = Form {
                grouped: true,
                rank: k,
            };
            return Some(Item {
                form,
                next: e + 1,
                weight: 1,
                end: d + 1,
            });
        };
        deep = deeper;
        k = greater;
    }
    None
}

// A power with no group that is read: a leaf, or a group that is passed over, and the exponent that may follow.
fn flat(text: &[u8], at: usize, out: &mut [u8], d: usize) -> Option<Item>
    requires { d ≤ 2 * at }
    ensures { ItemIs text.now at (read_power (read_cut 0) (drop at text.now)) (Laid out.old d out.new) result }
{
    if sign_at(text, at, b'(') {
        let Some(group) = passed(text, at, out, d) else {
            return None;
        };
        return raised(text, group, out, d);
    }
    let Some(small) = leaf(text, at, out, d) else {
        return None;
    };
    raised(text, small, out, d)
}

// What a level tells of an item that stands so.
fn told(form: Form) -> Read
    ensures { result ≡ Is form }
{
    if form.grouped {
        return Read::Grouped(form.rank);
    }
    Read::Bare(form.rank)
}

// How the item stands that is read, if one is.
fn form_of(m: Read) -> Option<Form>
    ensures { FormIs m result }
{
    match m {
        Read::Bare(rank) => Some(Form {
            grouped: false,
            rank,
        }),
        Read::Grouped(rank) => Some(Form {
            grouped: true,
            rank,
        }),
        Read::Nothing | Read::Another => None,
    }
}

impl Node {
    // The kind of its record.
    fn kind(self) -> u8
        ensures { result ≡ kind_of self }
    {
        match self {
            Node::Sum => record::SUM,
            Node::Product => record::PRODUCT,
        }
    }

    // The sign between two of its members.
    fn sign(self) -> u8
        ensures { result ≡ 45 - kind_of self }
    {
        match self {
            Node::Sum => b'+',
            Node::Product => b'*',
        }
    }

    // Its rank, from which on its members stand in parentheses.
    fn rank(self) -> u8
        ensures { result ≡ 5 - kind_of self }
    {
        match self {
            Node::Sum => RANK_SUM,
            Node::Product => RANK_PRODUCT,
        }
    }
}

// The reader takes the item up, w having been read before it.
fn taken(i: Option<Item>, r: &mut Reader, w: usize) -> Read
    requires { InRank i w }
    ensures given { (r.new.level ≡ r.old.level) × Gives i result w r.new }
    ensures area_kept { (r.new.out.ghost_name ≡ r.old.out.ghost_name) × (r.new.out.now ≡ r.old.out.now) }
{
    let Some(item) = i else {
        return Read::Nothing;
    };
    r.place = item.next;
    r.next = item.end;
    r.weight = w + item.weight;
    told(item.form)
}

// What is read, with nothing beside it in the node: in a sum parentheses round it are too many.
fn lone_in(form: Form, node: Node) -> Read
    ensures { result ≡ lone_as (kind_of node) form }
{
    match node {
        Node::Sum => {
            if form.grouped {
                return Read::Nothing;
            }
            told(form)
        }
        Node::Product => told(form),
    }
}

// What follows the member m, c having been read before it, of the node: `Another` where another member does, else what is read. Its frame is gone
// before a level goes on.
#[inline(never)]
fn after(text: &&[u8], r: &mut Reader, node: Node, c: usize, m: Read) -> Read
    requires { AfterAsks text.now.now r.old c m }
    ensures followed { Followed (kind_of node) text.now.now c m r.old.out.now r.old r.new.out.now r.new result }
    ensures area_kept { (r.new.out.ghost_name ≡ r.old.out.ghost_name) × (length r.new.out.now ≡ length r.old.out.now) }
{
    let Some(form) = form_of(m) else {
        return Read::Nothing;
    };
    let more = sign_at(*text, r.place, node.sign());
    if c < 1 && !more {
        return lone_in(form, node);
    }
    if !fits(form, node.rank()) {
        return Read::Nothing;
    }
    if c < 1 {
        area::make_room(r.out, r.first, r.next);
        r.next += 1;
        r.weight += 1;
        r.place += 1;
        return Read::Another;
    }
    if more {
        r.place += 1;
        return Read::Another;
    }
    area::put_record(r.out, r.first, node.kind(), c + 1, 0);
    Read::Bare(node.rank())
}

// What is read in a group, closed, or, where m is `Another`, a power that holds no group that is read; and the exponent that may follow.
// Before it w was read. Its frame, too, is gone before a level goes on.
#[inline(never)]
fn raise(text: &[u8], r: &mut Reader, w: usize, m: Read) -> Read
    requires { RaiseAsks text.now r.old.out.now r.old w m }
    ensures raised { RaiseIs text.now r.old.out.now r.old w m r.new.out.now r.new result }
    ensures area_kept { (r.new.out.ghost_name ≡ r.old.out.ghost_name) × (length r.new.out.now ≡ length r.old.out.now) }
{
    if let Read::Another = m {
        let v = r.weight;
        let i = flat(text, r.place, r.out, r.next);
        return taken(i, r, v);
    }
    r.level += 1;
    let Some(form) = form_of(m) else {
        return Read::Nothing;
    };
    if !sign_at(text, r.place, b')') {
        return Read::Nothing;
    }
    let group = Item {
        form: Form {
            grouped: true,
            rank: form.rank,
        },
        next: r.place + 1,
        weight: r.weight - w,
        end: r.next,
    };
    let i = raised(text, group, r.out, r.first);
    taken(i, r, w)
}

// A sum, read from products; what is read without a `+` stands alone.
#[cycle(power_product_sum)]
fn sum(text: &&[u8], r: &mut Reader) -> Read
    requires { Ready text.now.now r.old }
    ensures left { (r.new.level ≡ r.old.level) × (r.new.first ≡ r.old.next)
        × ReadFrom text.now.now (λ n s. bared (read_sum (read_cut n) s)) r.old.out.now r.old r.new.out.now r.new result }
    ensures area_kept { (r.new.out.ghost_name ≡ r.old.out.ghost_name) × (length r.new.out.now ≡ length r.old.out.now) }
{
    let d = r.next;
    let mut c: usize = 0;
    loop {
        let m = product(text, r);
        r.first = d;
        match after(text, r, Node::Sum, c, m) {
            Read::Another => c += 1,
            read => return read,
        }
    }
}

// A product, read from powers; what is read without a `*` is left as it is.
#[cycle(power_product_sum)]
fn product(text: &&[u8], r: &mut Reader) -> Read
    requires { Ready text.now.now r.old }
    ensures left { (r.new.level ≡ r.old.level)
        × ReadFrom text.now.now (λ n s. read_product (read_cut n) s) r.old.out.now r.old r.new.out.now r.new result }
    ensures area_kept { (r.new.out.ghost_name ≡ r.old.out.ghost_name) × (length r.new.out.now ≡ length r.old.out.now) }
{
    let d = r.next;
    let mut c: usize = 0;
    loop {
        let m = power(text, r);
        r.first = d;
        match after(text, r, Node::Product, c, m) {
            Read::Another => c += 1,
            read => return read,
        }
    }
}

// A power: a leaf, or a sum in parentheses, and the exponent that may follow. At the n-th level a group is passed over. What does not call on
// stands in `after` and `raise`, so that a level of parentheses takes little of the stack; the record where a group begins is the one where
// its sum does.
#[cycle(power_product_sum)]
fn power(text: &&[u8], r: &mut Reader) -> Read
    requires { Ready text.now.now r.old }
    ensures left { (r.new.level ≡ r.old.level)
        × ReadFrom text.now.now (λ n s. read_power (read_cut n) s) r.old.out.now r.old r.new.out.now r.new result }
    ensures area_kept { (r.new.out.ghost_name ≡ r.old.out.ghost_name) × (length r.new.out.now ≡ length r.old.out.now) }
{
    if r.level < 1 || !sign_at(*text, r.place, b'(') {
        return raise(*text, r, r.weight, Read::Another);
    }
    let w = r.weight;
    r.level -= 1;
    r.place += 1;
    let m = sum(text, r);
    raise(*text, r, w, m)
}

// The whole of it: what stands from `at` on, n levels deep.
fn read_sum(text: &[u8], at: usize, n: usize, out: &mut [u8], d: usize) -> Option<Item>
    requires { d ≤ 2 * at }
    ensures { ItemIs text.now at (bared (read_sum (read_cut n) (drop at text.now)))
        (Laid out.old d out.new) result }
{
    let mut r = Reader {
        out,
        place: at,
        next: d,
        weight: 0,
        level: n,
        first: d,
    };
    let read = sum(&text, &mut r);
    let Some(form) = form_of(read) else {
        return None;
    };
    Some(Item {
        form,
        next: r.place,
        weight: r.weight,
        end: r.next,
    })
}

// The group whose content begins at `at` is read, k + 1 levels deep, up to its closing parenthesis.
fn group_reads(text: &[u8], at: usize, k: usize) -> bool
    ensures { result ≡ closing (read_cut (suc k) (drop at text.now)) }
{
    let mut none = [0u8; 1];
    match read_sum(text, at, k, &mut none, 0) {
        Some(content) => sign_at(text, content.next, b')'),
        None => false,
    }
}

// Judges character i of a text by blocks of k + 1 levels. `left` levels of the present block lie deeper; the answer is how many do after the
// character, and none where it begins a block that cannot be read.
fn turn(text: &[u8], i: usize, left: usize, k: usize) -> Option<usize>
    requires { (i < length text.now) × (left ≤ k) × (k < 2 ^ 63) }
    ensures { TurnIs text.now i left k result }
{
    match text[i] {
        b'(' if 0 < left => Some(left - 1),
        b'(' if group_reads(text, i + 1, k) => Some(k),
        b'(' => None,
        b')' if left < k => Some(left + 1),
        b')' => Some(0),
        _ => Some(left),
    }
}

// Every group that begins a block is read.
fn blocks_read(text: &[u8], k: usize) -> bool
    requires { k < 2 ^ 63 }
    ensures { result ≡ blocks k k text.now }
{
    let mut left = k;
    for i in 0..text.len() {
        let Some(deeper) = turn(text, i, left, k) else {
            return false;
        };
        left = deeper;
    }
    true
}

// The text is one that the writer can write, judged with k + 1 levels of calls.
pub fn is_form(text: &[u8], k: usize) -> bool
    requires { k < 2 ^ 63 }
    ensures { result ≡ formed (read_text text.now) }
{
    let mut none = [0u8; 1];
    let Some(block) = read_sum(text, 0, k, &mut none, 0) else {
        return false;
    };
    text.len() <= block.next && blocks_read(text, k)
}

// One character of a text of which no group may lie more than `left` deep: so deep one may lie behind it, or none where this one is too deep.
fn dive(c: u8, left: usize) -> Option<usize>
    requires { left + 1 < 2 ^ 64 }
    ensures { DiveIs c left result }
{
    match c {
        b'(' => left.checked_sub(1),
        b')' => Some(left + 1),
        _ => Some(left),
    }
}

// No group of the text lies more than k deep.
fn is_shallow(text: &[u8], k: usize) -> bool
    requires { k < 2 ^ 62 }
    ensures { result ≡ shallow k text.now }
{
    let mut left = k;
    for c in text {
        let Some(deeper) = dive(*c, left) else {
            return false;
        };
        left = deeper;
    }
    true
}

// A shallow text: the weight of its tree against the limit, and its records.
fn weigh_shallow(text: &[u8], limit: usize, k: usize) -> Result<usize, Unread>
    requires { shallow k text.now ≡ true }
    ensures { result ≡ weighed limit (read_text text.now) }
{
    let mut none = [0u8; 1];
    let Some(whole) = read_sum(text, 0, k, &mut none, 0) else {
        return Err(Unread::NotWritten);
    };
    if whole.next < text.len() {
        return Err(Unread::NotWritten);
    }
    if limit < whole.weight {
        return Err(Unread::Heavy);
    }
    Ok(whole.end)
}

// Whether the text is one that the writer can write, and whether its tree is over the limit; else the tree's records. Where the text is
// nested deeper than a tree of the limit can be, the tree is too heavy, if there is one; so limit / 2 + 1 levels of calls are enough for
// any text.
pub fn weigh(text: &[u8], limit: usize) -> Result<usize, Unread>
    requires { limit < 2 ^ 62 }
    ensures { result ≡ weighed limit (read_text text.now) }
{
    let k = limit / LEVEL_WEIGHT;
    if is_shallow(text, k) {
        return weigh_shallow(text, limit, k);
    }
    if is_form(text, k) {
        return Err(Unread::Heavy);
    }
    Err(Unread::NotWritten)
}

// Writes the records of a text whose tree is not over the limit, where they lie in the area.
pub fn write(text: &[u8], limit: usize, out: &mut [u8])
    ensures { (t : Tree) → read_text text.now ≡ some t → weight t ≤ limit → Written (encode t) out.old 0 out.new }
{
    read_sum(text, 0, limit / LEVEL_WEIGHT, out, 0);
}
