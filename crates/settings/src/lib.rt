// Settings that survive an upgrade: an area of slots of 32 bytes, judged whole at every call; store, fetch and remove of the new release,
// and the reader of the old one.
#![tactic(auto)]

ghost use Rattle.std.specs.Prelude.{◌≡◌, ◌+◌, ◌*◌, ◌/◌, ◌<◌, ◌≤◌, eqb, length, IsTrue, ℕ, Bool, List, ◌↔◌, EachIndex, slice_index};
ghost use Rattle.paper_settings.specs.Settings.{version, key_in, is_malformed, is_free, holds, slots_of, slot_of, any_newer, all_free, in_order, area_verdict};
ghost use Rattle.paper_settings.specs.Settings.{to_store, to_remove, called, fetched, fetched_old};
ghost use Rattle.stretch.specs.Put.{put};
ghost use Rattle.settings.specs.Slots.{slot_at, rest, FirstSlot, TestsAs, takes, closed_up, in_place, keys_in};
ghost use Rattle.settings.specs.Keys.{twice, in_part, part_from, parts_of};
ghost use Rattle.settings.specs.Shown.{number_in, says, says_1, stores};

use table::Refusal;

// The newest version that the new release knows, and the one that it writes; and the newest that the old release knows.
const NEW: u8 = 2;

const OLD: u8 = 1;

// The bytes of a slot.
const SLOT: usize = 32;

// Where in a slot its version, the key, the unit and the setting stand, and the places after the unit and the setting.
const VERSION_AT: usize = 0;

const KEY_AT: usize = 2;

const UNIT_AT: usize = 4;

const UNIT_END: usize = 6;

const SETTING_AT: usize = 8;

const SETTING_END: usize = 16;

// Which bytes of a record may be other than zero (1), by version and byte.
const MAY: [[u8; 16]; 3] = [
    [0, 0, 0, 0, 0, 0, 0, 0, 0, 0, 0, 0, 0, 0, 0, 0],
    [1, 0, 1, 1, 0, 0, 0, 0, 1, 1, 1, 1, 1, 1, 1, 1],
    [1, 0, 1, 1, 1, 1, 0, 0, 1, 1, 1, 1, 1, 1, 1, 1],
];

// The last version and the last byte there: past that byte none may.
const NEWEST: usize = 2;

const LAST: usize = 15;

// A part of the keys is so many that come one after the other; a pass over the records has a bit for each of them, in words.
const PART: usize = 8192;

const WORDS: usize = 128;

// What a fetch shows of a key: the 64 bits of the setting, and its unit.
#[derive(Clone, Copy, PartialEq, Eq)]
pub struct Shown {
    pub setting: u64,
    pub unit: u16,
}

// All bytes are zero.
fn all_zero(bytes: &[u8]) -> bool
    ensures { IsTrue result ↔ EachIndex bytes.now (λ k. slice_index bytes.now k ≡ 0) }
{
    bytes.iter().all(|b| *b == 0)
}

// Slot i is free.
fn is_free(area: &[u8], i: usize) -> bool
    requires { 32 * i + 32 ≤ length area.now }
    ensures { result ≡ is_free (slot_at area.now i) }
{
    all_zero(&area[SLOT * i..SLOT * i + SLOT])
}

// The version of slot i.
fn version_of(area: &[u8], i: usize) -> u8
    requires { 32 * i + 32 ≤ length area.now }
    ensures { result ≡ version (slot_at area.now i) }
{
    area[SLOT * i]
}

// Slot i has a byte that is other than zero and must be zero.
fn is_malformed(area: &[u8], i: usize) -> bool
    requires { 32 * i + 32 ≤ length area.now }
    ensures { result ≡ is_malformed (slot_at area.now i) }
{
    let v = version_of(area, i) as usize;
    if NEWEST < v {
        return true;
    }
    let may = MAY[v];
    for byte in 0..SLOT {
        if area[SLOT * i + byte] != 0 && (LAST < byte || may[byte] == 0) {
            return true;
        }
    }
    false
}

// The key of slot i.
fn key_of(area: &[u8], i: usize) -> usize
    requires { 32 * i + 32 ≤ length area.now }
    ensures { result ≡ key_in (slot_at area.now i) }
{
    number::read2(area, SLOT * i + KEY_AT)
}

// Slot i has a record of this key.
fn holds(area: &[u8], i: usize, key: usize) -> bool
    requires { 32 * i + 32 ≤ length area.now }
    ensures { result ≡ holds key (slot_at area.now i) }
{
    !is_free(area, i) && key == key_of(area, i)
}

// Slot i can take a record of this key: it is free, or has one.
fn takes(area: &[u8], i: usize, key: usize) -> bool
    requires { 32 * i + 32 ≤ length area.now }
    ensures { result ≡ takes key (slot_at area.now i) }
{
    is_free(area, i) || key == key_of(area, i)
}

// Some whole slot has a version over the newest that the release knows.
fn any_newer(area: &[u8], newest: u8) -> bool
    ensures { result ≡ any_newer newest (slots_of area.now) }
{
    for i in 0..area.len() / SLOT {
        if newest < version_of(area, i) {
            return true;
        }
    }
    false
}

// The slots from `from` on are all free.
fn all_free(area: &[u8], from: usize) -> bool
    ensures { result ≡ all_free (rest area.now from) }
{
    for i in from..area.len() / SLOT {
        if !is_free(area, i) {
            return false;
        }
    }
    true
}

// The first slot, by its number, that passes a test; none where none does. It is a loop, since of `find` over the numbers it is not proved that
// none before the answer passes.
fn first_slot<F: Fn(usize) -> bool>(area: &[u8], passes: F) -> Option<usize>
    requires { (i : ℕ) → i < length area.now / 32 → F.pre passes i }
    ensures { (p : List ℕ → Bool) → TestsAs p area.now (F.post passes) → FirstSlot p area.now result }
{
    for i in 0..area.len() / SLOT {
        if passes(i) {
            return Some(i);
        }
    }
    None
}

// The first slot that has a record of the key.
fn find(area: &[u8], key: usize) -> Option<usize>
    ensures { FirstSlot (holds key) area.now result }
{
    first_slot(area, |i| holds(area, i, key))
}

// The first slot that can take a record of the key.
fn room_for(area: &[u8], key: usize) -> Option<usize>
    ensures { FirstSlot (takes key) area.now result }
{
    first_slot(area, |i| takes(area, i, key))
}

// No record is malformed, and free slots come last.
fn in_place(area: &[u8]) -> bool
    ensures { result ≡ in_place (slots_of area.now) }
{
    for i in 0..area.len() / SLOT {
        if is_free(area, i) {
            return all_free(area, i + 1);
        }
        if is_malformed(area, i) {
            return false;
        }
    }
    true
}

// How many parts of the keys there are up to the last one that a record before the first free slot has its key in.
fn parts(area: &[u8]) -> usize
    ensures { result ≡ parts_of 0 (keys_in (slots_of area.now)) }
{
    let mut most = 0;
    for i in 0..area.len() / SLOT {
        if is_free(area, i) {
            return most;
        }
        let part = key_of(area, i) / PART;
        if most <= part {
            most = part + 1;
        }
    }
    most
}

// Of the records before the first free slot two have one key, and it is of this part: one pass, with a bit for each key of the part.
fn twice_in(area: &[u8], part: usize) -> bool
    ensures { result ≡ twice (in_part part) (keys_in (slots_of area.now)) }
{
    let mut seen = [0u64; WORDS];
    for i in 0..area.len() / SLOT {
        if is_free(area, i) {
            return false;
        }
        let key = key_of(area, i);
        if key / PART == part {
            if table::is_due(&seen, key % PART) {
                return true;
            }
            table::turn(&mut seen, key % PART);
        }
    }
    false
}

// Of the records before the first free slot two have one key: a pass for each part up to the last one that has keys.
fn any_twice(area: &[u8]) -> bool
    ensures { result ≡ twice (part_from 0) (keys_in (slots_of area.now)) }
{
    for part in 0..parts(area) {
        if twice_in(area, part) {
            return true;
        }
    }
    false
}

// No record is malformed, no key is there twice, and free slots come last.
fn in_order(area: &[u8]) -> bool
    ensures { result ≡ in_order (slots_of area.now) }
{
    in_place(area) && !any_twice(area)
}

// What a release that knows the versions up to `newest` says of the area.
fn judge(area: &[u8], newest: u8) -> Result<(), Refusal>
    ensures { number_in result ≡ area_verdict newest area.now }
{
    if any_newer(area, newest) {
        return Err(Refusal::Newer);
    }
    if area.len() % SLOT != 0 || !in_order(area) {
        return Err(Refusal::Disorder);
    }
    Ok(())
}

// Shows the setting of a key, as a release does that knows the versions up to `newest`; the area is only read.
fn show(area: &[u8], key: u16, newest: u8) -> Result<Shown, Refusal>
    ensures { says result ≡ fetched newest key area.now }
{
    judge(area, newest)?;
    match find(area, key as usize) {
        Some(i) => Ok(Shown {
            setting: number::read8(area, SLOT * i + SETTING_AT),
            unit: number::read2(area, SLOT * i + UNIT_AT) as u16,
        }),
        None => Err(Refusal::Absent),
    }
}

// Shows the setting of a key; the area is only read.
pub fn fetch(area: &[u8], key: u16) -> Result<Shown, Refusal>
    ensures { says result ≡ fetched 2 key area.now }
{
    show(area, key, NEW)
}

// The reader of the old release, which refuses a record of version 2 and shows nothing of it. It knows no unit.
pub fn fetch_1(area: &[u8], key: u16) -> Result<u64, Refusal>
    ensures { says_1 result ≡ fetched_old key area.now }
{
    Ok(show(area, key, OLD)?.setting)
}

// Writes a record of version 2 into slot i; all other bytes of the area stay.
fn write_slot(area: &mut [u8], i: usize, key: u16, setting: u64, unit: u16)
    requires { 32 * i + 32 ≤ length area.old }
    ensures { area.new ≡ put area.old (32 * i) (slot_of key setting unit) }
{
    let mut slot = [0u8; SLOT];
    slot[VERSION_AT] = NEW;
    slot[KEY_AT..UNIT_AT].copy_from_slice(&key.to_le_bytes());
    slot[UNIT_AT..UNIT_END].copy_from_slice(&unit.to_le_bytes());
    slot[SETTING_AT..SETTING_END].copy_from_slice(&setting.to_le_bytes());
    stretch::copy_bytes(area, SLOT * i, &slot, 0, SLOT);
}

// Moves the slots after slot i up by one, and frees the last.
fn close_up(area: &mut [u8], i: usize)
    requires { 32 * i + 32 ≤ length area.old }
    ensures { area.new ≡ closed_up area.old i }
{
    let n = area.len();
    stretch::shift(area, SLOT * i, SLOT * i + SLOT, n - (SLOT * i + SLOT));
    stretch::clear(area, n - SLOT, SLOT);
}

// Stores a setting with its unit: a known key's record is replaced, a new one goes into the first free slot. After a refusal the area is as it
// was.
pub fn store(area: &mut [u8], key: u16, setting: u64, unit: u16) -> Result<(), Refusal>
    ensures { stores result area.new ≡ called (to_store key setting unit) area.old }
{
    judge(area, NEW)?;
    match room_for(area, key as usize) {
        Some(i) => {
            write_slot(area, i, key, setting, unit);
            Ok(())
        }
        None => Err(Refusal::Full),
    }
}

// Removes a key's record: the later ones move up, byte for byte. After a refusal the area is as it was.
pub fn remove(area: &mut [u8], key: u16) -> Result<(), Refusal>
    ensures { stores result area.new ≡ called (to_remove key) area.old }
{
    judge(area, NEW)?;
    match find(area, key as usize) {
        Some(i) => {
            close_up(area, i);
            Ok(())
        }
        None => Err(Refusal::Absent),
    }
}
