// Losses, or adduct items, in preferred order: read from the rest of a line into slots, and from the slots stored, or spelled anew.
#![tactic(auto)]

ghost use Rattle.std.specs.Prelude.{◌≡◌};
ghost use Rattle.put_bytes.specs.Puts.{Put};
ghost use Rattle.store_sections.specs.Pages.{Ran};
ghost use Rattle.sort_changes.specs.Keys.{key_text};
ghost use Rattle.sort_changes.specs.Gathered.{change_here, GathersOne, Gathers};
ghost use Rattle.sort_changes.specs.Ways.{BeginsSo};
ghost use Rattle.sort_changes.specs.Events.{slot_record, slot_events, slots_events, StoresChanges};
ghost use Rattle.sort_changes.specs.Spelled.{slot_spelled, slots_spelled, SpellsMany, SpellsChanges};

use changes::Content;
use layout::{TEXT_SECTION, UNIT_SECTION};
use limits::{MAX_LOSSES, MAX_TEXT};
use print_count::{Respelled, put_head};
use put_bytes::{put_le, put_run};
use put_formula::{put_preferred, put_records};
use read_changes::{ChangeRead, read_change};
use read_opening::begins_change;
use slices::{part, rest};
use sort_slots::{Slot, Slots};
use store_sections::{Cursors, cursor, with_cursor};

// As many names as there may be losses, in their brackets: no keys of one annotation have more bytes.
pub const KEYS: usize = MAX_LOSSES * (MAX_TEXT + 2);

// The slots of what was read, in preferred order; how many bytes of keys are used, and how many bytes of the line were read.
#[derive(Drop)]
pub struct Gathered {
    pub slots: Slots,
    pub used: usize,
    pub at: usize,
}

// What was stored: how many, how many bytes of the line, and the cursors behind it.
#[derive(Drop)]
pub struct Arranged {
    pub n: usize,
    pub len: usize,
    pub cursors: Cursors,
}

// The text of a loss or an adduct item by which it is put in order: preferred units, a name in its brackets, or `e`.
fn put_key(keys: &mut [u8], to: usize, s: &[u8], x: ChangeRead) -> usize
    ensures { Put keys.old to (key_text s.now x) keys.new result }
{
    match x.content {
        Content::Formula { units } => put_preferred(keys, to, rest(s, x.start), units),
        Content::Name { .. } | Content::Electron => put_run(
            keys,
            to,
            part(s, x.start, slices::minus_or_zero(x.len, x.start)),
        ),
    }
}

// The first that a part begins with. Its limits are not asked for here.
fn first_of(s: &[u8]) -> ChangeRead
    ensures { result ≡ change_here s.now }
{
    read_change(0, 0, s, s.len(), None)
}

// One more.
fn gather_one(g: Gathered, s: &[u8], keys: &mut [u8]) -> Gathered
    ensures { GathersOne g s.now keys.old keys.new result }
{
    let t = rest(s, g.at);
    let x = first_of(t);
    let next = put_key(keys, g.used, t, x);
    let y = Slot {
        sign: x.sign,
        count: x.count,
        content: x.content,
        start: slices::advance(g.at, x.start, s.len()),
        key: g.used,
        len: slices::minus_or_zero(next, g.used),
    };
    let mut slots = g.slots;
    slots.insert(keys, y);
    Gathered {
        slots,
        used: next,
        at: slices::advance(g.at, x.len, s.len()),
    }
}

// All losses, or adduct items, that a part begins with.
fn gather_all(s: &[u8], keys: &mut [u8]) -> Gathered
    ensures { Gathers s.now keys.old keys.new result }
{
    let mut g = Gathered {
        slots: Slots::none(),
        used: 0,
        at: 0,
    };
    // No index is counted: what begins next decides.
    while begins_change(rest(s, g.at)) {
        g = gather_one(g, s, keys);
    }
    g
}

// How many a part begins with. One alone needs no key, as there is nothing to put in order.
#[derive(Clone, Copy)]
enum Begins {
    None,
    One(ChangeRead),
    Several,
}

// Most annotations have none or one.
fn how_many(s: &[u8]) -> Begins
    ensures { BeginsSo s.now result }
{
    if !begins_change(s) {
        return Begins::None;
    }
    let x = first_of(s);
    if begins_change(rest(s, x.len)) {
        Begins::Several
    } else {
        Begins::One(x)
    }
}

// ---- stored

// The record of a loss or an adduct item: sign, kind, count, units or name bytes.
fn put_slot_record(out: &mut [u8], to: usize, x: Slot) -> usize
    ensures { Put out.old to (slot_record x) out.new result }
{
    let a = put_le(out, to, u8::from(x.sign) as u64, 1);
    let b = put_le(out, a, x.content.number() as u64, 1);
    let c = put_le(out, b, x.count as u64, 2);
    put_le(out, c, x.content.size() as u64, 2)
}

// A loss or an adduct item: its record in section j, and its units or its name.
fn put_slot(out: &mut [u8], c: Cursors, j: usize, s: &[u8], x: Slot) -> Cursors
    ensures { Ran out.old c (slot_events j s.now x) out.new result }
{
    let a = put_slot_record(out, cursor(c, j), x);
    let d = with_cursor(c, j, a);
    match x.content {
        Content::Formula { units } => {
            let b = put_records(out, cursor(d, UNIT_SECTION), rest(s, x.start), units);
            with_cursor(d, UNIT_SECTION, b)
        }
        Content::Name { bytes } => {
            let b = put_run(
                out,
                cursor(d, TEXT_SECTION),
                part(rest(s, x.start), 1, bytes),
            );
            with_cursor(d, TEXT_SECTION, b)
        }
        Content::Electron => d,
    }
}

// All slots.
fn put_slots(out: &mut [u8], c: Cursors, j: usize, s: &[u8], slots: &[Slot]) -> Cursors
    ensures { Ran out.old c (slots_events j s.now slots.now) out.new result }
{
    let mut to = c;
    for &x in slots {
        to = put_slot(out, to, j, s, x);
    }
    to
}

// All losses, or adduct items, each in its own section j, that a part begins with, however many, in preferred order.
fn store_many(out: &mut [u8], c: Cursors, j: usize, s: &[u8]) -> Arranged
    ensures { StoresChanges s.now j out.old c out.new result }
{
    let mut keys = [0u8; KEYS];
    let g = gather_all(s, &mut keys);
    let slots = g.slots.held();
    let cursors = put_slots(out, c, j, s, slots);
    Arranged {
        n: slots.len(),
        len: g.at,
        cursors,
    }
}

// The same.
pub fn store_changes(out: &mut [u8], c: Cursors, j: usize, s: &[u8]) -> Arranged
    ensures { StoresChanges s.now j out.old c out.new result }
{
    match how_many(s) {
        Begins::None => Arranged {
            n: 0,
            len: 0,
            cursors: c,
        },
        Begins::One(x) => {
            let y = Slot {
                sign: x.sign,
                count: x.count,
                content: x.content,
                start: slices::advance(0, x.start, s.len()),
                key: 0,
                len: 0,
            };
            Arranged {
                n: 1,
                len: x.len,
                cursors: put_slot(out, c, j, s, y),
            }
        }
        Begins::Several => store_many(out, c, j, s),
    }
}

// ---- spelled anew

// A loss or an adduct item in preferred spelling: the text by which it was put in order stands among the keys.
fn spell_slot(out: &mut [u8], to: usize, keys: &[u8], x: Slot) -> usize
    ensures { Put out.old to (slot_spelled keys.now x) out.new result }
{
    let at = put_head(out, to, x.sign, x.count);
    put_run(out, at, part(keys, x.key, x.len))
}

// All slots.
fn spell_slots(out: &mut [u8], to: usize, keys: &[u8], slots: &[Slot]) -> usize
    ensures { Put out.old to (slots_spelled keys.now slots.now) out.new result }
{
    let mut end = to;
    for &x in slots {
        end = spell_slot(out, end, keys, x);
    }
    end
}

// All losses, or adduct items, that a part begins with, however many.
fn spell_many(out: &mut [u8], to: usize, s: &[u8]) -> Respelled
    ensures { SpellsMany s.now out.old to out.new result }
{
    let mut keys = [0u8; KEYS];
    let g = gather_all(s, &mut keys);
    let end = spell_slots(out, to, &keys, g.slots.held());
    Respelled { to: end, len: g.at }
}

// The same.
pub fn spell_changes(out: &mut [u8], to: usize, s: &[u8]) -> Respelled
    ensures { SpellsChanges s.now out.old to out.new result }
{
    match how_many(s) {
        Begins::None => Respelled { to, len: 0 },
        Begins::One(x) => {
            let at = put_head(out, to, x.sign, x.count);
            Respelled {
                to: put_key(out, at, s, x),
                len: x.len,
            }
        }
        Begins::Several => spell_many(out, to, s),
    }
}
