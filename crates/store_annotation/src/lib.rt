// One annotation, of which the parts were read, stored at six cursors. Its limits were measured before: what its readers tell of them is not looked at.
#![tactic(auto)]

ghost use Rattle.std.specs.Prelude.{◌≡◌};
ghost use Rattle.rules.specs.Editions.{ed2};
ghost use Rattle.put_bytes.specs.Puts.{Put};
ghost use Rattle.layout.specs.Editions.{edition_of};
ghost use Rattle.store_sections.specs.Pages.{Ran};
ghost use Rattle.store_annotation.specs.Records.{signed_of, front_bytes, kind_bytes, tail_bytes, count_bytes, record_in};
ghost use Rattle.store_annotation.specs.Events.{ion_events, StoresAdduct, StoresAnnotation};

use counts::Counts;
use layout::{
    ANNOTATION_SECTION, ANNOTATION_SIZE, Edition, ISOTOPE_SECTION, ITEM_SECTION, LOSS_SECTION,
    TEXT_SECTION, UNIT_SECTION, annotation_size,
};
use put_bytes::{put_le, put_run, put8};
use put_formula::put_records;
use read_annotation::{Front, Parts, Tail, begins_adduct};
use read_ion::IonRead;
use read_isotopes::store_isotopes;
use read_tail::DecimalPart;
use slices::{first_of, minus_or_zero, part, rest};
use sort_changes::store_changes;
use store_sections::{Cursors, cursor, with_cursor};

// The adduct items that were stored, and the cursors behind them.
#[derive(Drop)]
pub struct Added {
    pub n: usize,
    pub cursors: Cursors,
}

// What was stored: how many bytes of the line, and the cursors behind it.
#[derive(Drop)]
pub struct Stored {
    pub len: usize,
    pub cursors: Cursors,
}

// A number with its sign in two's complement.
#[tactic(auto, unfolding(crate::specs::Records::signed_of))]
fn signed(minus: bool, value: u64) -> u64
    ensures { result ≡ signed_of minus value }
{
    if minus { value.wrapping_neg() } else { value }
}

// Bytes 0 to 9 of the record: kind, `&`, analyte present, series or letter, analyte, position, end.
fn put_front(out: &mut [u8], to: usize, a: Front) -> usize
    ensures { Put out.old to (front_bytes a) out.new result }
{
    let x = a.ion;
    let p = put_le(out, to, u8::from(x.kind) as u64, 1);
    let q = put_le(out, p, u64::from(a.marked), 1);
    let r = put_le(out, q, u64::from(a.analyte.is_some()), 1);
    let s = put_le(out, r, x.letter as u64, 1);
    let t = put_le(out, s, a.analyte.unwrap_or(0) as u64, 2);
    let u = put_le(out, t, x.position as u64, 2);
    put_le(out, u, x.last as u64, 2)
}

// The kind and the decimals of a deviation or a confidence.
fn put_kind(out: &mut [u8], to: usize, p: DecimalPart) -> usize
    ensures { Put out.old to (kind_bytes p) out.new result }
{
    let size = p.size;
    let q = put_le(out, to, u8::from(p.kind) as u64, 1);
    put_le(out, q, size.places() as u64, 1)
}

// Bytes 10 to 27: charge, kind and decimals of the deviation, presence and decimals of the confidence, 0, deviation, confidence.
fn put_tail(out: &mut [u8], to: usize, b: Tail) -> usize
    ensures { Put out.old to (tail_bytes b) out.new result }
{
    let d = b.deviation;
    let c = b.confidence;
    let x = d.size;
    let y = c.size;
    let p = put_le(out, to, b.charge as u64, 1);
    let q = put_kind(out, p, d);
    let r = put_kind(out, q, c);
    let s = put8(out, r, 0);
    let t = put_le(out, s, signed(d.minus, x.value()), 8);
    put_le(out, t, y.value(), 4)
}

// Bytes 28 to 35: the ion's text bytes and units, then losses, isotopes, adduct items, 0.
fn put_counts(out: &mut [u8], to: usize, n: Counts) -> usize
    ensures { Put out.old to (count_bytes n) out.new result }
{
    let p = put_le(out, to, n.text as u64, 2);
    let q = put_le(out, p, n.units as u64, 2);
    let r = put_le(out, q, n.losses as u64, 1);
    let s = put_le(out, r, n.isotopes as u64, 1);
    let t = put_le(out, s, n.items as u64, 1);
    put8(out, t, 0)
}

// The fields of an annotation's record, with the residues behind those of every edition.
fn put_fields(out: &mut [u8], to: usize, a: Front, b: Tail, n: Counts) -> usize
    ensures { Put out.old to (record_in ed2 a b n) out.new result }
{
    let p = put_front(out, to, a);
    let q = put_tail(out, p, b);
    let r = put_counts(out, q, n);
    put_le(out, r, a.residues as u64, 2)
}

// The record of an annotation, put in one piece: whether it fits is asked once, and not for each field. The first edition has no residues.
fn put_annotation(
    out: &mut [u8],
    to: usize,
    edition: Edition,
    a: Front,
    b: Tail,
    n: Counts,
) -> usize
    ensures { Put out.old to (record_in (edition_of edition) a b n) out.new result }
{
    let mut record = [0u8; ANNOTATION_SIZE];
    put_fields(&mut record, 0, a, b, n);
    put_run(out, to, first_of(&record, annotation_size(edition)))
}

// The units and the text of an ion that a part begins with; it has one of the two at most.
fn put_ion(out: &mut [u8], c: Cursors, s: &[u8], x: IonRead) -> Cursors
    ensures { Ran out.old c (ion_events s.now x) out.new result }
{
    let t = rest(s, x.start);
    let u = put_records(out, cursor(c, UNIT_SECTION), t, x.units);
    let d = with_cursor(c, UNIT_SECTION, u);
    let v = put_run(out, cursor(d, TEXT_SECTION), part(t, 1, x.text));
    with_cursor(d, TEXT_SECTION, v)
}

// The adduct items that a part begins with.
fn store_adduct(out: &mut [u8], c: Cursors, s: &[u8]) -> Added
    ensures { StoresAdduct s.now out.old c out.new result }
{
    if !begins_adduct(s) {
        return Added { n: 0, cursors: c };
    }
    let x = store_changes(out, c, ITEM_SECTION, rest(s, 2));
    let cursors = x.cursors;
    Added { n: x.n, cursors }
}

// The annotation that a part begins with, by what was read of it. Losses, isotopes and adduct were only counted then: they are read here, as they are stored.
pub fn store(out: &mut [u8], c: Cursors, edition: Edition, s: &[u8], p: Parts) -> Stored
    ensures { StoresAnnotation (edition_of edition) s.now p out.old c out.new result }
{
    let a = p.front;
    let x = a.ion;
    let m = p.middle;
    let b = p.tail;
    let c1 = put_ion(out, c, rest(s, a.at), x);
    let s1 = rest(s, a.len);
    let l = store_changes(out, c1, LOSS_SECTION, s1);
    let c2 = l.cursors;
    let s2 = rest(s1, l.len);
    let y = store_isotopes(s2, out, cursor(c2, ISOTOPE_SECTION));
    let c3 = with_cursor(c2, ISOTOPE_SECTION, y.next);
    let i = store_adduct(out, c3, rest(s2, y.len));
    let c4 = i.cursors;
    let n = Counts {
        annotations: 1,
        losses: l.n,
        isotopes: y.n,
        items: i.n,
        units: x.units,
        text: x.text,
    };
    let next = put_annotation(out, cursor(c4, ANNOTATION_SECTION), edition, a, b, n);
    Stored {
        len: minus_or_zero(s.len(), rest(rest(s1, m.len), b.len).len()),
        cursors: with_cursor(c4, ANNOTATION_SECTION, next),
    }
}
