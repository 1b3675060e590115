// The line of a stored table, in preferred spelling: one annotation after the other, each from the six sections at their cursors. The
// bytes are printed as they stand, by the edition that their header names: whether they are a table is told by reading what was printed.
#![tactic(auto)]

ghost use Rattle.std.specs.Prelude.{◌≡◌};
ghost use Rattle.put_bytes.specs.Puts.{Put};
ghost use Rattle.layout.specs.Editions.{edition_of};
ghost use Rattle.print_table.specs.Parts.{edition_in, counts_at};
ghost use Rattle.print_table.specs.Annotations.{row_of, PrintsAdduct, PrintsAnnotation};
ghost use Rattle.print_table.specs.Tables.{comma_printed, printed_table};

use counts::Counts;
use layout::{
    ANNOTATION_PAIR_AT, EDITION_AT, Edition, ISOTOPE_COUNT_AT, ISOTOPE_PAIR_AT, ISOTOPE_SIZE,
    ITEM_COUNT_AT, ITEM_PAIR_AT, ITEM_SIZE, LOSS_COUNT_AT, LOSS_PAIR_AT, LOSS_SIZE, TEXT_PAIR_AT,
    UNIT_PAIR_AT, UNIT_SIZE, annotation_size, edition_named,
};
use limits::{MAX_ANNOTATIONS, MAX_ISOTOPES, MAX_ITEMS, MAX_LOSSES};
use print_ion::{ion_bytes, ion_units, print_front};
use print_parts::{PrintedTo, at_most, number_at, print_changes, print_isotopes, print_tail};
use put_bytes::{put_run, put8};
use slices::{advance, byte_of, rest, u16_at};
use store_sections::{Cursors, starts};

// The place behind an annotation in the output, and the cursors behind what it has in the table.
#[derive(Drop)]
pub struct Printed {
    pub to: usize,
    pub cursors: Cursors,
}

// How many losses, isotopes or adduct items the record of an annotation tells, in its byte at a place; no more than may be.
fn row_of(s: &[u8], i: usize, most: usize) -> usize
    ensures { result ≡ row_of s.now i most }
{
    at_most(byte_of(s, i) as u16, most)
}

// The adduct of n items.
fn print_adduct(out: &mut [u8], to: usize, x: &[u8], u: &[u8], t: &[u8], n: usize) -> PrintedTo
    ensures { PrintsAdduct n x.now u.now t.now out.old to out.new result }
{
    if n == 0 {
        return PrintedTo {
            to,
            units: 0,
            text: 0,
        };
    }
    let a = put_run(out, to, b"[M");
    let r = print_changes(out, a, x, u, t, n);
    let b = put8(out, r.to, b']');
    PrintedTo { to: b, ..r }
}

// The annotation whose parts stand at the cursors. Of its record only the fields that every edition has are looked at: how far the next
// record is depends on the edition, what is printed does not.
pub fn print_annotation(
    out: &mut [u8],
    to: usize,
    table: &[u8],
    edition: Edition,
    c: Cursors,
) -> Printed
    ensures { PrintsAnnotation (edition_of edition) table.now c out.old to out.new result }
{
    let all = table.len();
    let s = rest(table, c.annotations);
    let losses = row_of(s, LOSS_COUNT_AT, MAX_LOSSES);
    let isotopes = row_of(s, ISOTOPE_COUNT_AT, MAX_ISOTOPES);
    let items = row_of(s, ITEM_COUNT_AT, MAX_ITEMS);
    let a = print_front(out, to, s, rest(table, c.units), rest(table, c.text));
    let u = advance(c.units, UNIT_SIZE * ion_units(s), all);
    let t = advance(c.text, ion_bytes(s), all);
    let l = print_changes(
        out,
        a,
        rest(table, c.losses),
        rest(table, u),
        rest(table, t),
        losses,
    );
    let v = advance(u, l.units, all);
    let w = advance(t, l.text, all);
    let b = print_isotopes(out, l.to, rest(table, c.isotopes), isotopes);
    let x = print_adduct(
        out,
        b,
        rest(table, c.items),
        rest(table, v),
        rest(table, w),
        items,
    );
    let end = print_tail(out, x.to, s);
    let size = annotation_size(edition);
    Printed {
        to: end,
        cursors: Cursors {
            annotations: advance(c.annotations, size, all),
            losses: advance(c.losses, LOSS_SIZE * losses, all),
            isotopes: advance(c.isotopes, ISOTOPE_SIZE * isotopes, all),
            items: advance(c.items, ITEM_SIZE * items, all),
            units: advance(v, x.units, all),
            text: advance(w, x.text, all),
        },
    }
}

// A comma before each annotation but the first.
fn put_comma(out: &mut [u8], to: usize, i: usize) -> usize
    ensures { Put out.old to (comma_printed i) out.new result }
{
    if i == 0 { to } else { put8(out, to, b',') }
}

// The edition that the header names.
pub fn edition_at(table: &[u8]) -> Edition
    ensures { result ≡ edition_in table.now }
{
    edition_named(u16_at(rest(table, EDITION_AT)) as usize)
}

// How many there are in each section, as the header tells.
pub fn counts_at(table: &[u8]) -> Counts
    ensures { result ≡ counts_at table.now }
{
    Counts {
        annotations: u16_at(rest(table, ANNOTATION_PAIR_AT)) as usize,
        losses: u16_at(rest(table, LOSS_PAIR_AT)) as usize,
        isotopes: u16_at(rest(table, ISOTOPE_PAIR_AT)) as usize,
        items: u16_at(rest(table, ITEM_PAIR_AT)) as usize,
        units: u16_at(rest(table, UNIT_PAIR_AT)) as usize,
        text: u16_at(rest(table, TEXT_PAIR_AT)) as usize,
    }
}

// The line of a table; the place behind it.
pub fn print_table(out: &mut [u8], to: usize, table: &[u8]) -> usize
    ensures { Put out.old to (printed_table table.now) out.new result }
{
    let edition = edition_at(table);
    let n = number_at(table, ANNOTATION_PAIR_AT, MAX_ANNOTATIONS);
    let mut c = starts(edition, counts_at(table));
    let mut at = to;
    for i in 0..n {
        let begin = put_comma(out, at, i);
        let p = print_annotation(out, begin, table, edition, c);
        at = p.to;
        c = p.cursors;
    }
    at
}
