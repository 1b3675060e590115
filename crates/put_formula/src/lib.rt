// Units stored and printed: from the rest of a line to records and to preferred text, and from records to preferred text.
#![tactic(auto)]

ghost use Rattle.std.specs.Prelude.{◌≡◌, ◌+◌, min};
ghost use Rattle.put_bytes.specs.Puts.{Put};
ghost use Rattle.put_formula.specs.Records.{record_of, records_of, stored_unit};
ghost use Rattle.slices.specs.Numbers.{u16_at};
ghost use Rattle.put_formula.specs.Preferred.{symbol_text, plain_text, labelled_text, preferred_unit, kept_of, preferred_units, printed_units};

use elements::letters_of;
use layout::{ATOM_COUNT_AT, UNIT_ELEMENT_AT, UNIT_SIZE};
use numbers::put_number;
use put_bytes::{put_le, put_run, put8};
use read_formula::{UnitRead, UnitSpan, unit, unit_span};
use slices::{first_of, rest, u16_at};

// ---- records

// The record of a unit: nucleons, atomic number, count.
pub fn put_record(out: &mut [u8], at: usize, u: UnitRead) -> usize
    ensures { Put out.old at (record_of u) out.new result }
{
    let p = put_le(out, at, u.nucleons as u64, 2);
    let q = put_le(out, p, u.element as u64, 2);
    put_le(out, q, u.count as u64, 2)
}

// The records of the first n units of a part.
pub fn put_records(out: &mut [u8], at: usize, s: &[u8], n: usize) -> usize
    ensures { Put out.old at (records_of n s.now) out.new result }
{
    let mut to = at;
    let mut left = s;
    for _ in 0..n {
        let u = unit(left);
        to = put_record(out, to, u);
        left = rest(left, u.len);
    }
    to
}

// ---- preferred text

// The symbol of an atomic number.
pub fn put_symbol(out: &mut [u8], at: usize, element: u16) -> usize
    ensures { Put out.old at (symbol_text element) out.new result }
{
    let l = letters_of(element);
    match (l.first, l.second) {
        (0, _) => at,
        (first, 0) => put8(out, at, first),
        (first, second) => {
            let p = put8(out, at, first);
            put8(out, p, second)
        }
    }
}

// A unit without nucleon number: a 1 is left out.
fn put_plain(out: &mut [u8], at: usize, u: UnitRead) -> usize
    ensures { Put out.old at (plain_text u) out.new result }
{
    let p = put_symbol(out, at, u.element);
    if u.count <= 1 {
        p
    } else {
        put_number(out, p, u.count as u64)
    }
}

// A unit with its nucleon number, in brackets.
fn put_labelled(out: &mut [u8], at: usize, u: UnitRead) -> usize
    ensures { Put out.old at (labelled_text u) out.new result }
{
    let a = put8(out, at, b'[');
    let b = put_number(out, a, u.nucleons as u64);
    let c = put_symbol(out, b, u.element);
    let d = put_number(out, c, u.count as u64);
    put8(out, d, b']')
}

// The preferred text of a unit.
pub fn put_unit(out: &mut [u8], at: usize, u: UnitRead) -> usize
    ensures { Put out.old at (preferred_unit u) out.new result }
{
    if u.nucleons == 0 {
        put_plain(out, at, u)
    } else {
        put_labelled(out, at, u)
    }
}

// How many bytes of a unit stand in its preferred text: a 1 is left out where there is no nucleon number.
fn kept(span: UnitSpan) -> usize
    ensures { result ≡ kept_of span }
{
    if span.nucleons == 0 && span.count <= 1 {
        span.count_at
    } else {
        span.len
    }
}

// The preferred text of the first n units of a part: it is what stands there, but for a 1.
pub fn put_preferred(out: &mut [u8], at: usize, s: &[u8], n: usize) -> usize
    ensures { Put out.old at (preferred_units n s.now) out.new result }
{
    let mut to = at;
    let mut left = s;
    for _ in 0..n {
        let u = unit_span(left);
        let len = u.len;
        to = put_run(out, to, first_of(left, kept(u)));
        left = rest(left, len);
    }
    to
}

// ---- from records

// The unit whose record a part begins with.
pub fn stored_unit(t: &[u8]) -> UnitRead
    ensures { result ≡ stored_unit t.now }
{
    let nucleons = u16_at(t);
    let element = u16_at(rest(t, UNIT_ELEMENT_AT));
    let count = u16_at(rest(t, ATOM_COUNT_AT));
    UnitRead {
        nucleons: nucleons as u32,
        element,
        count: count as u32,
        count_at: ATOM_COUNT_AT,
        len: UNIT_SIZE,
    }
}

// The preferred text of the n units whose records a part begins with.
pub fn print_units(out: &mut [u8], at: usize, t: &[u8], n: usize) -> usize
    ensures { Put out.old at (printed_units n t.now) out.new result }
{
    let mut to = at;
    let mut left = t;
    for _ in 0..n {
        to = put_unit(out, to, stored_unit(left));
        left = rest(left, UNIT_SIZE);
    }
    to
}
