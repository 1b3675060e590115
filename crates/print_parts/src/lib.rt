// The preferred text of losses, adduct items and isotopes, and of what stands behind the adduct, from their records. A record is printed
// as it stands: whether the bytes are a table is told by reading what was printed. No more is printed than a table within the limits
// has, so that bytes that are none cost no more time than a table.
#![tactic(auto)]

ghost use Rattle.std.specs.Prelude.{◌≡◌, get_or};
ghost use Rattle.put_bytes.specs.Puts.{Put};
ghost use Rattle.print_parts.specs.Numbers.{up_to, number_at};
ghost use Rattle.slices.specs.Numbers.{u32_at, u64_at};
ghost use Rattle.print_parts.specs.Changes.{content_at, change_units, change_name, content_printed, change_printed, PrintsChanges};
ghost use Rattle.print_parts.specs.Isotopes.{which_printed, isotope_printed, isotopes_printed};
ghost use Rattle.print_parts.specs.Tails.{charge_printed, signed_printed, deviation_printed, confidence_printed, tail_printed};

use changes::{Content, Sign};
use layout::{
    CHARGE_AT, CONFIDENCE_AT, CONFIDENCE_PLACES_AT, CONFIDENCE_PRESENT_AT, CONTENT_KIND_AT,
    CONTENT_SIZE_AT, COUNT_AT, DEVIATION_AT, DEVIATION_KIND_AT, DEVIATION_PLACES_AT,
    ISOTOPE_ELEMENT_AT, ISOTOPE_KIND_AT, ISOTOPE_NUCLEONS_AT, ISOTOPE_SHIFT_AT, ISOTOPE_SIGN_AT,
    ISOTOPE_SIZE, LOSS_SIZE, SIGN_AT, UNIT_SIZE,
};
use limits::{MAX_TEXT, MAX_UNITS};
use numbers::{put_number, put_pointed};
use print_count::put_head;
use put_bytes::{put_between, put_run, put8};
use put_formula::{print_units, put_symbol};
use slices::{byte_of, first_of, rest, u16_at, u32_at, u64_at};

// Where printing has come to: in the output, and how many bytes of the units' and the text's sections were printed.
#[derive(Drop)]
pub struct PrintedTo {
    pub to: usize,
    pub units: usize,
    pub text: usize,
}

// ---- numbers

// The smaller of a number and the most that may be.
pub fn at_most(n: u16, most: usize) -> usize
    ensures { result ≡ up_to n most }
{
    (n as usize).min(most)
}

// The number that stands in two bytes at a place, or the most that may be.
pub fn number_at(s: &[u8], i: usize, most: usize) -> usize
    ensures { result ≡ number_at s.now i most }
{
    at_most(u16_at(rest(s, i)), most)
}

// ---- losses and adduct items

// What a record says to stand behind sign and count; no more units or bytes of a name than the limits allow.
fn content_of(l: &[u8]) -> Content
    ensures { result ≡ content_at l.now }
{
    match byte_of(l, CONTENT_KIND_AT) {
        0 => Content::Formula {
            units: number_at(l, CONTENT_SIZE_AT, MAX_UNITS),
        },
        1 => Content::Name {
            bytes: number_at(l, CONTENT_SIZE_AT, MAX_TEXT),
        },
        _ => Content::Electron,
    }
}

// How many units a loss or an adduct item has.
pub fn units_of(l: &[u8]) -> usize
    ensures { result ≡ change_units l.now }
{
    content_of(l).units()
}

// How many bytes the name of a loss has.
pub fn name_of(l: &[u8]) -> usize
    ensures { result ≡ change_name l.now }
{
    content_of(l).name_bytes()
}

// What stands behind sign and count.
fn print_content(out: &mut [u8], to: usize, l: &[u8], u: &[u8], t: &[u8]) -> usize
    ensures { Put out.old to (content_printed l.now u.now t.now) out.new result }
{
    match content_of(l) {
        Content::Formula { units } => print_units(out, to, u, units),
        Content::Name { bytes } => put_between(out, to, b'[', first_of(t, bytes), b']'),
        Content::Electron => put8(out, to, b'e'),
    }
}

// The loss or adduct item whose record l begins with; its units, or its name, stand where u and t begin.
pub fn print_change(out: &mut [u8], to: usize, l: &[u8], u: &[u8], t: &[u8]) -> usize
    ensures { Put out.old to (change_printed l.now u.now t.now) out.new result }
{
    let a = put_head(
        out,
        to,
        Sign::from(byte_of(l, SIGN_AT)),
        u16_at(rest(l, COUNT_AT)) as u32,
    );
    print_content(out, a, l, u, t)
}

// n of them.
pub fn print_changes(out: &mut [u8], to: usize, l: &[u8], u: &[u8], t: &[u8], n: usize) -> PrintedTo
    ensures { PrintsChanges n l.now u.now t.now out.old to out.new result }
{
    let mut at = to;
    let mut rows = l;
    let mut units = u;
    let mut text = t;
    for _ in 0..n {
        at = print_change(out, at, rows, units, text);
        units = rest(units, UNIT_SIZE * units_of(rows));
        text = rest(text, name_of(rows));
        rows = rest(rows, LOSS_SIZE);
    }
    PrintedTo {
        to: at,
        units: u.len() - units.len(),
        text: t.len() - text.len(),
    }
}

// ---- isotopes

// What stands behind the `i`. The kind is matched as the byte that a table stores: the contract says what every byte prints, one that is
// no kind too, so that an enum would add a match from bytes to kinds and take away no arm. The same holds of a deviation's kind.
fn print_which(out: &mut [u8], to: usize, s: &[u8]) -> usize
    ensures { Put out.old to (which_printed s.now) out.new result }
{
    match byte_of(s, ISOTOPE_KIND_AT) {
        0 => to,
        1 => put8(out, to, b'A'),
        _ => {
            let a = put_number(out, to, u16_at(rest(s, ISOTOPE_NUCLEONS_AT)) as u64);
            put_symbol(out, a, u16_at(rest(s, ISOTOPE_ELEMENT_AT)))
        }
    }
}

// The isotope whose record a part begins with.
fn print_isotope(out: &mut [u8], to: usize, s: &[u8]) -> usize
    ensures { Put out.old to (isotope_printed s.now) out.new result }
{
    let a = put_head(
        out,
        to,
        Sign::from(byte_of(s, ISOTOPE_SIGN_AT)),
        u16_at(rest(s, ISOTOPE_SHIFT_AT)) as u32,
    );
    let b = put8(out, a, b'i');
    print_which(out, b, s)
}

// n of them.
pub fn print_isotopes(out: &mut [u8], to: usize, s: &[u8], n: usize) -> usize
    ensures { Put out.old to (isotopes_printed n s.now) out.new result }
{
    let mut at = to;
    let mut left = s;
    for _ in 0..n {
        at = print_isotope(out, at, left);
        left = rest(left, ISOTOPE_SIZE);
    }
    at
}

// ---- charge, deviation, confidence, from the record of an annotation

fn print_charge(out: &mut [u8], to: usize, s: &[u8]) -> usize
    ensures { Put out.old to (charge_printed s.now) out.new result }
{
    let charge = byte_of(s, CHARGE_AT);
    if charge <= 1 {
        return to;
    }
    let a = put8(out, to, b'^');
    put_number(out, a, charge as u64)
}

// A number in two's complement with so many decimals, behind its `-` if it has one.
fn print_signed(out: &mut [u8], to: usize, v: u64, places: u8) -> usize
    ensures { Put out.old to (signed_printed v places) out.new result }
{
    let signed = v.cast_signed();
    let size = signed.unsigned_abs();
    if signed < 0 {
        let a = put8(out, to, b'-');
        put_pointed(out, a, size, places)
    } else {
        put_pointed(out, to, size, places)
    }
}

fn print_deviation(out: &mut [u8], to: usize, s: &[u8]) -> usize
    ensures { Put out.old to (deviation_printed s.now) out.new result }
{
    let kind = byte_of(s, DEVIATION_KIND_AT);
    if kind == 0 {
        return to;
    }
    let a = put8(out, to, b'/');
    let b = print_signed(
        out,
        a,
        u64_at(rest(s, DEVIATION_AT)),
        byte_of(s, DEVIATION_PLACES_AT),
    );
    if kind == 1 {
        b
    } else {
        put_run(out, b, b"ppm")
    }
}

fn print_confidence(out: &mut [u8], to: usize, s: &[u8]) -> usize
    ensures { Put out.old to (confidence_printed s.now) out.new result }
{
    if byte_of(s, CONFIDENCE_PRESENT_AT) == 0 {
        return to;
    }
    let a = put8(out, to, b'*');
    put_pointed(
        out,
        a,
        u32_at(rest(s, CONFIDENCE_AT)) as u64,
        byte_of(s, CONFIDENCE_PLACES_AT),
    )
}

// What stands behind the adduct.
pub fn print_tail(out: &mut [u8], to: usize, s: &[u8]) -> usize
    ensures { Put out.old to (tail_printed s.now) out.new result }
{
    let a = print_charge(out, to, s);
    let b = print_deviation(out, a, s);
    print_confidence(out, b, s)
}
