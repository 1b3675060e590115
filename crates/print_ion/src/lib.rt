// What stands before the losses of an annotation, prefix and ion, in preferred spelling, from the record of the annotation.
#![tactic(auto)]

ghost use Rattle.std.specs.Prelude.{◌≡◌, ◌∷◌};
ghost use Rattle.put_bytes.specs.Puts.{Put};
ghost use Rattle.print_ion.specs.Texts.{series_printed, letters_printed, enclosed_printed, braces_printed, brackets_printed, ion_units, ion_bytes};
ghost use Rattle.print_ion.specs.Ions.{position_printed, internal_printed, immonium_printed, label_printed, composed_printed, ion_printed};
ghost use Rattle.print_ion.specs.Fronts.{flag_printed, analyte_printed, front_printed};

use layout::{
    ANALYTE_AT, ANALYTE_PRESENT_AT, KIND_AT, LAST_AT, LETTER_AT, MARKED_AT, POSITION_AT,
    TEXT_LENGTH_AT, UNIT_COUNT_AT,
};
use limits::{MAX_TEXT, MAX_UNITS};
use numbers::put_number;
use print_parts::number_at;
use put_bytes::{put_between, put_run, put8};
use put_formula::print_units;
use slices::{byte_of, first_of, rest, u16_at};

// ---- pieces of text

// The name of a series, 1 to 13; nothing for another number. Series, letters and kinds are matched as the bytes that a table stores: the
// contracts say what every byte prints, one that is no kind too, so that enums would add matches from bytes to kinds and take away no arm.
fn put_series(out: &mut [u8], to: usize, letter: u8) -> usize
    ensures { Put out.old to (series_printed letter) out.new result }
{
    let name: &[u8] = match letter {
        1 => b"a",
        2 => b"b",
        3 => b"c",
        4 => b"d",
        5 => b"v",
        6 => b"w",
        7 => b"x",
        8 => b"y",
        9 => b"z",
        10 => b"da",
        11 => b"db",
        12 => b"wa",
        13 => b"wb",
        _ => b"",
    };
    put_run(out, to, name)
}

// The letters of an internal ion, by the number of its cleavage: nothing for yb, which is 0, and for a number that no table holds.
fn put_letters(out: &mut [u8], to: usize, letter: u8) -> usize
    ensures { Put out.old to (letters_printed letter) out.new result }
{
    let name: &[u8] = match letter {
        1 => b"xa",
        2 => b"xb",
        3 => b"xc",
        4 => b"ya",
        6 => b"yc",
        7 => b"za",
        8 => b"zb",
        9 => b"zc",
        _ => b"",
    };
    put_run(out, to, name)
}

// A text or name between two bytes; nothing where there is none.
fn put_enclosed(out: &mut [u8], to: usize, first: u8, w: &[u8], last: u8) -> usize
    ensures { Put out.old to (enclosed_printed first w.now last) out.new result }
{
    if w.is_empty() {
        to
    } else {
        put_between(out, to, first, w, last)
    }
}

// How many units, and how many bytes of text, an ion has.
pub fn ion_units(s: &[u8]) -> usize
    ensures { result ≡ ion_units s.now }
{
    number_at(s, UNIT_COUNT_AT, MAX_UNITS)
}

pub fn ion_bytes(s: &[u8]) -> usize
    ensures { result ≡ ion_bytes s.now }
{
    number_at(s, TEXT_LENGTH_AT, MAX_TEXT)
}

// ---- ions: s begins with the record, w is the text

// 1: series and position.
fn print_series(out: &mut [u8], to: usize, s: &[u8], w: &[u8]) -> usize
    ensures { Put out.old to (position_printed s.now w.now) out.new result }
{
    let a = put_series(out, to, byte_of(s, LETTER_AT));
    let b = put_number(out, a, u16_at(rest(s, POSITION_AT)) as u64);
    put_enclosed(out, b, b'{', w, b'}')
}

// 2: letters and both ends.
fn print_internal(out: &mut [u8], to: usize, s: &[u8], w: &[u8]) -> usize
    ensures { Put out.old to (internal_printed s.now w.now) out.new result }
{
    let a = put8(out, to, b'm');
    let b = put_letters(out, a, byte_of(s, LETTER_AT));
    let c = put_number(out, b, u16_at(rest(s, POSITION_AT)) as u64);
    let d = put8(out, c, b':');
    let e = put_number(out, d, u16_at(rest(s, LAST_AT)) as u64);
    put_enclosed(out, e, b'{', w, b'}')
}

// 3: the letter.
fn print_immonium(out: &mut [u8], to: usize, s: &[u8], w: &[u8]) -> usize
    ensures { Put out.old to (immonium_printed s.now w.now) out.new result }
{
    let a = put8(out, to, b'I');
    let b = put8(out, a, byte_of(s, LETTER_AT));
    put_enclosed(out, b, b'[', w, b']')
}

// 9: the label, 0 where there is none.
fn print_unknown(out: &mut [u8], to: usize, s: &[u8]) -> usize
    ensures { Put out.old to (label_printed s.now) out.new result }
{
    let a = put8(out, to, b'?');
    match u16_at(rest(s, POSITION_AT)) {
        0 => a,
        n => put_number(out, a, n as u64),
    }
}

// 7: the formula.
fn print_composed(out: &mut [u8], to: usize, s: &[u8], u: &[u8]) -> usize
    ensures { Put out.old to (composed_printed s.now u.now) out.new result }
{
    let a = put_run(out, to, b"f{");
    let b = print_units(out, a, u, ion_units(s));
    put8(out, b, b'}')
}

// A letter and a text in braces, or a name in brackets.
fn print_braced(out: &mut [u8], to: usize, letter: u8, w: &[u8]) -> usize
    ensures { Put out.old to (letter ∷ braces_printed w.now) out.new result }
{
    let a = put8(out, to, letter);
    put_enclosed(out, a, b'{', w, b'}')
}

fn print_reference(out: &mut [u8], to: usize, w: &[u8]) -> usize
    ensures { Put out.old to (114 ∷ brackets_printed w.now) out.new result }
{
    let a = put8(out, to, b'r');
    put_enclosed(out, a, b'[', w, b']')
}

// The ion by its kind; nothing for a kind that there is not.
fn print_ion(out: &mut [u8], to: usize, s: &[u8], u: &[u8], t: &[u8]) -> usize
    ensures { Put out.old to (ion_printed s.now u.now t.now) out.new result }
{
    let w = first_of(t, ion_bytes(s));
    match byte_of(s, KIND_AT) {
        1 => print_series(out, to, s, w),
        2 => print_internal(out, to, s, w),
        3 => print_immonium(out, to, s, w),
        4 => put8(out, to, b'p'),
        5 => print_reference(out, to, w),
        6 => print_braced(out, to, b'_', w),
        7 => print_composed(out, to, s, u),
        8 => print_braced(out, to, b's', w),
        9 => print_unknown(out, to, s),
        _ => to,
    }
}

// ---- before the ion

fn print_flag(out: &mut [u8], to: usize, s: &[u8]) -> usize
    ensures { Put out.old to (flag_printed s.now) out.new result }
{
    if byte_of(s, MARKED_AT) == 0 {
        to
    } else {
        put8(out, to, b'&')
    }
}

fn print_analyte(out: &mut [u8], to: usize, s: &[u8]) -> usize
    ensures { Put out.old to (analyte_printed s.now) out.new result }
{
    if byte_of(s, ANALYTE_PRESENT_AT) == 0 {
        return to;
    }
    let a = put_number(out, to, u16_at(rest(s, ANALYTE_AT)) as u64);
    put8(out, a, b'@')
}

// Prefix and ion; u and t begin with the ion's units and its text.
pub fn print_front(out: &mut [u8], to: usize, s: &[u8], u: &[u8], t: &[u8]) -> usize
    ensures { Put out.old to (front_printed s.now u.now t.now) out.new result }
{
    let a = print_flag(out, to, s);
    let b = print_analyte(out, a, s);
    print_ion(out, b, s, u, t)
}
