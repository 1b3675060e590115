// The parts of an annotation behind its adduct, read from the rest of a line and measured: charge, deviation, confidence.
#![tactic(auto)]

ghost use Rattle.std.specs.Prelude.{◌≡◌};
ghost use Rattle.rules.specs.Bytes.{bytes};
ghost use Rattle.rules.specs.Texts.{starts_with};
ghost use Rattle.read_tail.specs.Kinds.{part_number};
ghost use Rattle.read_tail.specs.Charges.{charge_of};
ghost use Rattle.read_tail.specs.Decimals.{no_part, part_of, digit_at, confidence_of, deviation_of};

use faults::{Refusal, Why, check_number, note};
use limits::MAX_CHARGE;
use numbers::{Decimal, FirstByte, read_decimal, read_number};
use slices::{begins_with, minus_or_zero, rest};

// A charge: its number, as read_number tells it, how many bytes it has, and the first broken limit. A silent charge is 1.
#[derive(Drop)]
pub struct ChargeRead {
    pub value: u32,
    pub len: usize,
    pub fault: Option<Refusal>,
}

// Whether there is a deviation or a confidence; a deviation may be in ppm.
#[derive(Clone, Copy, PartialEq, Eq)]
pub enum PartKind {
    Absent,
    Plain,
    Ppm,
}

impl From<PartKind> for u8 {
    // As it is stored.
    fn from(kind: PartKind) -> Self
        ensures { result ≡ part_number kind }
    {
        kind as u8
    }
}

// A deviation or a confidence. A bare one lacks the 0 before its point. A decimal past its bounds is told as 0.
#[derive(Clone, Copy)]
pub struct DecimalPart {
    pub kind: PartKind,
    pub minus: bool,
    pub bare: bool,
    pub size: Decimal,
    pub len: usize,
    pub fault: Option<Refusal>,
}

// The charge that a part begins with, where the part is the rest of a line of `end` bytes.
pub fn read_charge(s: &[u8], end: usize, f: Option<Refusal>) -> ChargeRead
    ensures { result ≡ charge_of end s.now f }
{
    if !begins_with(s, b'^') {
        return ChargeRead {
            value: 1,
            len: 0,
            fault: f,
        };
    }
    let n = read_number(rest(s, 1));
    let fault = check_number(
        f,
        MAX_CHARGE,
        n.value,
        minus_or_zero(end, minus_or_zero(s.len(), 1)),
    );
    ChargeRead {
        value: n.value,
        len: 1 + n.len,
        fault,
    }
}

// No part, with the first limit that was broken before it.
fn no_part(f: Option<Refusal>) -> DecimalPart
    ensures { result ≡ no_part f }
{
    DecimalPart {
        kind: PartKind::Absent,
        minus: false,
        bare: false,
        size: Decimal::zero(),
        len: 0,
        fault: f,
    }
}

// A decimal at a place, as a part.
#[tactic(auto, unfolding(crate::specs::Decimals::part_of))]
fn made_part(
    made: Option<Decimal>,
    kind: PartKind,
    minus: bool,
    bare: bool,
    len: usize,
    place: usize,
    f: Option<Refusal>,
) -> DecimalPart
    ensures { result ≡ part_of made kind minus bare len place f }
{
    let past = made.is_none();
    DecimalPart {
        kind,
        minus,
        bare,
        size: made.unwrap_or(Decimal::zero()),
        len,
        fault: note(f, Why::PastBound, place, past),
    }
}

// The confidence that a part begins with.
pub fn read_confidence(s: &[u8], end: usize, f: Option<Refusal>) -> DecimalPart
    ensures { result ≡ confidence_of end s.now f }
{
    if !begins_with(s, b'*') {
        return no_part(f);
    }
    let t = rest(s, 1);
    let bare = begins_with(t, b'.');
    let at = digit_at(bare);
    let d = read_decimal(t, FirstByte::DigitOrPoint);
    let place = minus_or_zero(end, minus_or_zero(s.len(), at));
    made_part(d.made, PartKind::Plain, false, bare, 1 + d.len, place, f)
}

// Whether a part begins with `ppm`.
fn begins_ppm(s: &[u8]) -> bool
    ensures { result ≡ starts_with (bytes "ppm") s.now }
{
    s.starts_with(b"ppm")
}

// Where the first digit stands: behind `/` or `*`, or behind one byte more, `-` or the point.
fn digit_at(second: bool) -> usize
    ensures { result ≡ digit_at second }
{
    if second { 2 } else { 1 }
}

// The deviation that a part begins with.
pub fn read_deviation(s: &[u8], end: usize, f: Option<Refusal>) -> DecimalPart
    ensures { result ≡ deviation_of end s.now f }
{
    if !begins_with(s, b'/') {
        return no_part(f);
    }
    let minus = begins_with(rest(s, 1), b'-');
    let at = digit_at(minus);
    let d = read_decimal(rest(s, at), FirstByte::Digit);
    let len = at + d.len;
    let place = minus_or_zero(end, minus_or_zero(s.len(), at));
    if begins_ppm(rest(s, len)) {
        return made_part(d.made, PartKind::Ppm, minus, false, len + 3, place, f);
    }
    made_part(d.made, PartKind::Plain, minus, false, len, place, f)
}
