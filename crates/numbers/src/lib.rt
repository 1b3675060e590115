// Numbers and decimals: read from the front of a part, and written.
#![tactic(auto)]

ghost use Rattle.std.specs.Prelude.{◌≡◌, ◌≤◌, ◌*◌, ◌+◌, ◌-◌, min};
ghost use Rattle.lang.specs.Re.{in_c};
ghost use Rattle.rules.specs.Bytes.{digit};
ghost use Rattle.rules.specs.Numbers.{digits};
ghost use Rattle.rules.specs.Limits.{max_places};
ghost use Rattle.rules.specs.Decimals.{whole, last_digits, decimal_text};
ghost use Rattle.put_bytes.specs.Puts.{Put};
ghost use Rattle.numbers.specs.Leading.{leading_of, number_of};
ghost use Rattle.numbers.specs.Making.{zero_decimal, ruled, made_of};
ghost use Rattle.numbers.specs.Points.{fraction_of, decimal_from, may_begin, decimal_of};
ghost use Rattle.numbers.specs.Shares.{largest, billionths_of};

use put_bytes::put8;
use slices::begins_in;

// Ten to the Decimal::MAX_DIGITS: the first value that is too long, and what all longer ones are told as.
const TOO_LONG: u64 = 1000000000000;

// The digits that a part begins with: their value, no more than a million, and how many there are.
#[derive(Clone, Copy)]
pub struct Number {
    pub value: u32,
    pub len: usize,
}

// The same with a value as large as the reader asks for. Not one generic type: its parameter would stand for these two alone, and this one stays in the crate.
#[derive(Clone, Copy)]
struct Digits {
    value: u64,
    len: usize,
}

fn is_digit(b: u8) -> bool
    ensures { result ≡ in_c digit b }
{
    b.is_ascii_digit()
}

// The value with one digit more, no more than `most`.
fn with_digit(value: u64, b: u8, most: u64) -> u64
    requires { (value ≤ 1000000000000) × (48 ≤ b) × (b ≤ 57) }
    ensures { result ≡ min (value * 10 + (b - 48)) most }
{
    (value * 10 + (b - b'0') as u64).min(most)
}

// The digits that s begins with, as if they stood behind those of `before`; a value past `most` is told as `most`.
fn digits_from(s: &[u8], before: u64, most: u64) -> Digits
    requires { (before ≤ most) × (most ≤ 1000000000000) }
    ensures { result ≡ leading_of before most s.now }
{
    let mut value = before;
    for (len, &b) in s.iter().enumerate() {
        if !is_digit(b) {
            return Digits { value, len };
        }
        value = with_digit(value, b, most);
    }
    Digits {
        value,
        len: s.len(),
    }
}

// The number that s begins with, as far as its digits go.
pub fn read_number(s: &[u8]) -> Number
    ensures { result ≡ number_of s.now }
{
    let d = digits_from(s, 0, 1000000);
    Number {
        value: d.value as u32,
        len: d.len,
    }
}

// v without its last n digits.
fn whole_of(v: u64, n: u8) -> u64
    ensures { result ≡ whole n v }
{
    let mut rest = v;
    for _ in 0..n {
        rest /= 10;
    }
    rest
}

// A decimal: 0.70 is 70 with 2 places. Its fields are private, so that no decimal is made but by `new` and `zero`: each is within the bounds.
#[derive(Clone, Copy)]
pub struct Decimal {
    value: u64,
    places: u8,
}

impl Decimal {
    // How many digits may stand behind the point.
    pub const MAX_PLACES: u8 = limits::MAX_PLACES;

    // How many digits there may be in all.
    pub const MAX_DIGITS: u8 = limits::MAX_DIGITS;

    // A decimal; none past its bounds. Nine places and a `0` before them are ten digits, so that the value's own digits decide.
    pub fn new(value: u64, places: u8) -> Option<Decimal>
        ensures { result ≡ made_of value places }
    {
        if places <= Decimal::MAX_PLACES && value < 10_u64.pow(Decimal::MAX_DIGITS as u32) {
            Some(Decimal { value, places })
        } else {
            None
        }
    }

    // 0, without places.
    pub fn zero() -> Decimal
        ensures { result ≡ zero_decimal }
    {
        Decimal {
            value: 0,
            places: 0,
        }
    }

    // The number without its point.
    pub fn value(self) -> u64
        ensures { result ≡ self.value }
    {
        self.value
    }

    // How many digits stand behind the point.
    pub fn places(self) -> u8
        ensures { result ≡ self.places }
    {
        self.places
    }
}

// What a part begins with, read as a decimal, none past its bounds; and how many bytes it has.
#[derive(Clone, Copy)]
pub struct DecimalRead {
    pub made: Option<Decimal>,
    pub len: usize,
}

// The digits behind the point that s begins with, as if they stood behind those of `before`; none where s begins with no point.
fn fraction_from(s: &[u8], before: u64) -> Digits
    requires { before ≤ 1000000000000 }
    ensures { result ≡ fraction_of before s.now }
{
    match s {
        [b'.', behind @ ..] => digits_from(behind, before, TOO_LONG),
        _ => Digits {
            value: before,
            len: 0,
        },
    }
}

// How many places there are, or one more than there may be.
fn places_of(len: usize) -> u8
    ensures { result ≡ min len (max_places + 1) }
{
    len.min(Decimal::MAX_PLACES as usize + 1) as u8
}

// What a decimal may begin with, as its user takes it: a digit, or, where the 0 before a point may be left out, that point.
#[derive(Clone, Copy)]
pub enum FirstByte {
    Digit,
    DigitOrPoint,
}

// Whether s may be a decimal by its first byte.
fn may_begin(s: &[u8], first: FirstByte) -> bool
    ensures { result ≡ may_begin first s.now }
{
    match first {
        FirstByte::Digit => begins_in(s, b'0', b'9'),
        FirstByte::DigitOrPoint => true,
    }
}

// The digits that s begins with, then a point and digits where a digit stands behind the point.
fn decimal_from(s: &[u8]) -> DecimalRead
    ensures { result ≡ decimal_from s.now }
{
    let whole = digits_from(s, 0, TOO_LONG);
    let at = whole.len;
    let all = fraction_from(&s[at..], whole.value);
    let places = all.len;
    let made = Decimal::new(all.value, places_of(places));
    let len = if places == 0 { at } else { at + 1 + places };
    DecimalRead { made, len }
}

// The decimal that s begins with, as its user takes it; 0 in no bytes where it begins with none.
#[tactic(auto, unfolding(crate::specs::Points::decimal_of))]
pub fn read_decimal(s: &[u8], first: FirstByte) -> DecimalRead
    ensures { result ≡ decimal_of first s.now }
{
    if may_begin(s, first) {
        decimal_from(s)
    } else {
        DecimalRead {
            made: Some(Decimal::zero()),
            len: 0,
        }
    }
}

// A decimal in billionths, or the largest there is. More than nine places count as nine: no decimal within its bounds has them.
#[tactic(auto, unfolding(crate::specs::Shares::billionths_of))]
pub fn billionths(d: Decimal) -> u64
    ensures { result ≡ billionths_of d }
{
    let missing = Decimal::MAX_PLACES.saturating_sub(d.places);
    d.value.saturating_mul(10_u64.pow(missing as u32))
}

// The digits of n, put at a cursor; the place behind them.
pub fn put_number(out: &mut [u8], at: usize, n: u64) -> usize
    ensures { Put out.old at (digits n) out.new result }
{
    if n < 10 {
        put8(out, at, b'0' + n as u8)
    } else {
        let to = put_number(out, at, n / 10);
        put8(out, to, b'0' + (n % 10) as u8)
    }
}

// The last n digits of v.
fn put_last(out: &mut [u8], at: usize, v: u64, n: u8) -> usize
    ensures { Put out.old at (last_digits n v) out.new result }
{
    if n == 0 {
        at
    } else {
        let to = put_last(out, at, v / 10, n - 1);
        put8(out, to, b'0' + (v % 10) as u8)
    }
}

// A number with a point before its last digits, put at a cursor: the whole number, then the point and the places where there are any.
// A stored value that is no decimal within the bounds has this text too.
pub fn put_pointed(out: &mut [u8], at: usize, value: u64, places: u8) -> usize
    ensures { Put out.old at (decimal_text (record { value = value; places = places })) out.new result }
{
    let behind = put_number(out, at, whole_of(value, places));
    if places == 0 {
        behind
    } else {
        let to = put8(out, behind, b'.');
        put_last(out, to, value, places)
    }
}

// A decimal, put at a cursor.
pub fn put_decimal(out: &mut [u8], at: usize, d: Decimal) -> usize
    ensures { Put out.old at (decimal_text (ruled d)) out.new result }
{
    put_pointed(out, at, d.value, d.places)
}
