// Units and formulas, read from the rest of a line and measured: how many bytes, which numbers, the first broken limit.
#![tactic(auto)]

ghost use Rattle.std.specs.Prelude.{◌≡◌, ◌∷◌, [], ◌+◌, ◌-◌, min, take, drop};
ghost use Rattle.lang.specs.Re.{rng};
ghost use Rattle.rules.specs.Limits.{number_mark, many_mark};
ghost use Rattle.rules.specs.Texts.{first_in, starts_with};
ghost use Rattle.faults.specs.Faults.{join, after};
ghost use Rattle.read_formula.specs.Units.{begins_unit, or_one, plain_span, labelled_span, span_of, unit_of, numbers_fault};
ghost use Rattle.read_formula.specs.Formulas.{formula_of};

use elements::{read_element, symbol_len};
use faults::{Refusal, check_count, check_number};
use limits::{MAX_COUNT, MAX_UNITS};
use numbers::{Number, read_number};
use slices::{begins_in, begins_with, minus_or_zero, rest};

// A unit: its numbers, as read_number tells them, where its count stands, and how many bytes it has. A silent count is 1, and a unit
// without nucleon number has 0 nucleons.
#[derive(Clone, Copy)]
pub struct UnitRead {
    pub nucleons: u32,
    pub element: u16,
    pub count: u32,
    pub count_at: usize,
    pub len: usize,
}

// What is measured of a unit without a look at which element it has: its numbers, where its symbol and its count stand, and how many bytes
// it has.
#[derive(Clone, Copy)]
pub struct UnitSpan {
    pub nucleons: u32,
    pub symbol_at: usize,
    pub count: u32,
    pub count_at: usize,
    pub len: usize,
}

// A formula: how many units and bytes, and the first broken limit.
#[derive(Drop)]
pub struct FormulaRead {
    pub units: usize,
    pub len: usize,
    pub fault: Option<Refusal>,
}

// ---- parts and limits

// ---- units

// Whether a part begins with a unit: `[M` and `[name]` are none.
#[tactic(auto, unfolding(crate::specs::Units::begins_unit))]
pub fn begins_unit(s: &[u8]) -> bool
    ensures { result ≡ begins_unit s.now }
{
    begins_in(s, b'A', b'Z') || begins_with(s, b'[') && begins_in(rest(s, 1), b'0', b'9')
}

// A count whose 1 may be left out.
pub fn or_one(n: Number) -> u32
    ensures { result ≡ or_one n }
{
    if n.len == 0 { 1 } else { n.value }
}

// The end of a unit with the bracket behind it, no further than the part goes, so that any part can be measured.
fn with_bracket(end: usize, all: usize) -> usize
    ensures { result ≡ min (end + 1) all }
{
    end.saturating_add(1).min(all)
}

// A symbol and its count.
fn plain_span(s: &[u8]) -> UnitSpan
    ensures { result ≡ plain_span s.now }
{
    let q = symbol_len(s);
    let n = read_number(rest(s, q));
    UnitSpan {
        nucleons: 0,
        symbol_at: 0,
        count: or_one(n),
        count_at: q,
        len: q + n.len,
    }
}

// `[`, nucleon number, symbol, count, `]`. Only the numbers and the symbol are looked at: a line whose shape was scanned has the brackets.
fn labelled_span(s: &[u8]) -> UnitSpan
    ensures { result ≡ labelled_span s.now }
{
    let a = read_number(rest(s, 1));
    let p = 1 + a.len;
    let q = p + symbol_len(rest(s, p));
    let n = read_number(rest(s, q));
    let end = q + n.len;
    UnitSpan {
        nucleons: a.value,
        symbol_at: p,
        count: n.value,
        count_at: q,
        len: with_bracket(end, s.len()),
    }
}

// What is measured of the unit that a part begins with. No symbol is looked up, as only who keeps the unit asks for its element.
#[tactic(auto, unfolding(crate::specs::Units::span_of))]
pub fn unit_span(s: &[u8]) -> UnitSpan
    ensures { result ≡ span_of s.now }
{
    if begins_with(s, b'[') {
        labelled_span(s)
    } else {
        plain_span(s)
    }
}

// The unit that a part begins with.
pub fn unit(s: &[u8]) -> UnitRead
    ensures { result ≡ unit_of s.now }
{
    let u = unit_span(s);
    let e = read_element(rest(s, u.symbol_at));
    UnitRead {
        nucleons: u.nucleons,
        element: e.number,
        count: u.count,
        count_at: u.count_at,
        len: u.len,
    }
}

// The limits of number i of at most `most` things in a row, each with two numbers, one a byte behind its beginning, the other `at` bytes
// behind it; `left` of the line's `end` bytes are left where it begins.
pub fn numbers_fault(
    f: Option<Refusal>,
    most: usize,
    i: usize,
    first: u32,
    second: u32,
    at: usize,
    end: usize,
    left: usize,
) -> Option<Refusal>
    ensures { result ≡ numbers_fault f most i first second at end left }
{
    let g = check_count(f, most, i, minus_or_zero(end, left));
    let h = check_number(
        g,
        MAX_COUNT,
        first,
        minus_or_zero(end, minus_or_zero(left, 1)),
    );
    check_number(
        h,
        MAX_COUNT,
        second,
        minus_or_zero(end, minus_or_zero(left, at)),
    )
}

// The units that a part begins with, where the part is the rest of a line of `end` bytes.
pub fn formula(s: &[u8], end: usize, f: Option<Refusal>) -> FormulaRead
    ensures { result ≡ formula_of end s.now f }
{
    let mut at: usize = 0;
    let mut units: usize = 0;
    let mut fault = f;
    // Places are told by what is left, as no part knows where in the line it begins. No index is counted: what begins next decides.
    while begins_unit(rest(s, at)) {
        let u = unit_span(rest(s, at));
        fault = numbers_fault(
            fault,
            MAX_UNITS,
            units,
            u.nucleons,
            u.count,
            u.count_at,
            end,
            s.len() - at,
        );
        at += u.len;
        units += 1;
    }
    FormulaRead {
        units,
        len: at,
        fault,
    }
}
