// Isotopes, read from the rest of a line: measured, stored, and spelled anew.
#![tactic(auto)]

ghost use Rattle.std.specs.Prelude.{◌≡◌};
ghost use Rattle.put_bytes.specs.Puts.{Put};
ghost use Rattle.read_isotopes.specs.Isotopes.{isotope_of};
ghost use Rattle.read_isotopes.specs.Kinds.{kind_number, kind_nucleons, kind_element};
ghost use Rattle.read_isotopes.specs.Rows.{isotopes_of};
ghost use Rattle.read_isotopes.specs.Records.{record_of, StoresIsotopes};
ghost use Rattle.read_isotopes.specs.Spelled.{isotope_spelled, SpellsIsotopes};

use changes::Sign;
use elements::read_element;
use faults::Refusal;
use limits::MAX_ISOTOPES;
use numbers::read_number;
use print_count::{Respelled, put_head};
use put_bytes::{put_le, put_run, put8};
use read_formula::numbers_fault;
use read_opening::{begins_isotope, read_head};
use slices::{advance, begins_in, begins_with, minus_or_zero, part, rest};

// What stands behind the `i` of an isotope: nothing, `A`, or nucleon number and symbol.
#[derive(Clone, Copy, PartialEq, Eq)]
pub enum IsotopeKind {
    Plain,
    Average,
    Specific { nucleons: u32, element: u16 },
}

impl IsotopeKind {
    // As it is stored.
    pub fn number(self) -> u8
        ensures { result ≡ kind_number self }
    {
        match self {
            IsotopeKind::Plain => 0,
            IsotopeKind::Average => 1,
            IsotopeKind::Specific { .. } => 2,
        }
    }

    // The nucleon number, 0 where none stands.
    pub fn nucleons(self) -> u32
        ensures { result ≡ kind_nucleons self }
    {
        match self {
            IsotopeKind::Specific { nucleons, .. } => nucleons,
            _ => 0,
        }
    }

    // The atomic number, 0 where no symbol stands.
    pub fn element(self) -> u16
        ensures { result ≡ kind_element self }
    {
        match self {
            IsotopeKind::Specific { element, .. } => element,
            _ => 0,
        }
    }
}

// An isotope.
#[derive(Clone, Copy)]
pub struct IsotopeRead {
    pub sign: Sign,
    pub count: u32,
    pub kind: IsotopeKind,
    pub len: usize,
    pub fault: Option<Refusal>,
}

// Isotopes: how many, how many bytes, and the first broken limit.
#[derive(Drop)]
pub struct IsotopesRead {
    pub n: usize,
    pub len: usize,
    pub fault: Option<Refusal>,
}

// Isotopes that are stored: how many, how many bytes they have in the line, and the place behind their records.
#[derive(Drop)]
pub struct IsotopesStored {
    pub n: usize,
    pub len: usize,
    pub next: usize,
}

// The isotope that a part begins with.
pub fn isotope(i: usize, s: &[u8], end: usize, f: Option<Refusal>) -> IsotopeRead
    ensures { result ≡ isotope_of i end s.now f }
{
    let h = read_head(s);
    let at = advance(h.len, 1, s.len());
    let t = rest(s, at);
    if begins_in(t, b'0', b'9') {
        let a = read_number(t);
        let e = read_element(rest(t, a.len));
        return IsotopeRead {
            sign: h.sign,
            count: h.count,
            kind: IsotopeKind::Specific {
                nucleons: a.value,
                element: e.number,
            },
            len: advance(advance(at, a.len, s.len()), e.len, s.len()),
            fault: numbers_fault(f, MAX_ISOTOPES, i, h.count, a.value, at, end, s.len()),
        };
    }
    let fault = numbers_fault(f, MAX_ISOTOPES, i, h.count, 0, at, end, s.len());
    if begins_with(t, b'A') {
        return IsotopeRead {
            sign: h.sign,
            count: h.count,
            kind: IsotopeKind::Average,
            len: advance(at, 1, s.len()),
            fault,
        };
    }
    IsotopeRead {
        sign: h.sign,
        count: h.count,
        kind: IsotopeKind::Plain,
        len: at,
        fault,
    }
}

// All isotopes that a part begins with.
pub fn isotopes(s: &[u8], end: usize, f: Option<Refusal>) -> IsotopesRead
    ensures { result ≡ isotopes_of end s.now f }
{
    let mut at: usize = 0;
    let mut n: usize = 0;
    let mut fault = f;
    // No index is counted, here and below: what begins next decides.
    while begins_isotope(rest(s, at)) {
        let x = isotope(n, rest(s, at), end, fault);
        fault = x.fault;
        at += x.len;
        n += 1;
    }
    IsotopesRead { n, len: at, fault }
}

// The record of an isotope: sign, kind, n, nucleons, atomic number.
pub fn put_isotope(out: &mut [u8], to: usize, x: IsotopeRead) -> usize
    ensures { Put out.old to (record_of x) out.new result }
{
    let a = put8(out, to, u8::from(x.sign));
    let b = put8(out, a, x.kind.number());
    let c = put_le(out, b, x.count as u64, 2);
    let d = put_le(out, c, x.kind.nucleons() as u64, 2);
    put_le(out, d, x.kind.element() as u64, 2)
}

// The records of all isotopes that a part begins with.
pub fn store_isotopes(s: &[u8], out: &mut [u8], to: usize) -> IsotopesStored
    ensures { StoresIsotopes s.now out.old to out.new result }
{
    let mut at: usize = 0;
    let mut n: usize = 0;
    let mut next = to;
    while begins_isotope(rest(s, at)) {
        let x = isotope(0, rest(s, at), 0, None);
        next = put_isotope(out, next, x);
        at += x.len;
        n += 1;
    }
    IsotopesStored { n, len: at, next }
}

// The isotope that a part begins with, of which x was read, in preferred spelling: what stands behind its count stays as it is.
fn spell_isotope(out: &mut [u8], to: usize, s: &[u8], x: IsotopeRead) -> usize
    ensures { Put out.old to (isotope_spelled s.now x) out.new result }
{
    let h = read_head(s);
    let at = put_head(out, to, x.sign, x.count);
    put_run(out, at, part(s, h.len, minus_or_zero(x.len, h.len)))
}

// All isotopes that a part begins with.
pub fn spell_isotopes(out: &mut [u8], to: usize, s: &[u8]) -> Respelled
    ensures { SpellsIsotopes s.now out.old to out.new result }
{
    let mut len: usize = 0;
    let mut end = to;
    while begins_isotope(rest(s, len)) {
        let x = isotope(0, rest(s, len), 0, None);
        end = spell_isotope(out, end, rest(s, len), x);
        len += x.len;
    }
    Respelled { to: end, len }
}
