// The ion that the rest of a line begins with, of nine kinds, measured. Document 01, "Shape of a line".
#![tactic(auto)]

ghost use Rattle.std.specs.Prelude.{◌≡◌, get_or};
ghost use Rattle.rules.specs.Bytes.{bytes};
ghost use Rattle.rules.specs.Texts.{starts_with};
ghost use Rattle.read_ion.specs.Stored.{kind_number};
ghost use Rattle.read_ion.specs.Letters.{one_letter, two_letters, letters_of};
ghost use Rattle.read_ion.specs.Cuts.{place_in, held_of, cut_of};
ghost use Rattle.read_ion.specs.Kinds.{with_text, series_of, internal_of, opens_modification, immonium_of, braced_of, reference_of, composed_of, unknown_of, precursor_of};
ghost use Rattle.read_ion.specs.Ions.{ion_of};

use faults::{Refusal, check_number};
use limits::MAX_POSITION;
use numbers::read_number;
use read_formula::formula;
use read_opening::{Enclosed, name_in_brackets, text_in_braces};
use slices::{advance, begins_with, byte_of, minus_or_zero, rest};

// Its kind; the numbers are those that are stored.
#[derive(Clone, Copy, PartialEq, Eq)]
pub enum IonKind {
    Series = 1,
    Internal = 2,
    Immonium = 3,
    Precursor = 4,
    Reference = 5,
    Named = 6,
    Composed = 7,
    Smiles = 8,
    Unknown = 9,
}

impl From<IonKind> for u8 {
    // As it is stored.
    fn from(kind: IonKind) -> Self
        ensures { result ≡ kind_number kind }
    {
        kind as u8
    }
}

// An ion. Letter: series 1 to 13, the cleavage of an internal ion as a table holds it, or the letter of an immonium ion. Position: position,
// start or label; last: the end of an internal ion. The letter stays a number, since it is stored as one and means three things by the kind. It has so many units, or bytes of text: the formula, or the brace or bracket before the text, begins at `start`.
#[derive(Clone, Copy)]
pub struct IonRead {
    pub kind: IonKind,
    pub letter: u8,
    pub position: u32,
    pub last: u32,
    pub start: usize,
    pub units: usize,
    pub text: usize,
    pub len: usize,
    pub fault: Option<Refusal>,
}

// A series: 1 to 13 in the listed order, where there is one, and how many bytes.
#[derive(Drop)]
pub struct SeriesRead {
    pub letter: Option<u8>,
    pub len: usize,
}

// The letters of an internal ion: its cleavage as a table holds it, and how many bytes. Without letters it is that of yb, 0.
#[derive(Drop)]
pub struct CutRead {
    pub held: u8,
    pub len: usize,
}

// The series of one letter.
#[tactic(auto, unfolding(crate::specs::Letters::one_letter, crate::specs::Letters::place_from))]
fn one_letter(b: u8) -> Option<u8>
    ensures { result ≡ one_letter b }
{
    match b {
        b'a' => Some(1),
        b'b' => Some(2),
        b'c' => Some(3),
        b'd' => Some(4),
        b'v' => Some(5),
        b'w' => Some(6),
        b'x' => Some(7),
        b'y' => Some(8),
        b'z' => Some(9),
        _ => None,
    }
}

// The series of two letters: da, db, wa, wb.
#[tactic(auto, unfolding(crate::specs::Letters::two_letters))]
fn two_letters(a: u8, b: u8) -> Option<u8>
    ensures { result ≡ two_letters a b }
{
    match (a, b) {
        (b'd', b'a') => Some(10),
        (b'd', b'b') => Some(11),
        (b'w', b'a') => Some(12),
        (b'w', b'b') => Some(13),
        _ => None,
    }
}

// The series that a part begins with.
fn series_name(s: &[u8]) -> SeriesRead
    ensures { result ≡ letters_of s.now }
{
    let a = byte_of(s, 0);
    match two_letters(a, byte_of(s, 1)) {
        Some(letter) => SeriesRead {
            letter: Some(letter),
            len: 2,
        },
        None => match one_letter(a) {
            Some(letter) => SeriesRead {
                letter: Some(letter),
                len: 1,
            },
            None => SeriesRead {
                letter: None,
                len: 0,
            },
        },
    }
}

// An ion with a text in braces or a name in brackets that begins at `at`.
fn with_text(
    kind: IonKind,
    letter: u8,
    position: u32,
    last: u32,
    at: usize,
    x: Enclosed,
    all: usize,
) -> IonRead
    ensures { result ≡ with_text kind letter position last at x all }
{
    let fault = x.fault;
    IonRead {
        kind,
        letter,
        position,
        last,
        start: at,
        units: 0,
        text: x.size,
        len: advance(at, x.len, all),
        fault,
    }
}

// series, position, optional text.
fn series(s: &[u8], end: usize, f: Option<Refusal>) -> IonRead
    ensures { result ≡ series_of end s.now f }
{
    let l = series_name(s);
    let n = read_number(rest(s, l.len));
    let g = check_number(
        f,
        MAX_POSITION,
        n.value,
        minus_or_zero(end, minus_or_zero(s.len(), l.len)),
    );
    let at = advance(l.len, n.len, s.len());
    let x = text_in_braces(rest(s, at), end, g);
    with_text(
        IonKind::Series,
        l.letter.unwrap_or(0),
        n.value,
        0,
        at,
        x,
        s.len(),
    )
}

// Where a byte stands among the three from another on, counted from 1.
#[tactic(auto, unfolding(crate::specs::Cuts::place_in))]
fn place_in(b: u8, first: u8) -> Option<u8>
    ensures { result ≡ place_in b first }
{
    if first <= b && b - first < 3 {
        Some(b - first + 1)
    } else {
        None
    }
}

// The number of a cleavage as a table holds it: yb, the fifth, is 0.
#[tactic(auto, unfolding(crate::specs::Cuts::held_of))]
fn held_of(n: u8) -> u8
    ensures { result ≡ held_of n }
{
    if n == 5 { 0 } else { n }
}

// The letters that a part begins with: one of x y z and one of a b c, or none.
fn read_cut(s: &[u8]) -> CutRead
    ensures { result ≡ cut_of s.now }
{
    let b = place_in(byte_of(s, 1), b'a').unwrap_or(0);
    match place_in(byte_of(s, 0), b'x') {
        Some(a) => CutRead {
            held: held_of(3 * (a - 1) + b),
            len: 2,
        },
        None => CutRead { held: 0, len: 0 },
    }
}

// `m`, letters, number, `:`, number, optional text.
fn internal(s: &[u8], end: usize, f: Option<Refusal>) -> IonRead
    ensures { result ≡ internal_of end s.now f }
{
    let c = read_cut(rest(s, 1));
    let from = advance(1, c.len, s.len());
    let a = read_number(rest(s, from));
    let g = check_number(
        f,
        MAX_POSITION,
        a.value,
        minus_or_zero(end, minus_or_zero(s.len(), from)),
    );
    let colon = advance(from, a.len, s.len());
    let p = advance(colon, 1, s.len());
    let b = read_number(rest(s, p));
    let h = check_number(
        g,
        MAX_POSITION,
        b.value,
        minus_or_zero(end, minus_or_zero(s.len(), p)),
    );
    let at = advance(p, b.len, s.len());
    let x = text_in_braces(rest(s, at), end, h);
    with_text(IonKind::Internal, c.held, a.value, b.value, at, x, s.len())
}

// Whether a part begins with a name in brackets that cannot be taken for an adduct: `[M+` and `[M-` can.
#[tactic(auto, unfolding(crate::specs::Kinds::opens_modification))]
fn opens_modification(s: &[u8]) -> bool
    ensures { result ≡ opens_modification s.now }
{
    begins_with(s, b'[') && !(s.starts_with(b"[M+") || s.starts_with(b"[M-"))
}

// `I`, a letter, optional modification.
fn immonium(s: &[u8], end: usize, f: Option<Refusal>) -> IonRead
    ensures { result ≡ immonium_of end s.now f }
{
    let letter = byte_of(s, 1);
    let at = advance(2, 0, s.len());
    let t = rest(s, at);
    if opens_modification(t) {
        let x = name_in_brackets(t, end, f);
        return with_text(IonKind::Immonium, letter, 0, 0, at, x, s.len());
    }
    IonRead {
        kind: IonKind::Immonium,
        letter,
        position: 0,
        last: 0,
        start: at,
        units: 0,
        text: 0,
        len: at,
        fault: f,
    }
}

// A letter, and a text in braces.
fn braced(kind: IonKind, s: &[u8], end: usize, f: Option<Refusal>) -> IonRead
    ensures { result ≡ braced_of kind end s.now f }
{
    let x = text_in_braces(rest(s, 1), end, f);
    with_text(kind, 0, 0, 0, 1, x, s.len())
}

// `r` and a name in brackets.
fn reference(s: &[u8], end: usize, f: Option<Refusal>) -> IonRead
    ensures { result ≡ reference_of end s.now f }
{
    let x = name_in_brackets(rest(s, 1), end, f);
    with_text(IonKind::Reference, 0, 0, 0, 1, x, s.len())
}

// a formula between `f{` and `}`.
fn composed(s: &[u8], end: usize, f: Option<Refusal>) -> IonRead
    ensures { result ≡ composed_of end s.now f }
{
    let x = formula(rest(s, 2), end, f);
    let fault = x.fault;
    IonRead {
        kind: IonKind::Composed,
        letter: 0,
        position: 0,
        last: 0,
        start: 2,
        units: x.units,
        text: 0,
        len: advance(advance(2, x.len, s.len()), 1, s.len()),
        fault,
    }
}

// `?`, optional label.
fn unknown(s: &[u8], end: usize, f: Option<Refusal>) -> IonRead
    ensures { result ≡ unknown_of end s.now f }
{
    let n = read_number(rest(s, 1));
    let fault = check_number(
        f,
        MAX_POSITION,
        n.value,
        minus_or_zero(end, minus_or_zero(s.len(), 1)),
    );
    IonRead {
        kind: IonKind::Unknown,
        letter: 0,
        position: n.value,
        last: 0,
        start: 1,
        units: 0,
        text: 0,
        len: advance(1, n.len, s.len()),
        fault,
    }
}

// `p`.
fn precursor(all: usize, f: Option<Refusal>) -> IonRead
    ensures { result ≡ precursor_of all f }
{
    IonRead {
        kind: IonKind::Precursor,
        letter: 0,
        position: 0,
        last: 0,
        start: 1,
        units: 0,
        text: 0,
        len: advance(1, 0, all),
        fault: f,
    }
}

// Whether a part begins with an internal ion whose letters say what it means without them.
pub fn spells_yb(s: &[u8]) -> bool
    ensures { result ≡ starts_with (bytes "myb") s.now }
{
    s.starts_with(b"myb")
}

// The ion that a part begins with, told by its first byte.
pub fn ion(s: &[u8], end: usize, f: Option<Refusal>) -> IonRead
    ensures { result ≡ ion_of end s.now f }
{
    match byte_of(s, 0) {
        b'm' => internal(s, end, f),
        b'I' => immonium(s, end, f),
        b'p' => precursor(s.len(), f),
        b'r' => reference(s, end, f),
        b'_' => braced(IonKind::Named, s, end, f),
        b'f' => composed(s, end, f),
        b's' => braced(IonKind::Smiles, s, end, f),
        b'?' => unknown(s, end, f),
        _ => series(s, end, f),
    }
}
