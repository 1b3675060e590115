// What a part of an annotation opens with: a sign and a count, a text in braces, a name in brackets.
#![tactic(auto)]

ghost use Rattle.std.specs.Prelude.{◌≡◌, ◌∷◌, [], ◌+◌, min};
ghost use Rattle.rules.specs.Bytes.{bytes};
ghost use Rattle.rules.specs.Texts.{starts_with};
ghost use Rattle.faults.specs.Faults.{join};
ghost use Rattle.read_opening.specs.Heads.{sign_of, head_of, behind, begins_sign, begins_change, begins_isotope};
ghost use Rattle.read_opening.specs.Enclosed.{long_mark, enclosed_of, text_of, name_of};

use changes::Sign;
use faults::{Refusal, Why, note};
use limits::MAX_TEXT;
use numbers::read_number;
use read_formula::or_one;
use slices::{advance, begins_with, minus_or_zero, rest};
use texts::{name_len, text_len};

// A sign, and a count, as read_number tells it; a silent count is 1.
#[derive(Clone, Copy)]
pub struct Head {
    pub sign: Sign,
    pub count: u32,
    pub len: usize,
}

// A text in braces or a name in brackets: how many bytes it has without and with these, and the first broken limit.
#[derive(Drop)]
pub struct Enclosed {
    pub size: usize,
    pub len: usize,
    pub fault: Option<Refusal>,
}

// ---- sign and count

fn sign(s: &[u8]) -> Sign
    ensures { result ≡ sign_of s.now }
{
    if begins_with(s, b'+') {
        Sign::Plus
    } else {
        Sign::Minus
    }
}

// Whether a part begins with a sign.
pub fn begins_sign(s: &[u8]) -> bool
    ensures { result ≡ begins_sign s.now }
{
    begins_with(s, b'+') || begins_with(s, b'-')
}

// The sign and the count that a part begins with.
pub fn read_head(s: &[u8]) -> Head
    ensures { result ≡ head_of s.now }
{
    let n = read_number(rest(s, 1));
    Head {
        sign: sign(s),
        count: or_one(n),
        len: 1 + n.len,
    }
}

// Whether `i` stands behind sign and count, as in an isotope and in nothing else.
fn is_counted_i(s: &[u8]) -> bool
    ensures { result ≡ starts_with (bytes "i") (behind s.now) }
{
    let h = read_head(s);
    begins_with(rest(s, h.len), b'i')
}

// Whether a part begins with an isotope: a sign, and the `i` behind its count.
#[tactic(auto, unfolding(crate::specs::Heads::begins_isotope))]
pub fn begins_isotope(s: &[u8]) -> bool
    ensures { result ≡ begins_isotope s.now }
{
    begins_sign(s) && is_counted_i(s)
}

// Whether a part begins with a loss or an adduct item: a sign that begins no isotope.
#[tactic(auto, unfolding(crate::specs::Heads::begins_change))]
pub fn begins_change(s: &[u8]) -> bool
    ensures { result ≡ begins_change s.now }
{
    begins_sign(s) && !is_counted_i(s)
}

// ---- texts in braces, names in brackets

// A text or name of n bytes, against how many it may have; `place` is that of the first byte too many.
fn check_length(f: Option<Refusal>, n: usize, place: usize) -> Option<Refusal>
    ensures { result ≡ join f (long_mark n place) }
{
    note(f, Why::TooMany, place, MAX_TEXT < n)
}

// n bytes behind an opening byte, in a part of which `left` bytes are left of a line of `end` bytes.
fn close_text(n: usize, left: usize, end: usize, f: Option<Refusal>) -> Enclosed
    ensures { result ≡ enclosed_of n left end f }
{
    // The first byte too many has the opening byte and 255 bytes before it.
    let fault = check_length(f, n, minus_or_zero(end, minus_or_zero(left, 256)));
    Enclosed {
        size: n,
        len: advance(advance(n, 1, left), 1, left),
        fault,
    }
}

// The text in braces that a part begins with; nothing where it begins with no brace.
pub fn text_in_braces(s: &[u8], end: usize, f: Option<Refusal>) -> Enclosed
    ensures { result ≡ text_of end s.now f }
{
    if !begins_with(s, b'{') {
        return Enclosed {
            size: 0,
            len: 0,
            fault: f,
        };
    }
    close_text(text_len(rest(s, 1)), s.len(), end, f)
}

// The name in brackets that a part begins with; nothing where it begins with no bracket.
pub fn name_in_brackets(s: &[u8], end: usize, f: Option<Refusal>) -> Enclosed
    ensures { result ≡ name_of end s.now f }
{
    if !begins_with(s, b'[') {
        return Enclosed {
            size: 0,
            len: 0,
            fault: f,
        };
    }
    close_text(name_len(rest(s, 1)), s.len(), end, f)
}
