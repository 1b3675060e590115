// Losses and adduct items, read from the rest of a line and measured. Both are a sign, a count, and a formula, a name or `e`; a loss has
// no `e` and an adduct item no name, which the shape of the line has settled.
#![tactic(auto)]

ghost use Rattle.std.specs.Prelude.{◌≡◌};
ghost use Rattle.read_changes.specs.Changes.{head_fault, change_with, content_of, change_of};
ghost use Rattle.read_changes.specs.Rows.{changes_of};

use changes::{Content, Sign};
use faults::{Refusal, check_count, check_number};
use limits::MAX_COUNT;
use read_formula::{begins_unit, formula};
use read_opening::{Head, begins_change, name_in_brackets, read_head};
use slices::{advance, begins_with, minus_or_zero, rest};

// A loss or an adduct item. The formula, or the bracket before the name, begins `start` bytes behind the sign.
#[derive(Clone, Copy)]
pub struct ChangeRead {
    pub sign: Sign,
    pub count: u32,
    pub start: usize,
    pub content: Content,
    pub len: usize,
    pub fault: Option<Refusal>,
}

// Losses, or adduct items: how many, how many units and name bytes they have in all, how many bytes, and the first broken limit.
#[derive(Drop)]
pub struct Row {
    pub n: usize,
    pub units: usize,
    pub text: usize,
    pub len: usize,
    pub fault: Option<Refusal>,
}

// The limits of sign and count, where `i` stand before this one and no more than `bound` may stand in all.
fn head_fault(
    bound: usize,
    i: usize,
    h: Head,
    end: usize,
    left: usize,
    f: Option<Refusal>,
) -> Option<Refusal>
    ensures { result ≡ head_fault bound i h end left f }
{
    let g = check_count(f, bound, i, minus_or_zero(end, left));
    check_number(
        g,
        MAX_COUNT,
        h.count,
        minus_or_zero(end, minus_or_zero(left, 1)),
    )
}

// A loss or adduct item with its head, as far as the part goes.
fn with_head(s: &[u8], h: Head, content: Content, len: usize, fault: Option<Refusal>) -> ChangeRead
    ensures { result ≡ change_with s.now h content len fault }
{
    ChangeRead {
        sign: h.sign,
        count: h.count,
        start: h.len,
        content,
        len: advance(h.len, len, s.len()),
        fault,
    }
}

// What stands behind sign and count.
fn read_content(s: &[u8], h: Head, end: usize, f: Option<Refusal>) -> ChangeRead
    ensures { result ≡ content_of end s.now h f }
{
    let t = rest(s, h.len);
    if begins_unit(t) {
        let x = formula(t, end, f);
        let g = x.fault;
        return with_head(s, h, Content::Formula { units: x.units }, x.len, g);
    }
    if begins_with(t, b'[') {
        let x = name_in_brackets(t, end, f);
        let g = x.fault;
        return with_head(s, h, Content::Name { bytes: x.size }, x.len, g);
    }
    with_head(s, h, Content::Electron, 1, f)
}

// The loss or adduct item that a part begins with.
pub fn read_change(bound: usize, i: usize, s: &[u8], end: usize, f: Option<Refusal>) -> ChangeRead
    ensures { result ≡ change_of bound i end s.now f }
{
    let h = read_head(s);
    let g = head_fault(bound, i, h, end, s.len(), f);
    read_content(s, h, end, g)
}

// All that a part begins with.
pub fn read_changes(bound: usize, s: &[u8], end: usize, f: Option<Refusal>) -> Row
    ensures { result ≡ changes_of bound end s.now f }
{
    let mut at: usize = 0;
    let mut n: usize = 0;
    let mut units: usize = 0;
    let mut text: usize = 0;
    let mut fault = f;
    // No index is counted: what begins next decides.
    while begins_change(rest(s, at)) {
        let x = read_change(bound, n, rest(s, at), end, fault);
        let g = x.fault;
        fault = g;
        units += x.content.units();
        text += x.content.name_bytes();
        at += x.len;
        n += 1;
    }
    Row {
        n,
        units,
        text,
        len: at,
        fault,
    }
}
