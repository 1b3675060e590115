// One annotation, read from the rest of a line and measured: what each part hands on is the rest of the line behind it.
#![tactic(auto)]

ghost use Rattle.std.specs.Prelude.{◌≡◌};
ghost use Rattle.rules.specs.Bytes.{bytes};
ghost use Rattle.rules.specs.Texts.{starts_with};
ghost use Rattle.read_annotation.specs.Parts.{prefix_of, adduct_len, adduct_of};
ghost use Rattle.read_annotation.specs.Groups.{front_of, begins_middle, middle_of, tail_of};
ghost use Rattle.read_annotation.specs.Sequences.{has_sequence, sequence_of_ion};
ghost use Rattle.layout.specs.Editions.{edition_of};
ghost use Rattle.read_annotation.specs.House.{ion_rule_of, deviation_rule_of, covered_of, long_enough_of, if_asked, rules_of, share_of};
ghost use Rattle.read_annotation.specs.Measured.{own_counts, parts_of, is_free, measured_of};

use counts::{Counts, plus, sum};
use faults::{Refusal, check_count, check_number};
use layout::Edition;
use limits::{MAX_ANNOTATIONS, MAX_ITEMS, MAX_LOSSES, MAX_POSITION, ONE};
use numbers::{billionths, read_number};
use read_changes::{Row, read_changes};
use read_ion::{IonKind, IonRead, ion, spells_yb};
use read_isotopes::isotopes;
use read_opening::begins_sign;
use read_tail::{DecimalPart, read_charge, read_confidence, read_deviation};
use sequences::{SequenceRead, read_sequence};
use slices::{advance, begins_in, begins_with, minus_or_zero, part, rest};

// What stands before the ion: whether `&` does, and the number of an analyte.
#[derive(Drop)]
pub struct PrefixRead {
    pub marked: bool,
    pub analyte: Option<u32>,
    pub len: usize,
    pub fault: Option<Refusal>,
}

// Prefix and ion; the ion begins at `at`. Its sequence has so many residues, and is of the plain form or not; without one it has none, and is.
#[derive(Clone, Copy)]
pub struct Front {
    pub marked: bool,
    pub analyte: Option<u32>,
    pub at: usize,
    pub ion: IonRead,
    pub formed: bool,
    pub residues: usize,
    pub len: usize,
}

// Losses, isotopes and adduct: how many there are, and how many units and name bytes they have.
#[derive(Clone, Copy)]
pub struct Middle {
    pub counts: Counts,
    pub len: usize,
    pub fault: Option<Refusal>,
}

// Charge, deviation and confidence.
#[derive(Clone, Copy)]
pub struct Tail {
    pub charge: u32,
    pub deviation: DecimalPart,
    pub confidence: DecimalPart,
    pub len: usize,
}

// What was read of one annotation. Measuring it and storing it both need this, so it is read once and handed on.
#[derive(Clone, Copy)]
pub struct Parts {
    pub front: Front,
    pub middle: Middle,
    pub tail: Tail,
}

// One annotation: what it has of each kind; whether it has a free spelling that no count tells of; its confidence in billionths; whether its
// sequence is of the form that the edition asks for; whether the rules for one annotation are kept; how many bytes; and the first broken limit.
#[derive(Drop)]
pub struct Measured {
    pub counts: Counts,
    pub free: bool,
    pub share: u64,
    pub formed: bool,
    pub kept: bool,
    pub len: usize,
    pub fault: Option<Refusal>,
}

// `&` and analyte, both optional. No ion begins with a digit.
pub fn read_prefix(s: &[u8], end: usize, f: Option<Refusal>) -> PrefixRead
    ensures { result ≡ prefix_of end s.now f }
{
    let marked = begins_with(s, b'&');
    let at = usize::from(marked);
    let t = rest(s, at);
    if !begins_in(t, b'0', b'9') {
        return PrefixRead {
            marked,
            analyte: None,
            len: at,
            fault: f,
        };
    }
    let n = read_number(t);
    let fault = check_number(f, MAX_POSITION, n.value, minus_or_zero(end, t.len()));
    PrefixRead {
        marked,
        analyte: Some(n.value),
        len: advance(advance(at, n.len, s.len()), 1, s.len()),
        fault,
    }
}

// Whether a part begins with `[M`, as an adduct does and nothing else behind the ion.
pub fn begins_adduct(s: &[u8]) -> bool
    ensures { result ≡ starts_with (bytes "[M") s.now }
{
    s.starts_with(b"[M")
}

// How many bytes an adduct has, from those of its items.
fn adduct_len(items: usize, all: usize) -> usize
    ensures { result ≡ adduct_len items all }
{
    advance(advance(2, items, all), 1, all)
}

// The adduct that a part begins with.
pub fn read_adduct(s: &[u8], end: usize, f: Option<Refusal>) -> Row
    ensures { result ≡ adduct_of end s.now f }
{
    if !begins_adduct(s) {
        return Row {
            n: 0,
            units: 0,
            text: 0,
            len: 0,
            fault: f,
        };
    }
    let x = read_changes(MAX_ITEMS, rest(s, 2), end, f);
    let fault = x.fault;
    Row {
        n: x.n,
        units: x.units,
        text: x.text,
        len: adduct_len(x.len, s.len()),
        fault,
    }
}

// Whether an ion has a sequence: the text in the braces of a series or an internal ion.
#[tactic(auto, unfolding(crate::specs::Sequences::has_sequence))]
fn has_sequence(x: IonRead) -> bool
    ensures { result ≡ has_sequence x }
{
    match x.kind {
        IonKind::Series | IonKind::Internal => 1 <= x.text,
        _ => false,
    }
}

// The sequence of the ion that a part begins with. It is read here, once: measuring and storing both need to know of it.
#[tactic(auto, unfolding(crate::specs::Sequences::sequence_of_ion))]
fn sequence_of(s: &[u8], x: IonRead) -> SequenceRead
    ensures { result ≡ sequence_of_ion s.now x }
{
    if has_sequence(x) {
        read_sequence(part(rest(s, x.start), 1, x.text))
    } else {
        SequenceRead {
            formed: true,
            residues: 0,
        }
    }
}

// Prefix and ion.
fn read_front(s: &[u8], end: usize, f: Option<Refusal>) -> Front
    ensures { result ≡ front_of end s.now f }
{
    let p = read_prefix(s, end, f);
    let g = p.fault;
    let t = rest(s, p.len);
    let x = ion(t, end, g);
    let q = sequence_of(t, x);
    let len = minus_or_zero(s.len(), rest(t, x.len).len());
    Front {
        marked: p.marked,
        analyte: p.analyte,
        at: p.len,
        ion: x,
        formed: q.formed,
        residues: q.residues,
        len,
    }
}

// Whether losses, isotopes or an adduct may stand where a part begins: each begins with a sign or a bracket.
fn begins_middle(s: &[u8]) -> bool
    ensures { result ≡ begins_middle s.now }
{
    begins_sign(s) || begins_with(s, b'[')
}

// Losses, isotopes, adduct.
fn read_middle(s: &[u8], end: usize, f: Option<Refusal>) -> Middle
    ensures { result ≡ middle_of end s.now f }
{
    // Most annotations have none of the three.
    if !begins_middle(s) {
        return Middle {
            counts: counts::none(),
            len: 0,
            fault: f,
        };
    }
    let l = read_changes(MAX_LOSSES, s, end, f);
    let g = l.fault;
    let t = rest(s, l.len);
    let y = isotopes(t, end, g);
    let h = y.fault;
    let u = rest(t, y.len);
    let a = read_adduct(u, end, h);
    let fault = a.fault;
    Middle {
        counts: Counts {
            annotations: 0,
            losses: l.n,
            isotopes: y.n,
            items: a.n,
            units: sum(l.units, a.units),
            text: l.text,
        },
        len: minus_or_zero(s.len(), rest(u, a.len).len()),
        fault,
    }
}

// Charge, deviation, confidence.
fn read_tail(s: &[u8], end: usize, f: Option<Refusal>) -> Tail
    ensures { result ≡ tail_of end s.now f }
{
    let c = read_charge(s, end, f);
    let g = c.fault;
    let t = rest(s, c.len);
    let d = read_deviation(t, end, g);
    let h = d.fault;
    let u = rest(t, d.len);
    let e = read_confidence(u, end, h);
    Tail {
        charge: c.value,
        deviation: d,
        confidence: e,
        len: minus_or_zero(s.len(), rest(u, e.len).len()),
    }
}

// An internal ion doesn't start at 1 and its start isn't past its end; SMILES has an adduct.
#[tactic(auto, unfolding(crate::specs::House::ion_rule_of))]
fn keeps_ion_rule(x: IonRead, items: usize) -> bool
    ensures { result ≡ ion_rule_of x items }
{
    match x.kind {
        IonKind::Internal => 2 <= x.position && x.position <= x.last,
        IonKind::Smiles => 1 <= items,
        _ => true,
    }
}

// `-` doesn't stand before a zero deviation.
#[tactic(auto, unfolding(crate::specs::House::deviation_rule_of))]
fn keeps_deviation_rule(d: DecimalPart) -> bool
    ensures { result ≡ deviation_rule_of d }
{
    !d.minus || 1 <= d.size.value()
}

// How many residues the position of an ion asks for; of an internal ion those from start to end.
#[tactic(auto, unfolding(crate::specs::House::covered_of))]
fn covered(x: IonRead) -> usize
    ensures { result ≡ covered_of x }
{
    match x.kind {
        IonKind::Internal => minus_or_zero(x.last as usize + 1, x.position as usize),
        _ => x.position as usize,
    }
}

// A sequence has no fewer residues than the position asks for.
#[tactic(auto, unfolding(crate::specs::House::long_enough_of))]
fn is_long_enough(x: IonRead, residues: usize) -> bool
    ensures { result ≡ long_enough_of x residues }
{
    !has_sequence(x) || covered(x) <= residues
}

// What tables of edition 2 ask of a sequence, those of edition 1 do not.
fn if_asked(edition: Edition, kept: bool) -> bool
    ensures { result ≡ if_asked (edition_of edition) kept }
{
    match edition {
        Edition::First => true,
        Edition::Second => kept,
    }
}

// The rules for one annotation, whose ion's sequence has so many residues.
#[tactic(auto, unfolding(crate::specs::House::rules_of))]
fn keeps_rules(
    edition: Edition,
    x: IonRead,
    residues: usize,
    items: usize,
    d: DecimalPart,
    share: u64,
) -> bool
    ensures { result ≡ rules_of (edition_of edition) x residues items d share }
{
    keeps_ion_rule(x, items)
        && keeps_deviation_rule(d)
        && share <= ONE
        && if_asked(edition, is_long_enough(x, residues))
}

// A confidence in billionths; 0 where there is none.
#[tactic(auto, using(crate::proofs::Rules::share_zero), unfolding(crate::specs::House::share_of))]
fn share_of(c: DecimalPart) -> u64
    ensures { result ≡ share_of c }
{
    let size = c.size;
    // Without a confidence there is nothing to scale.
    if size.value() == 0 {
        0
    } else {
        billionths(size)
    }
}

// Annotation number i of a line of `end` bytes.
pub fn read_parts(i: usize, s: &[u8], end: usize, f: Option<Refusal>) -> Parts
    ensures { result ≡ parts_of i end s.now f }
{
    let g = check_count(f, MAX_ANNOTATIONS, i, minus_or_zero(end, s.len()));
    let front = read_front(s, end, g);
    let x = front.ion;
    let h = x.fault;
    let t = rest(s, front.len);
    let middle = read_middle(t, end, h);
    let e = middle.fault;
    let tail = read_tail(rest(t, middle.len), end, e);
    Parts {
        front,
        middle,
        tail,
    }
}

// The annotation itself, with the units and the text of its ion.
fn own_counts(x: IonRead) -> Counts
    ensures { result ≡ own_counts x }
{
    Counts {
        annotations: 1,
        losses: 0,
        isotopes: 0,
        items: 0,
        units: x.units,
        text: x.text,
    }
}

// A free spelling that no count tells of: a confidence without its 0, or letters that say yb, which an internal ion means without them.
pub fn is_free(bare: bool, s: &[u8]) -> bool
    ensures { result ≡ is_free bare s.now }
{
    bare || spells_yb(s)
}

// What was read of the annotation that a part begins with, measured by the rules of an edition.
pub fn measure(edition: Edition, s: &[u8], p: Parts) -> Measured
    ensures { result ≡ measured_of (edition_of edition) s.now p }
{
    let a = p.front;
    let x = a.ion;
    let m = p.middle;
    let n = m.counts;
    let b = p.tail;
    let d = b.deviation;
    let c = b.confidence;
    let fault = c.fault;
    let share = share_of(c);
    let free = is_free(c.bare, rest(s, a.at));
    let u = rest(rest(s, a.len), m.len);
    Measured {
        counts: plus(own_counts(x), n),
        free,
        share,
        formed: if_asked(edition, a.formed),
        kept: keeps_rules(edition, x, a.residues, n.items, d, share),
        len: minus_or_zero(s.len(), rest(u, b.len).len()),
        fault,
    }
}
