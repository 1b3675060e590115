// An annotation in preferred spelling, from the bytes of a line and what was read of them: losses and adduct items are put in order, a 1
// and a yb that may be left out are, a confidence gets the 0 before its point, and all else stays as it is. Document 01, "One table, several spellings".
#![tactic(auto)]

ghost use Rattle.std.specs.Prelude.{◌≡◌};
ghost use Rattle.put_bytes.specs.Puts.{Put};
ghost use Rattle.respell_annotation.specs.Kept.{is_kept};
ghost use Rattle.respell_annotation.specs.Annotations.{ion_spelled, adduct_spelled, tail_spelled, parts_spelled, SpellsAnnotation};

use counts::Counts;
use print_count::Respelled;
use put_bytes::{put_run, put8};
use put_formula::put_preferred;
use read_annotation::{Parts, begins_adduct, is_free};
use read_ion::{IonRead, spells_yb};
use read_isotopes::spell_isotopes;
use read_tail::DecimalPart;
use slices::{first_of, rest};
use sort_changes::spell_changes;

// ---- what stays as it is

// Whether an annotation is spelled as it is preferred, as can be told at a glance: it has no formula, one loss and one adduct item at most,
// no other free spelling, and no `1` stands between ion and charge. Most annotations are such.
fn is_kept(x: IonRead, n: Counts, free: bool, s: &[u8]) -> bool
    ensures { result ≡ is_kept x n free s.now }
{
    x.units == 0 && n.losses <= 1 && n.items <= 1 && !free && !s.contains(&b'1')
}

// ---- what is spelled anew

// The ion that a part begins with: letters that say yb are left out, and a formula may be spelled in two ways.
fn spell_ion(out: &mut [u8], to: usize, s: &[u8], x: IonRead) -> usize
    ensures { Put out.old to (ion_spelled s.now x) out.new result }
{
    if spells_yb(s) {
        let m = put8(out, to, b'm');
        put_run(out, m, rest(first_of(s, x.len), 3))
    } else if x.units == 0 {
        put_run(out, to, first_of(s, x.len))
    } else {
        let a = put_run(out, to, first_of(s, x.start));
        let b = put_preferred(out, a, rest(s, x.start), x.units);
        put8(out, b, b'}')
    }
}

// The adduct that a part begins with.
fn spell_adduct(out: &mut [u8], to: usize, s: &[u8]) -> usize
    ensures { Put out.old to (adduct_spelled s.now) out.new result }
{
    if begins_adduct(s) {
        let a = put_run(out, to, first_of(s, 2));
        let x = spell_changes(out, a, rest(s, 2));
        put8(out, x.to, b']')
    } else {
        to
    }
}

// Charge, deviation and confidence, where c was read of the last: a 0 is put before a point that it begins with.
fn spell_tail(out: &mut [u8], to: usize, s: &[u8], c: DecimalPart) -> usize
    ensures { Put out.old to (tail_spelled s.now c) out.new result }
{
    if c.bare {
        let at = s.len().saturating_sub(c.len.saturating_sub(1));
        let a = put_run(out, to, first_of(s, at));
        let b = put8(out, a, b'0');
        put_run(out, b, rest(s, at))
    } else {
        put_run(out, to, s)
    }
}

// The parts of the annotation that a part begins with, one after the other.
fn spell_parts(out: &mut [u8], to: usize, s: &[u8], p: Parts) -> usize
    ensures { Put out.old to (parts_spelled s.now p) out.new result }
{
    let f = p.front;
    let x = f.ion;
    let m = p.middle;
    let b = p.tail;
    let a0 = put_run(out, to, first_of(s, f.at));
    let a1 = spell_ion(out, a0, rest(s, f.at), x);
    let s1 = rest(s, f.len);
    let l = spell_changes(out, a1, s1);
    let s2 = rest(s1, l.len);
    let y = spell_isotopes(out, l.to, s2);
    let a2 = spell_adduct(out, y.to, rest(s2, y.len));
    spell_tail(out, a2, first_of(rest(s1, m.len), b.len), b.confidence)
}

// The annotation that a part begins with, of which p was read.
pub fn spell_annotation(out: &mut [u8], to: usize, s: &[u8], p: Parts) -> Respelled
    ensures { SpellsAnnotation s.now p out.old to out.new result }
{
    let f = p.front;
    let x = f.ion;
    let m = p.middle;
    let n = m.counts;
    let b = p.tail;
    let c = b.confidence;
    let s1 = rest(s, f.len);
    let len = s.len().saturating_sub(rest(rest(s1, m.len), b.len).len());
    let free = is_free(c.bare, rest(s, f.at));
    let end = if is_kept(x, n, free, first_of(s1, m.len)) {
        put_run(out, to, first_of(s, len))
    } else {
        spell_parts(out, to, s, p)
    };
    Respelled { to: end, len }
}
