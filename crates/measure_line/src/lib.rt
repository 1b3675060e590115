// The annotations of a line, measured one after the other: what is counted of them, and the first refusal by 4 to 7 or 11 that they give.
// Document 01, "Numbers of refusal", and document 02, M-105: 4 and 5, the lowest place winning; then 11; 6; 7.
#![tactic(auto)]

ghost use Rattle.std.specs.Prelude.{◌≡◌};
ghost use Rattle.layout.specs.Editions.{edition_of};
ghost use Rattle.faults.specs.Refusals.{number_of};
ghost use Rattle.measure_line.specs.Totals.{nothing, noted, parts_at, added_by, add_next, totals_by};
ghost use Rattle.measure_line.specs.Refusals.{first_of};

use counts::{Counts, plus};
use faults::{Refusal, Why};
use layout::Edition;
use limits::ONE;
use read_annotation::{Parts, measure, read_parts};
use slices::{advance, begins_with, minus_or_zero, rest};

// What was counted of the annotations up to `at`: how many of each kind, whether one has a free spelling that no count tells of, the sum of
// confidences in billionths, the first broken limit, the first annotation whose sequence is outside the form that the edition asks for, the first that breaks
// a rule, the first that takes the sum past 1.
#[derive(Clone, Copy)]
pub struct Totals {
    pub counts: Counts,
    pub free: bool,
    pub sum: u64,
    pub limit: Option<Refusal>,
    pub form: Option<Refusal>,
    pub breach: Option<Refusal>,
    pub excess: Option<Refusal>,
    pub at: usize,
}

fn before_all() -> Totals
    ensures { result ≡ nothing }
{
    Totals {
        counts: counts::none(),
        free: false,
        sum: 0,
        limit: None,
        form: None,
        breach: None,
        excess: None,
        at: 0,
    }
}

// A test that is not kept counts where none was before it.
fn note(f: Option<Refusal>, why: Why, place: usize, kept: bool) -> Option<Refusal>
    ensures { result ≡ noted f (number_of why) place kept }
{
    faults::note(f, why, place, !kept)
}

// The annotation that begins at a place, read as the first of its line: no limit was broken before it.
pub fn read_at(line: &[u8], from: usize) -> Parts
    ensures { result ≡ parts_at line.now from }
{
    read_parts(0, rest(line, from), line.len(), None)
}

// One annotation more, which begins at a place and was read.
fn add(edition: Edition, t: Totals, line: &[u8], from: usize, p: Parts) -> Totals
    ensures { result ≡ added_by (edition_of edition) line.now t from p }
{
    let s = rest(line, from);
    let place = minus_or_zero(line.len(), s.len());
    let so_far = t.counts;
    let form = t.form;
    let breach = t.breach;
    let excess = t.excess;
    let m = measure(edition, s, p);
    let own = m.counts;
    let fault = m.fault;
    // The largest number where the sum would not fit.
    let sum = t.sum.saturating_add(m.share);
    Totals {
        counts: plus(so_far, own),
        free: t.free || m.free,
        sum,
        limit: fault,
        form: note(form, Why::SequenceForm, place, m.formed),
        breach: note(breach, Why::RuleBroken, place, m.kept),
        excess: note(excess, Why::ConfidencesExceedOne, place, sum <= ONE),
        at: advance(from, m.len, line.len()),
    }
}

// One annotation more, which begins behind a comma.
fn add_next(edition: Edition, t: Totals, line: &[u8]) -> Totals
    ensures { result ≡ add_next (edition_of edition) line.now t }
{
    let so_far = t.counts;
    let limit = t.limit;
    let from = advance(t.at, 1, line.len());
    let p = read_parts(so_far.annotations, rest(line, from), line.len(), limit);
    add(edition, t, line, from, p)
}

// The first annotation, which was read: there is nothing before it, so that no sum is needed.
fn add_first(edition: Edition, line: &[u8], p: Parts) -> Totals
    ensures { result ≡ added_by (edition_of edition) line.now nothing 0 p }
{
    let m = measure(edition, line, p);
    let own = m.counts;
    let fault = m.fault;
    Totals {
        counts: own,
        free: m.free,
        sum: m.share,
        limit: fault,
        form: note(None, Why::SequenceForm, 0, m.formed),
        breach: note(None, Why::RuleBroken, 0, m.kept),
        excess: note(None, Why::ConfidencesExceedOne, 0, m.share <= ONE),
        at: advance(0, m.len, line.len()),
    }
}

// All annotations of a line, of which the first was read, by the rules of an edition.
pub fn total(edition: Edition, line: &[u8], first: Parts) -> Totals
    ensures { result ≡ totals_by (edition_of edition) line.now first }
{
    let none = before_all();
    if line.len() < 1 {
        return none;
    }
    let mut t = add_first(edition, line, first);
    // No index is counted: a comma decides.
    while begins_with(rest(line, t.at), b',') {
        let more = add_next(edition, t, line);
        t = more;
    }
    t
}

// The first refusal by 4 to 7 or 11 of what was counted.
#[tactic(auto, unfolding(crate::specs::Refusals::first_of))]
pub fn first_refusal(t: Totals) -> Option<Refusal>
    ensures { result ≡ first_of t }
{
    t.limit.or(t.form).or(t.breach).or(t.excess)
}
