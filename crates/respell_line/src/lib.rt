// A line that has a shape, in its preferred spelling, from its own bytes: copied where nothing in it may be written in two ways, else
// spelled anew annotation by annotation. Document 01, "Preferred spelling".
#![tactic(auto)]

ghost use Rattle.std.specs.Prelude.{◌≡◌, length};
ghost use Rattle.put_bytes.specs.Puts.{Put};
ghost use Rattle.answers.specs.Delivered.{answered};
ghost use Rattle.respell_line.specs.Plain.{is_plain, line_spelled, spelling_of};
ghost use Rattle.respell_line.specs.Relabelled.{relabelled_over};

use answers::close_line;
use counts::Counts;
use faults::Refusal;
use layout::Edition;
use measure_line::{Totals, first_refusal, read_at, total};
use put_bytes::{clear, put_run, put8};
use read_annotation::Parts;
use respell_annotation::spell_annotation;
use slices::{advance, begins_with, rest};

// Whether no losses, isotopes, adduct items and units were counted, and no confidence lacks its 0: nothing else may be written in two
// ways, so such a line is the preferred one.
fn is_plain(n: Counts, free: bool) -> bool
    ensures { result ≡ is_plain n free }
{
    !free && n.losses == 0 && n.isotopes == 0 && n.items == 0 && n.units == 0
}

// All annotations of a line, of which the first was read; the place behind them.
fn spell_line(out: &mut [u8], line: &[u8], first: Parts) -> usize
    ensures { Put out.old 0 (line_spelled line.now first) out.new result }
{
    if line.is_empty() {
        return 0;
    }
    let x = spell_annotation(out, 0, line, first);
    let mut to = x.to;
    let mut at = advance(0, x.len, line.len());
    // No index is counted: a comma decides.
    while begins_with(rest(line, at), b',') {
        let from = advance(at, 1, line.len());
        let p = read_at(line, from);
        let begin = put8(out, to, b',');
        let y = spell_annotation(out, begin, rest(line, from), p);
        to = y.to;
        at = advance(from, y.len, line.len());
    }
    to
}

// A line of which t was counted, and the first annotation read: the line itself where it has one spelling, as most lines have.
fn put_spelling(out: &mut [u8], line: &[u8], t: Totals, first: Parts) -> usize
    ensures { Put out.old 0 (spelling_of line.now t first) out.new result }
{
    let n = t.counts;
    if is_plain(n, t.free) {
        put_run(out, 0, line)
    } else {
        spell_line(out, line, first)
    }
}

// A line with a shape: its refusal, or its preferred spelling.
pub fn relabel_spelled(line: &[u8], out: &mut [u8]) -> Result<usize, Refusal>
    ensures { answered result out.new ≡ relabelled_over line.now (length out.old) }
{
    let first = read_at(line, 0);
    let t = total(Edition::Second, line, first);
    if let Some(refusal) = first_refusal(t) {
        clear(out);
        return Err(refusal);
    }
    let n = put_spelling(out, line, t, first);
    close_line(out, n)
}
