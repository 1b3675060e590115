// A line read: measured, then stored. Document 01, "Numbers of refusal": reading tests 1; then 2 or 3; then 4 and 5; then 11 (document 02, M-105); 6; 7; 8.
// What was read of the first annotation is handed on from measuring to storing: most lines have no other.
#![tactic(auto)]

ghost use Rattle.std.specs.Prelude.{◌≡◌, length};
ghost use Rattle.layout.specs.Editions.{edition_of};
ghost use Rattle.answers.specs.Delivered.{answered};
ghost use Rattle.scan_line.specs.Steps.{scanned_by};
ghost use Rattle.read_line.specs.Stores.{StoresNext, StoresLine};
ghost use Rattle.read_line.specs.Readings.{ReadsSpelled, spelled_over, keeps_all, any_over, read_of};
ghost use Rattle.rules.specs.Largest.{max_any_table};
ghost use Rattle.read_line.specs.Back.{reads_to, few, zeros};

use answers::refuse;
use faults::{Refusal, Why};
use layout::Edition;
use limits::{MAX_ANY_TABLE, MAX_LINE};
use measure_line::{first_refusal, read_at, total};
use put_bytes::clear;
use read_annotation::Parts;
use scan_line::{Verdict, scan_by};
use slices::{advance, begins_with, first_of, rest};
use store_annotation::store;
use store_sections::{Cursors, put_header, size_of};

// Bytes that suffice for most tables.
pub const FEW: usize = 1024;

// How far storing has come.
#[derive(Drop)]
pub struct StoredTo {
    pub at: usize,
    pub cursors: Cursors,
}

// ---- storing

// The annotation that begins at a place and was read.
fn store_next(
    out: &mut [u8],
    c: Cursors,
    edition: Edition,
    line: &[u8],
    from: usize,
    p: Parts,
) -> StoredTo
    ensures { StoresNext (edition_of edition) line.now from p out.old c out.new result }
{
    let x = store(out, c, edition, rest(line, from), p);
    let cursors = x.cursors;
    StoredTo {
        at: advance(from, x.len, line.len()),
        cursors,
    }
}

// All annotations of a line, of which the first was read.
fn store_all(out: &mut [u8], c: Cursors, edition: Edition, line: &[u8], first: Parts)
    ensures { StoresLine (edition_of edition) line.now first out.old c out.new }
{
    if line.len() < 1 {
        return;
    }
    let mut t = store_next(out, c, edition, line, 0, first);
    // No index is counted: a comma decides.
    while begins_with(rest(line, t.at), b',') {
        let here = t.cursors;
        let from = advance(t.at, 1, line.len());
        let p = read_at(line, from);
        let more = store_next(out, here, edition, line, from, p);
        t = more;
    }
}

// ---- reading

// A line with a shape, into a cleared output, as a table of an edition.
fn read_spelled(edition: Edition, line: &[u8], out: &mut [u8]) -> Result<usize, Refusal>
    ensures { ReadsSpelled (edition_of edition) line.now out.old out.new result }
{
    let first = read_at(line, 0);
    let t = total(edition, line, first);
    if let Some(refusal) = first_refusal(t) {
        return Err(refusal);
    }
    let n = t.counts;
    let size = size_of(edition, n);
    if out.len() < size {
        return refuse(Why::OutputTooShort, size);
    }
    let c = put_header(out, edition, n);
    store_all(out, c, edition, line, first);
    Ok(size)
}

// A line with a shape, of any length, as a table of an edition.
pub fn read_shaped(edition: Edition, line: &[u8], out: &mut [u8]) -> Result<usize, Refusal>
    ensures { answered result out.new ≡ spelled_over (edition_of edition) (zeros (length out.old)) line.now }
{
    clear(out);
    read_spelled(edition, line, out)
}

// Whether a line with a shape keeps the limits, and the form and rules of an edition.
pub fn keeps_all(edition: Edition, line: &[u8]) -> bool
    ensures { result ≡ keeps_all (edition_of edition) line.now }
{
    let t = total(edition, line, read_at(line, 0));
    first_refusal(t).is_none()
}

// A line of any length, by a lent machine, into a cleared output.
fn read_any(machine: &[u8], edition: Edition, line: &[u8], out: &mut [u8]) -> Result<usize, Refusal>
    ensures { answered result out.new ≡ any_over (edition_of edition) out.old (scanned_by machine.now line.now) line.now }
{
    match scan_by(machine, line) {
        Verdict::Fine => read_spelled(edition, line, out),
        Verdict::Short => refuse(Why::Unfinished, line.len()),
        Verdict::Stray(place) => refuse(Why::StrayByte, place),
    }
}

// A line by a lent machine: whoever has many lines makes the machine once.
pub fn read_by(machine: &[u8], line: &[u8], out: &mut [u8]) -> Result<usize, Refusal>
    ensures { answered result out.new ≡ read_of (scanned_by machine.now line.now) line.now (length out.old) }
{
    clear(out);
    if MAX_LINE < line.len() {
        return refuse(Why::LineTooLong, MAX_LINE);
    }
    read_any(machine, Edition::Second, line, out)
}

// ---- reading back

// Whether a line of any length reads to a table of an edition; `scratch` is cleared.
fn reads_into(
    machine: &[u8],
    edition: Edition,
    line: &[u8],
    table: &[u8],
    scratch: &mut [u8],
) -> bool
    ensures { result ≡ reads_to (edition_of edition) (scanned_by machine.now line.now) scratch.old line.now table.now }
{
    match read_any(machine, edition, line, scratch) {
        Ok(n) => first_of(scratch, n) == table,
        Err(_) => false,
    }
}

// Whether a line of any length reads to a table of few bytes: clearing more costs more than reading most lines.
pub fn reads_to_few(machine: &[u8], edition: Edition, line: &[u8], table: &[u8]) -> bool
    ensures { result ≡ reads_to (edition_of edition) (scanned_by machine.now line.now) (zeros few) line.now table.now }
{
    let mut scratch = [0u8; FEW];
    reads_into(machine, edition, line, table, &mut scratch)
}

// Whether a line of any length reads to a table.
pub fn reads_to(machine: &[u8], edition: Edition, line: &[u8], table: &[u8]) -> bool
    ensures { result ≡ reads_to (edition_of edition) (scanned_by machine.now line.now) (zeros max_any_table) line.now table.now }
{
    let mut scratch = [0u8; MAX_ANY_TABLE];
    reads_into(machine, edition, line, table, &mut scratch)
}
