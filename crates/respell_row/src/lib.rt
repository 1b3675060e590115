// A row of a peak list in its preferred spelling. Document 02, M-101. No table and no stored row is made: a good column is the very text of
// its decimal, so that all before the third column is copied as it stands, and the line is spelled straight behind it.
#![tactic(auto)]

ghost use Rattle.std.specs.Prelude.{◌≡◌, ◌-◌, length};
ghost use Rattle.scan_line.specs.Steps.{scanned_by};
ghost use Rattle.faults.specs.Refusals.{number_of};
ghost use Rattle.answers.specs.Delivered.{answered};
ghost use Rattle.answers.specs.Behind.{Behind};
ghost use Rattle.lines.specs.Relabels.{relabelled_of};
ghost use Rattle.respell_row.specs.Relabelled.{place_of, refused_over, finished_over, third_of, columns_of, intensity_of, relabelled_row_of};

use answers::{plus, refuse};
use faults::{Refusal, Why};
use limits::{MAX_LINE, MAX_ROW};
use lines::relabel_by;
use put_bytes::{clear, put_run};
use read_row::read_column;
use slices::{advance, first_of, rest};
use write_row::end_bare;

// The place of a line's refusal in its row: moved by where the line begins. But a preferred line that is too long, of a line of n bytes
// that is not, is refused at its bound, as on writing.
fn place_in_row(line: Refusal, n: usize, at: usize) -> usize
    ensures { result ≡ place_of (number_of line.why) line.place n at }
{
    match line.why {
        Why::LineTooLong => {
            if n <= MAX_LINE {
                line.place
            } else {
                plus(at, line.place)
            }
        }
        _ => plus(at, line.place),
    }
}

// A preferred line, behind the first bytes of an output: it is not moved.
fn relabel_behind(machine: &[u8], line: &[u8], at: usize, out: &mut [u8]) -> Result<usize, Refusal>
    ensures { Behind at out.old out.new (relabelled_of (scanned_by machine.now line.now) line.now (length out.old - at)) result }
{
    let from = advance(0, at, out.len());
    relabel_by(machine, line, &mut out[from..])
}

// A row whose line, of n bytes, is refused and begins at a place: from there on the output is cleared already.
fn refuse_line(line: Refusal, n: usize, at: usize, out: &mut [u8]) -> Result<usize, Refusal>
    ensures { answered result out.new ≡ refused_over out.old at n line }
{
    let to = advance(0, at, out.len());
    clear(&mut out[..to]);
    refuse(line.why, place_in_row(line, n, at))
}

// A row by the answer to its line, of n bytes, which begins at a place and stands there in its preferred spelling.
fn finish_line(
    line: Result<usize, Refusal>,
    n: usize,
    at: usize,
    out: &mut [u8],
) -> Result<usize, Refusal>
    ensures { answered result out.new ≡ finished_over out.old at n line }
{
    match line {
        Ok(len) => {
            let size = plus(at, len);
            if out.len() < size {
                clear(out);
                return refuse(Why::OutputTooShort, size);
            }
            Ok(size)
        }
        Err(line) => refuse_line(line, n, at, out),
    }
}

// A row whose third column begins at a place, with what stands before it.
fn relabel_third(machine: &[u8], row: &[u8], at: usize, out: &mut [u8]) -> Result<usize, Refusal>
    ensures { answered result out.new ≡ third_of machine.now row.now at (length out.old) }
{
    let third = rest(row, at);
    let to = put_run(out, 0, first_of(row, at));
    let line = relabel_behind(machine, third, to, out);
    finish_line(line, third.len(), to, out)
}

// A row with both numbers, of which the second ends at a place, and whose third column begins at another: an empty one is not written.
fn relabel_columns(
    machine: &[u8],
    row: &[u8],
    end: usize,
    at: usize,
    out: &mut [u8],
) -> Result<usize, Refusal>
    ensures { answered result out.new ≡ columns_of machine.now row.now end at (length out.old) }
{
    if row.len() <= at {
        let to = put_run(out, 0, first_of(row, end));
        return end_bare(to, out);
    }
    relabel_third(machine, row, at, out)
}

// A row of which m/z was read, and whose intensity begins at a place.
fn relabel_intensity(
    machine: &[u8],
    row: &[u8],
    at: usize,
    out: &mut [u8],
) -> Result<usize, Refusal>
    ensures { answered result out.new ≡ intensity_of machine.now row.now at (length out.old) }
{
    let Ok(intensity) = read_column(rest(row, at)) else {
        clear(out);
        return refuse(Why::BadIntensity, at);
    };
    let end = advance(at, intensity.len, row.len());
    let to = advance(at, intensity.next, row.len());
    relabel_columns(machine, row, end, to, out)
}

// The preferred spelling of a row, by a lent machine: whoever has many rows makes the machine once.
pub fn relabel_row_by(machine: &[u8], row: &[u8], out: &mut [u8]) -> Result<usize, Refusal>
    ensures { answered result out.new ≡ relabelled_row_of machine.now row.now (length out.old) }
{
    if MAX_ROW < row.len() {
        clear(out);
        return refuse(Why::LineTooLong, MAX_ROW);
    }
    let Ok(mz) = read_column(row) else {
        clear(out);
        return refuse(Why::BadMz, 0);
    };
    relabel_intensity(machine, row, mz.next, out)
}
