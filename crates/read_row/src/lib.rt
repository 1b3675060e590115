// A row of a peak list, read. Document 02, M-101: m/z, a tab, intensity, and perhaps a tab and an annotation line.
#![tactic(auto)]

ghost use Rattle.std.specs.Prelude.{◌≡◌, ◌-◌, length};
ghost use Rattle.rules.specs.Rows.{row_head_size};
ghost use Rattle.scan_line.specs.Steps.{scanned_by};
ghost use Rattle.put_bytes.specs.Puts.{Put};
ghost use Rattle.answers.specs.Delivered.{answered};
ghost use Rattle.answers.specs.Behind.{Behind};
ghost use Rattle.read_line.specs.Readings.{read_of};
ghost use Rattle.read_row.specs.Columns.{begins_decimal, ends_column, is_column, column_of};
ghost use Rattle.read_row.specs.Readings.{head_bytes, ended_over, third_of, intensity_of, read_row_of};

use answers::{plus, refuse};
use faults::{Refusal, Why};
use layout::ROW_HEAD_SIZE;
use limits::MAX_ROW;
use numbers::{Decimal, DecimalRead, FirstByte, read_decimal};
use put_bytes::{clear, put_le};
use read_line::read_by;
use slices::{advance, begins_in, begins_with, rest};

// A column as it was read: its decimal, how many bytes that has, and where what stands behind its tab begins.
#[derive(Clone, Copy)]
pub struct Column {
    pub decimal: Decimal,
    pub len: usize,
    pub next: usize,
}

// ---- columns

// Whether a part begins as decimals do: with a digit, and with no 0 before another.
#[tactic(auto, unfolding(crate::specs::Columns::begins_decimal))]
fn begins_decimal(s: &[u8]) -> bool
    ensures { result ≡ begins_decimal s.now }
{
    begins_in(s, b'1', b'9') || begins_with(s, b'0') && !begins_in(rest(s, 1), b'0', b'9')
}

// Whether a column that goes up to here ends here.
#[tactic(auto, unfolding(crate::specs::Columns::ends_column))]
fn ends_column(s: &[u8]) -> bool
    ensures { result ≡ ends_column s.now }
{
    matches!(s.first(), None | Some(b'\t'))
}

// Whether a decimal that was read is a column.
#[tactic(auto, unfolding(crate::specs::Columns::is_column))]
fn is_column(s: &[u8], d: DecimalRead) -> bool
    ensures { result ≡ is_column s.now d }
{
    begins_decimal(s) && d.made.is_some() && ends_column(rest(s, d.len))
}

// The column that a part begins with. Where it begins with no decimal within its bounds, or with more behind it, the column is bad, and Err
// tells what was read of it, as Ok does of a good one: the decimal, 0 where that is past its bounds, how many bytes it has, and where the
// next column would begin.
#[tactic(auto, unfolding(crate::specs::Columns::good_column, crate::specs::Columns::column_in))]
pub fn read_column(s: &[u8]) -> Result<Column, Column>
    ensures { result ≡ column_of s.now }
{
    let d = read_decimal(s, FirstByte::Digit);
    let column = Column {
        decimal: d.made.unwrap_or(Decimal::zero()),
        len: d.len,
        next: advance(d.len, 1, s.len()),
    };
    if is_column(s, d) {
        Ok(column)
    } else {
        Err(column)
    }
}

// ---- reading

// A line, read into what stands behind the head: its table is not moved.
fn read_behind(machine: &[u8], line: &[u8], out: &mut [u8]) -> Result<usize, Refusal>
    ensures { Behind row_head_size out.old out.new (read_of (scanned_by machine.now line.now) line.now (length out.old - row_head_size)) result }
{
    let from = advance(0, ROW_HEAD_SIZE, out.len());
    read_by(machine, line, &mut out[from..])
}

// The head of a stored row.
fn put_head(out: &mut [u8], mz: Decimal, intensity: Decimal) -> usize
    ensures { Put out.old 0 (head_bytes mz intensity) out.new result }
{
    let second = put_le(out, 0, mz.value(), 8);
    let places = put_le(out, second, intensity.value(), 8);
    let more = put_le(out, places, mz.places() as u64, 1);
    let zero = put_le(out, more, intensity.places() as u64, 1);
    put_le(out, zero, 0, 2)
}

// A row with both numbers, by the answer to its line, which begins at a place. The table of the line stands where it is to be, behind the head.
pub fn end_row(
    line: Result<usize, Refusal>,
    at: usize,
    mz: Decimal,
    intensity: Decimal,
    out: &mut [u8],
) -> Result<usize, Refusal>
    ensures { answered result out.new ≡ ended_over out.old (head_bytes mz intensity) at line }
{
    match line {
        Ok(len) => {
            let size = plus(ROW_HEAD_SIZE, len);
            if out.len() < size {
                clear(out);
                return refuse(Why::OutputTooShort, size);
            }
            put_head(out, mz, intensity);
            Ok(size)
        }
        Err(line) => {
            clear(out);
            match line.why {
                Why::OutputTooShort => refuse(line.why, plus(ROW_HEAD_SIZE, line.place)),
                _ => refuse(line.why, plus(at, line.place)),
            }
        }
    }
}

// A row of which both numbers were read, and whose third column begins at a place.
fn read_third(
    machine: &[u8],
    third: &[u8],
    at: usize,
    mz: Decimal,
    intensity: Decimal,
    out: &mut [u8],
) -> Result<usize, Refusal>
    ensures { answered result out.new ≡ third_of machine.now mz intensity third.now at (length out.old) }
{
    let line = read_behind(machine, third, out);
    end_row(line, at, mz, intensity, out)
}

// A row of which m/z was read, and whose intensity begins at a place.
fn read_intensity(
    machine: &[u8],
    row: &[u8],
    at: usize,
    mz: Decimal,
    out: &mut [u8],
) -> Result<usize, Refusal>
    ensures { answered result out.new ≡ intensity_of machine.now row.now at mz (length out.old) }
{
    let Ok(intensity) = read_column(rest(row, at)) else {
        clear(out);
        return refuse(Why::BadIntensity, at);
    };
    let to = advance(at, intensity.next, row.len());
    read_third(machine, rest(row, to), to, mz, intensity.decimal, out)
}

// A row by a lent machine: whoever has many rows makes the machine once.
pub fn read_row_by(machine: &[u8], row: &[u8], out: &mut [u8]) -> Result<usize, Refusal>
    ensures { answered result out.new ≡ read_row_of machine.now row.now (length out.old) }
{
    if MAX_ROW < row.len() {
        clear(out);
        return refuse(Why::LineTooLong, MAX_ROW);
    }
    let Ok(mz) = read_column(row) else {
        clear(out);
        return refuse(Why::BadMz, 0);
    };
    read_intensity(machine, row, mz.next, mz.decimal, out)
}
