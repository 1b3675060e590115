// Rows of a peak list: read, written, converted, spelled anew, and handed out of a list. Document 02, M-101, M-112 and M-113. Every row is answered alone.
#![tactic(auto)]

ghost use Rattle.std.specs.Prelude.{◌≡◌, length};
ghost use Rattle.rules.specs.RowAnswers.{ReadsRow, WritesRow, ConvertsRow};
ghost use Rattle.rules.specs.Editions.{first_lines};
ghost use Rattle.scan_line.specs.Lines.{lines_in};
ghost use Rattle.answers.specs.Delivered.{answered};
ghost use Rattle.rows.specs.Relabels.{RelabelsRow};
ghost use Rattle.rows.specs.Walks.{next_row_of};

use convert_row::convert_row_by;
use faults::Refusal;
use io_parts::line_end;
use read_row::read_row_by;
use respell_row::relabel_row_by;
use scan_line::{Lines, machine};
use slices::{advance, rest};
use write_row::write_row_by;

// A row of a list: how many bytes it has, and where the next one begins.
#[derive(Clone, Copy)]
pub struct Row {
    pub len: usize,
    pub next: usize,
}

// The stored row that a row spells, by lines of an edition, or why there is none.
pub fn read_row_in(lines: Lines, row: &[u8], out: &mut [u8]) -> Result<usize, Refusal>
    ensures { ReadsRow (lines_in lines) row.now (length out.old) (answered result out.new) }
{
    let made = machine(lines);
    read_row_by(&made, row, out)
}

// By lines of the first edition.
pub fn read_row(row: &[u8], out: &mut [u8]) -> Result<usize, Refusal>
    ensures { ReadsRow first_lines row.now (length out.old) (answered result out.new) }
{
    read_row_in(Lines::First, row, out)
}

// The preferred row, by lines of an edition, of a stored row, or why there is none.
pub fn write_row_in(lines: Lines, stored: &[u8], out: &mut [u8]) -> Result<usize, Refusal>
    ensures { WritesRow (lines_in lines) stored.now (length out.old) (answered result out.new) }
{
    let made = machine(lines);
    write_row_by(&made, stored, out)
}

// By lines of the first edition.
pub fn write_row(stored: &[u8], out: &mut [u8]) -> Result<usize, Refusal>
    ensures { WritesRow first_lines stored.now (length out.old) (answered result out.new) }
{
    write_row_in(Lines::First, stored, out)
}

// The stored row whose table is that of edition 2 for the line of a stored row's table of edition 1, or why there is none.
pub fn convert_row(stored: &[u8], out: &mut [u8]) -> Result<usize, Refusal>
    ensures { ConvertsRow stored.now (length out.old) (answered result out.new) }
{
    let made = machine(Lines::First);
    convert_row_by(&made, stored, out)
}

// The preferred spelling of a row, by lines of an edition, or why there is none.
pub fn relabel_row_in(lines: Lines, row: &[u8], out: &mut [u8]) -> Result<usize, Refusal>
    ensures { RelabelsRow (lines_in lines) row.now (length out.old) (answered result out.new) }
{
    let made = machine(lines);
    relabel_row_by(&made, row, out)
}

// By lines of the first edition.
pub fn relabel_row(row: &[u8], out: &mut [u8]) -> Result<usize, Refusal>
    ensures { RelabelsRow first_lines row.now (length out.old) (answered result out.new) }
{
    relabel_row_in(Lines::First, row, out)
}

// The row of a list that begins at a place; none at the list's end. The list is walked row by row, and nothing is copied.
#[tactic(auto, unfolding(crate::specs::Walks::next_row_of))]
pub fn next_row(list: &[u8], at: usize) -> Option<Row>
    ensures { result ≡ next_row_of list.now at }
{
    if list.len() <= at {
        return None;
    }
    let len = line_end(rest(list, at));
    let end = advance(at, len, list.len());
    Some(Row {
        len,
        next: advance(end, 1, list.len()),
    })
}
