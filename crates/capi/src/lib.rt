// The calls from C. Document 02, M-108 and M-113: lines are those of the first edition, and by a lent machine those of the edition that it was
// prepared for. The crate capi_c hands them to C; include/mzpaf.h says the same to a C programmer.
#![tactic(auto)]

ghost use Rattle.std.specs.Prelude.{◌≡◌, length};
ghost use Rattle.rules.specs.Answers.{Reads, Writes, Converts};
ghost use Rattle.rules.specs.RowAnswers.{ReadsRow, WritesRow, ConvertsRow};
ghost use Rattle.rules.specs.Editions.{first_lines};
ghost use Rattle.scan_line.specs.Lines.{lines_in};
ghost use Rattle.scan_line.specs.Steps.{scanned_by};
ghost use Rattle.read_line.specs.Readings.{read_of};
ghost use Rattle.write_table.specs.Writings.{written_of, converted_of};
ghost use Rattle.lines.specs.Relabels.{Relabels, relabelled_of};
ghost use Rattle.read_row.specs.Readings.{read_row_of};
ghost use Rattle.write_row.specs.Writings.{write_row_of};
ghost use Rattle.convert_row.specs.Conversions.{convert_row_of};
ghost use Rattle.respell_row.specs.Relabelled.{relabelled_row_of};
ghost use Rattle.rows.specs.Relabels.{RelabelsRow};
ghost use Rattle.pack_answer.specs.Handed.{handed, handed_of, Hands};
ghost use Rattle.capi.specs.Prepared.{prepared, put_of, prepared_of};

use convert_row::convert_row_by;
use lines::{convert, read, relabel_by, relabel_line, write};
use pack_answer::hand_over;
use put_bytes::{clear, put_run};
use read_line::read_by;
use read_row::read_row_by;
use respell_row::relabel_row_by;
use rows::{convert_row, read_row, relabel_row, write_row};
use scan_line;
use scan_line::Lines;
use write_row::write_row_by;
use write_table::{convert_by, write_by};

// ---- lines and tables

// The table that a line spells.
pub fn mzpaf_read(line: &[u8], out: &mut [u8], answer: &mut [u8]) -> u16
    ensures { Hands (Reads first_lines line.now (length out.old)) (length out.old) (length answer.old) (handed result out.new answer.new) }
{
    let a = read(line, out);
    hand_over(a, out, answer)
}

// The preferred line of a stored table.
pub fn mzpaf_write(table: &[u8], out: &mut [u8], answer: &mut [u8]) -> u16
    ensures { Hands (Writes first_lines table.now (length out.old)) (length out.old) (length answer.old) (handed result out.new answer.new) }
{
    let a = write(table, out);
    hand_over(a, out, answer)
}

// The table of edition 2 of the line that a stored table of edition 1 has. Document 02, M-112.
pub fn mzpaf_convert(table: &[u8], out: &mut [u8], answer: &mut [u8]) -> u16
    ensures { Hands (Converts table.now (length out.old)) (length out.old) (length answer.old) (handed result out.new answer.new) }
{
    let a = convert(table, out);
    hand_over(a, out, answer)
}

// The preferred spelling of a line.
pub fn mzpaf_relabel(line: &[u8], out: &mut [u8], answer: &mut [u8]) -> u16
    ensures { Hands (Relabels first_lines line.now (length out.old)) (length out.old) (length answer.old) (handed result out.new answer.new) }
{
    let a = relabel_line(line, out);
    hand_over(a, out, answer)
}

// ---- rows of a peak list

// The stored row that a row spells.
pub fn mzpaf_read_row(row: &[u8], out: &mut [u8], answer: &mut [u8]) -> u16
    ensures { Hands (ReadsRow first_lines row.now (length out.old)) (length out.old) (length answer.old) (handed result out.new answer.new) }
{
    let a = read_row(row, out);
    hand_over(a, out, answer)
}

// The preferred row of a stored row.
pub fn mzpaf_write_row(stored: &[u8], out: &mut [u8], answer: &mut [u8]) -> u16
    ensures { Hands (WritesRow first_lines stored.now (length out.old)) (length out.old) (length answer.old) (handed result out.new answer.new) }
{
    let a = write_row(stored, out);
    hand_over(a, out, answer)
}

// The stored row whose table is of edition 2, of a stored row whose table is of edition 1.
pub fn mzpaf_convert_row(stored: &[u8], out: &mut [u8], answer: &mut [u8]) -> u16
    ensures { Hands (ConvertsRow stored.now (length out.old)) (length out.old) (length answer.old) (handed result out.new answer.new) }
{
    let a = convert_row(stored, out);
    hand_over(a, out, answer)
}

// The preferred spelling of a row.
pub fn mzpaf_relabel_row(row: &[u8], out: &mut [u8], answer: &mut [u8]) -> u16
    ensures { Hands (RelabelsRow first_lines row.now (length out.old)) (length out.old) (length answer.old) (handed result out.new answer.new) }
{
    let a = relabel_row(row, out);
    hand_over(a, out, answer)
}

// ---- by a lent machine: whoever has many lines, or lines of the second edition, prepares it once

// The machine of an edition of lines, 1 or 2, put into a buffer. Any other number is 9; then 8 where the buffer is too short. Document 02, M-113.
pub fn mzpaf_prepare(lines: u16, machine: &mut [u8]) -> u16
    ensures { prepared result machine.new ≡ prepared_of lines (length machine.old) }
{
    if lines == 1 {
        return put_machine(Lines::First, machine);
    }
    if lines == 2 {
        return put_machine(Lines::Second, machine);
    }
    clear(machine);
    9
}

// 8 and zeros, or 0 and the machine.
fn put_machine(lines: Lines, machine: &mut [u8]) -> u16
    ensures { prepared result machine.new ≡ put_of (lines_in lines) (length machine.old) }
{
    clear(machine);
    let made = scan_line::machine(lines);
    if machine.len() < made.len() {
        return 8;
    }
    put_run(machine, 0, &made);
    0
}

pub fn mzpaf_read_with(machine: &[u8], line: &[u8], out: &mut [u8], answer: &mut [u8]) -> u16
    ensures { handed result out.new answer.new ≡ handed_of (length out.old) (read_of (scanned_by machine.now line.now) line.now (length out.old)) (length answer.old) }
{
    let a = read_by(machine, line, out);
    hand_over(a, out, answer)
}

pub fn mzpaf_write_with(machine: &[u8], table: &[u8], out: &mut [u8], answer: &mut [u8]) -> u16
    ensures { handed result out.new answer.new ≡ handed_of (length out.old) (written_of machine.now table.now (length out.old)) (length answer.old) }
{
    let a = write_by(machine, table, out);
    hand_over(a, out, answer)
}

pub fn mzpaf_convert_with(machine: &[u8], table: &[u8], out: &mut [u8], answer: &mut [u8]) -> u16
    ensures { handed result out.new answer.new ≡ handed_of (length out.old) (converted_of machine.now table.now (length out.old)) (length answer.old) }
{
    let a = convert_by(machine, table, out);
    hand_over(a, out, answer)
}

pub fn mzpaf_relabel_with(machine: &[u8], line: &[u8], out: &mut [u8], answer: &mut [u8]) -> u16
    ensures { handed result out.new answer.new ≡ handed_of (length out.old) (relabelled_of (scanned_by machine.now line.now) line.now (length out.old)) (length answer.old) }
{
    let a = relabel_by(machine, line, out);
    hand_over(a, out, answer)
}

pub fn mzpaf_read_row_with(machine: &[u8], row: &[u8], out: &mut [u8], answer: &mut [u8]) -> u16
    ensures { handed result out.new answer.new ≡ handed_of (length out.old) (read_row_of machine.now row.now (length out.old)) (length answer.old) }
{
    let a = read_row_by(machine, row, out);
    hand_over(a, out, answer)
}

pub fn mzpaf_write_row_with(machine: &[u8], stored: &[u8], out: &mut [u8], answer: &mut [u8]) -> u16
    ensures { handed result out.new answer.new ≡ handed_of (length out.old) (write_row_of machine.now stored.now (length out.old)) (length answer.old) }
{
    let a = write_row_by(machine, stored, out);
    hand_over(a, out, answer)
}

pub fn mzpaf_convert_row_with(
    machine: &[u8],
    stored: &[u8],
    out: &mut [u8],
    answer: &mut [u8],
) -> u16
    ensures { handed result out.new answer.new ≡ handed_of (length out.old) (convert_row_of machine.now stored.now (length out.old)) (length answer.old) }
{
    let a = convert_row_by(machine, stored, out);
    hand_over(a, out, answer)
}

pub fn mzpaf_relabel_row_with(machine: &[u8], row: &[u8], out: &mut [u8], answer: &mut [u8]) -> u16
    ensures { handed result out.new answer.new ≡ handed_of (length out.old) (relabelled_row_of machine.now row.now (length out.old)) (length answer.old) }
{
    let a = relabel_row_by(machine, row, out);
    hand_over(a, out, answer)
}
