// Lines and tables: the reader, the writer, the conversion of old tables, and the preferred spelling of a line. Document 01, "Numbers of refusal", and document 02, M-112.
#![tactic(auto)]

ghost use Rattle.std.specs.Prelude.{◌≡◌, length};
ghost use Rattle.rules.specs.Answers.{Reads, Writes, Converts};
ghost use Rattle.rules.specs.Editions.{first_lines};
ghost use Rattle.scan_line.specs.Lines.{lines_in};
ghost use Rattle.scan_line.specs.Steps.{scanned_by};
ghost use Rattle.answers.specs.Delivered.{answered};
ghost use Rattle.lines.specs.Relabels.{Relabels, relabelled_of};

use answers::refuse;
use faults::{Refusal, Why};
use limits::MAX_LINE;
use put_bytes::clear;
use read_line::read_by;
use respell_line::relabel_spelled;
use scan_line::{Lines, Verdict, machine, scan_by};
use write_table::{convert_by, write_by};

// The table that a line of an edition spells, or why there is none.
pub fn read_in(lines: Lines, line: &[u8], out: &mut [u8]) -> Result<usize, Refusal>
    ensures { Reads (lines_in lines) line.now (length out.old) (answered result out.new) }
{
    let made = machine(lines);
    read_by(&made, line, out)
}

// Of the first edition.
pub fn read(line: &[u8], out: &mut [u8]) -> Result<usize, Refusal>
    ensures { Reads first_lines line.now (length out.old) (answered result out.new) }
{
    read_in(Lines::First, line, out)
}

// The preferred line, of an edition, of a stored table, or why there is none.
pub fn write_in(lines: Lines, table: &[u8], out: &mut [u8]) -> Result<usize, Refusal>
    ensures { Writes (lines_in lines) table.now (length out.old) (answered result out.new) }
{
    let made = machine(lines);
    write_by(&made, table, out)
}

// Of the first edition.
pub fn write(table: &[u8], out: &mut [u8]) -> Result<usize, Refusal>
    ensures { Writes first_lines table.now (length out.old) (answered result out.new) }
{
    write_in(Lines::First, table, out)
}

// The table of edition 2 of the line that a stored table of edition 1 has, or why there is none.
pub fn convert(table: &[u8], out: &mut [u8]) -> Result<usize, Refusal>
    ensures { Converts table.now (length out.old) (answered result out.new) }
{
    let made = machine(Lines::First);
    convert_by(&made, table, out)
}

// The preferred spelling of a line, by a lent machine: whoever has many lines makes the machine once. It is spelled from the line itself;
// that this is what the writer gives for the table that the reader would give is proved, so that no table need be made.
pub fn relabel_by(machine: &[u8], line: &[u8], out: &mut [u8]) -> Result<usize, Refusal>
    ensures { answered result out.new ≡ relabelled_of (scanned_by machine.now line.now) line.now (length out.old) }
{
    if MAX_LINE < line.len() {
        clear(out);
        return refuse(Why::LineTooLong, MAX_LINE);
    }
    match scan_by(machine, line) {
        Verdict::Fine => relabel_spelled(line, out),
        Verdict::Short => {
            clear(out);
            refuse(Why::Unfinished, line.len())
        }
        Verdict::Stray(place) => {
            clear(out);
            refuse(Why::StrayByte, place)
        }
    }
}

// The preferred spelling of a line of an edition, or why there is none.
pub fn relabel_in(lines: Lines, line: &[u8], out: &mut [u8]) -> Result<usize, Refusal>
    ensures { Relabels (lines_in lines) line.now (length out.old) (answered result out.new) }
{
    let made = machine(lines);
    relabel_by(&made, line, out)
}

// Of the first edition.
pub fn relabel_line(line: &[u8], out: &mut [u8]) -> Result<usize, Refusal>
    ensures { Relabels first_lines line.now (length out.old) (answered result out.new) }
{
    relabel_in(Lines::First, line, out)
}
