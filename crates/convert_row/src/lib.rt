// A stored row of a peak list whose table is of edition 1, converted to edition 2. Document 02, M-112: converting tests 9; then what reading the row's line tests behind
// the limits: 11, 6, 8.
#![tactic(auto)]

ghost use Rattle.std.specs.Prelude.{◌≡◌, ◌-◌, eqb, length};
ghost use Rattle.rules.specs.Rows.{row_head_size};
ghost use Rattle.answers.specs.Delivered.{number_in, answered};
ghost use Rattle.answers.specs.Behind.{Behind};
ghost use Rattle.write_table.specs.Writings.{converted_of};
ghost use Rattle.convert_row.specs.Conversions.{third_place, convert_row_of};

use answers::{plus, refuse};
use faults::{Refusal, Why};
use layout::ROW_HEAD_SIZE;
use numbers::Decimal;
use put_bytes::clear;
use read_row::end_row;
use slices::{advance, rest};
use write_row::{put_columns, read_head};
use write_table::convert_by;

// Bytes that suffice for m/z, a tab and intensity.
const COLUMNS: usize = 32;

// Where the third column begins in the preferred spelling of a row: the columns are put for their length alone.
fn third_at(mz: Decimal, intensity: Decimal) -> usize
    ensures { result ≡ third_place mz intensity }
{
    let mut columns = [0u8; COLUMNS];
    plus(put_columns(&mut columns, mz, intensity), 1)
}

// A table, converted into what stands behind the head: it is not moved.
fn convert_behind(machine: &[u8], table: &[u8], out: &mut [u8]) -> Result<usize, Refusal>
    ensures { Behind row_head_size out.old out.new (converted_of machine.now table.now (length out.old - row_head_size)) result }
{
    let from = advance(0, ROW_HEAD_SIZE, out.len());
    convert_by(machine, table, &mut out[from..])
}

// Whether an answer says that the bytes are no table.
fn is_no_table(table: Result<usize, Refusal>) -> bool
    ensures { result ≡ eqb (number_in table) 9 }
{
    match table {
        Ok(_) => false,
        Err(refusal) => refusal.why.number() == Why::NoTable.number(),
    }
}

// A stored row by a lent machine. That its table is none is no refusal of its line, and has no place in it.
pub fn convert_row_by(machine: &[u8], stored: &[u8], out: &mut [u8]) -> Result<usize, Refusal>
    ensures { answered result out.new ≡ convert_row_of machine.now stored.now (length out.old) }
{
    let Ok(head) = read_head(stored) else {
        clear(out);
        return refuse(Why::NoTable, 0);
    };
    let table = convert_behind(machine, rest(stored, ROW_HEAD_SIZE), out);
    if is_no_table(table) {
        clear(out);
        return refuse(Why::NoTable, 0);
    }
    let at = third_at(head.mz, head.intensity);
    end_row(table, at, head.mz, head.intensity, out)
}
