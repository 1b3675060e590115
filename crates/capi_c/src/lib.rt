// The calls of capi, for C: the archive that include/mzpaf.h speaks of. Each has the clauses of the call that it hands on to. A slice is handed
// over from C as a pointer and a length.
#![tactic(auto)]

ghost use Rattle.std.specs.Prelude.{◌≡◌, length};
ghost use Rattle.rules.specs.Answers.{Reads, Writes, Converts};
ghost use Rattle.rules.specs.RowAnswers.{ReadsRow, WritesRow, ConvertsRow};
ghost use Rattle.rules.specs.Editions.{first_lines};
ghost use Rattle.scan_line.specs.Steps.{scanned_by};
ghost use Rattle.read_line.specs.Readings.{read_of};
ghost use Rattle.write_table.specs.Writings.{written_of, converted_of};
ghost use Rattle.lines.specs.Relabels.{Relabels, relabelled_of};
ghost use Rattle.read_row.specs.Readings.{read_row_of};
ghost use Rattle.write_row.specs.Writings.{write_row_of};
ghost use Rattle.convert_row.specs.Conversions.{convert_row_of};
ghost use Rattle.respell_row.specs.Relabelled.{relabelled_row_of};
ghost use Rattle.rows.specs.Relabels.{RelabelsRow};
ghost use Rattle.pack_answer.specs.Handed.{handed, handed_of, Hands};
ghost use Rattle.capi.specs.Prepared.{prepared, prepared_of};

// The table that a line spells.
#[unsafe(no_mangle)]
pub extern "C" fn mzpaf_read(line: &[u8], out: &mut [u8], answer: &mut [u8]) -> u16
    ensures { Hands (Reads first_lines line.now (length out.old)) (length out.old) (length answer.old) (handed result out.new answer.new) }
{
    capi::mzpaf_read(line, out, answer)
}

// The preferred line of a stored table.
#[unsafe(no_mangle)]
pub extern "C" fn mzpaf_write(table: &[u8], out: &mut [u8], answer: &mut [u8]) -> u16
    ensures { Hands (Writes first_lines table.now (length out.old)) (length out.old) (length answer.old) (handed result out.new answer.new) }
{
    capi::mzpaf_write(table, out, answer)
}

// The table of edition 2 of the line that a stored table of edition 1 has. Document 02, M-112.
#[unsafe(no_mangle)]
pub extern "C" fn mzpaf_convert(table: &[u8], out: &mut [u8], answer: &mut [u8]) -> u16
    ensures { Hands (Converts table.now (length out.old)) (length out.old) (length answer.old) (handed result out.new answer.new) }
{
    capi::mzpaf_convert(table, out, answer)
}

// The preferred spelling of a line.
#[unsafe(no_mangle)]
pub extern "C" fn mzpaf_relabel(line: &[u8], out: &mut [u8], answer: &mut [u8]) -> u16
    ensures { Hands (Relabels first_lines line.now (length out.old)) (length out.old) (length answer.old) (handed result out.new answer.new) }
{
    capi::mzpaf_relabel(line, out, answer)
}

// The stored row that a row spells.
#[unsafe(no_mangle)]
pub extern "C" fn mzpaf_read_row(row: &[u8], out: &mut [u8], answer: &mut [u8]) -> u16
    ensures { Hands (ReadsRow first_lines row.now (length out.old)) (length out.old) (length answer.old) (handed result out.new answer.new) }
{
    capi::mzpaf_read_row(row, out, answer)
}

// The preferred row of a stored row.
#[unsafe(no_mangle)]
pub extern "C" fn mzpaf_write_row(stored: &[u8], out: &mut [u8], answer: &mut [u8]) -> u16
    ensures { Hands (WritesRow first_lines stored.now (length out.old)) (length out.old) (length answer.old) (handed result out.new answer.new) }
{
    capi::mzpaf_write_row(stored, out, answer)
}

// The stored row whose table is of edition 2, of a stored row whose table is of edition 1.
#[unsafe(no_mangle)]
pub extern "C" fn mzpaf_convert_row(stored: &[u8], out: &mut [u8], answer: &mut [u8]) -> u16
    ensures { Hands (ConvertsRow stored.now (length out.old)) (length out.old) (length answer.old) (handed result out.new answer.new) }
{
    capi::mzpaf_convert_row(stored, out, answer)
}

// The preferred spelling of a row.
#[unsafe(no_mangle)]
pub extern "C" fn mzpaf_relabel_row(row: &[u8], out: &mut [u8], answer: &mut [u8]) -> u16
    ensures { Hands (RelabelsRow first_lines row.now (length out.old)) (length out.old) (length answer.old) (handed result out.new answer.new) }
{
    capi::mzpaf_relabel_row(row, out, answer)
}

// The machine of an edition of lines, 1 or 2, put into a buffer. Any other number is 9; then 8 where the buffer is too short. Document 02, M-113.
#[unsafe(no_mangle)]
pub extern "C" fn mzpaf_prepare(lines: u16, machine: &mut [u8]) -> u16
    ensures { prepared result machine.new ≡ prepared_of lines (length machine.old) }
{
    capi::mzpaf_prepare(lines, machine)
}

#[unsafe(no_mangle)]
pub extern "C" fn mzpaf_read_with(
    machine: &[u8],
    line: &[u8],
    out: &mut [u8],
    answer: &mut [u8],
) -> u16
    ensures { handed result out.new answer.new ≡ handed_of (length out.old) (read_of (scanned_by machine.now line.now) line.now (length out.old)) (length answer.old) }
{
    capi::mzpaf_read_with(machine, line, out, answer)
}

#[unsafe(no_mangle)]
pub extern "C" fn mzpaf_write_with(
    machine: &[u8],
    table: &[u8],
    out: &mut [u8],
    answer: &mut [u8],
) -> u16
    ensures { handed result out.new answer.new ≡ handed_of (length out.old) (written_of machine.now table.now (length out.old)) (length answer.old) }
{
    capi::mzpaf_write_with(machine, table, out, answer)
}

#[unsafe(no_mangle)]
pub extern "C" fn mzpaf_convert_with(
    machine: &[u8],
    table: &[u8],
    out: &mut [u8],
    answer: &mut [u8],
) -> u16
    ensures { handed result out.new answer.new ≡ handed_of (length out.old) (converted_of machine.now table.now (length out.old)) (length answer.old) }
{
    capi::mzpaf_convert_with(machine, table, out, answer)
}

#[unsafe(no_mangle)]
pub extern "C" fn mzpaf_relabel_with(
    machine: &[u8],
    line: &[u8],
    out: &mut [u8],
    answer: &mut [u8],
) -> u16
    ensures { handed result out.new answer.new ≡ handed_of (length out.old) (relabelled_of (scanned_by machine.now line.now) line.now (length out.old)) (length answer.old) }
{
    capi::mzpaf_relabel_with(machine, line, out, answer)
}

#[unsafe(no_mangle)]
pub extern "C" fn mzpaf_read_row_with(
    machine: &[u8],
    row: &[u8],
    out: &mut [u8],
    answer: &mut [u8],
) -> u16
    ensures { handed result out.new answer.new ≡ handed_of (length out.old) (read_row_of machine.now row.now (length out.old)) (length answer.old) }
{
    capi::mzpaf_read_row_with(machine, row, out, answer)
}

#[unsafe(no_mangle)]
pub extern "C" fn mzpaf_write_row_with(
    machine: &[u8],
    stored: &[u8],
    out: &mut [u8],
    answer: &mut [u8],
) -> u16
    ensures { handed result out.new answer.new ≡ handed_of (length out.old) (write_row_of machine.now stored.now (length out.old)) (length answer.old) }
{
    capi::mzpaf_write_row_with(machine, stored, out, answer)
}

#[unsafe(no_mangle)]
pub extern "C" fn mzpaf_convert_row_with(
    machine: &[u8],
    stored: &[u8],
    out: &mut [u8],
    answer: &mut [u8],
) -> u16
    ensures { handed result out.new answer.new ≡ handed_of (length out.old) (convert_row_of machine.now stored.now (length out.old)) (length answer.old) }
{
    capi::mzpaf_convert_row_with(machine, stored, out, answer)
}

#[unsafe(no_mangle)]
pub extern "C" fn mzpaf_relabel_row_with(
    machine: &[u8],
    row: &[u8],
    out: &mut [u8],
    answer: &mut [u8],
) -> u16
    ensures { handed result out.new answer.new ≡ handed_of (length out.old) (relabelled_row_of machine.now row.now (length out.old)) (length answer.old) }
{
    capi::mzpaf_relabel_row_with(machine, row, out, answer)
}
