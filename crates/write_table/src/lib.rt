// A stored table written, or converted: its line is printed, read again to a table of its edition, and what it reads to is held against the table. So the reader alone
// decides which bytes are a table. Document 01, "Numbers of refusal", and document 02, M-112 and M-113: writing tests 9, 10, 20, 1, 8; converting 9, then what reading the
// line tests behind the limits: 11, 6, 8. The lent machine says of which edition the line has to be; 9 goes by lines of the first edition for a table of edition 1, by those
// of the second for one of edition 2.
#![tactic(auto)]

ghost use Rattle.std.specs.Prelude.{◌≡◌, length};
ghost use Rattle.layout.specs.Editions.{edition_of};
ghost use Rattle.print_table.specs.Tables.{printed_table};
ghost use Rattle.answers.specs.Delivered.{answered};
ghost use Rattle.faults.specs.Refusals.{number_of};
ghost use Rattle.rules.specs.Largest.{max_any_table};
ghost use Rattle.read_line.specs.Back.{zeros};
ghost use Rattle.scan_line.specs.Steps.{machine_bytes, scanned_by};
ghost use Rattle.rules.specs.Editions.{current, second_lines};
ghost use Rattle.read_line.specs.Back.{reads_to};
ghost use Rattle.write_table.specs.Writings.{edition_for, first_number, unheld_number, line_of, handed_of, found_of, found_in, longest_printed, answer_of, judged_first, answer_for, written_of, converted_of};

use answers::{refuse, write_line};
use faults::{Refusal, Why};
use layout::Edition;
use print_table::{edition_at, print_table};
use put_bytes::clear;
use read_line::{FEW, keeps_all, read_shaped, reads_to, reads_to_few};
use scan_line::{Lines, takes_letters};
use slices::first_of;

// Bytes that suffice for the line of every table.
pub const LINE: usize = 65536;

// What is wanted of a stored table: its line; or, of one of edition 1, the table of edition 2 of the same line.
#[derive(Clone, Copy)]
pub enum Wanted {
    Line,
    Table,
}

// The edition that bytes have to be of: for its line a table may name any.
fn edition_for(wanted: Wanted, table: &[u8]) -> Edition
    ensures { result ≡ edition_for wanted table.now }
{
    match wanted {
        Wanted::Line => edition_at(table),
        Wanted::Table => Edition::First,
    }
}

// Why the line of an edition 1 table is refused: 10 where it can be read today, else 9.
#[tactic(auto, unfolding(crate::specs::Writings::first_number))]
fn why_first(line: &[u8]) -> Why
    ensures { number_of result ≡ first_number line.now }
{
    if keeps_all(Edition::Second, line) {
        Why::FirstEditionTable
    } else {
        Why::NoTable
    }
}

// The line of a table of an edition.
fn put_line(edition: Edition, line: &[u8], out: &mut [u8]) -> Result<usize, Refusal>
    ensures { answered result out.new ≡ line_of (edition_of edition) line.now (length out.old) }
{
    match edition {
        Edition::First => {
            clear(out);
            refuse(why_first(line), 0)
        }
        Edition::Second => write_line(line, out),
    }
}

// What is wanted, where the line is that of a table of an edition.
fn hand_out(wanted: Wanted, edition: Edition, line: &[u8], out: &mut [u8]) -> Result<usize, Refusal>
    ensures { answered result out.new ≡ handed_of wanted (edition_of edition) line.now (length out.old) }
{
    match wanted {
        Wanted::Line => put_line(edition, line, out),
        Wanted::Table => read_shaped(Edition::Second, line, out),
    }
}

// Whether a line of the second edition reads to a table of edition 2.
fn reads_by_second(line: &[u8], table: &[u8]) -> bool
    ensures { result ≡ reads_to current (scanned_by (machine_bytes second_lines) line.now) (zeros max_any_table) line.now table.now }
{
    let second = scan_line::machine(Lines::Second);
    reads_to(&second, Edition::Second, line, table)
}

// Why bytes are refused that the line printed for them does not read to by a machine: 20 where it does in the second edition, so that only its letters
// are in the way, else 9.
fn why_unheld(edition: Edition, machine: &[u8], line: &[u8], table: &[u8]) -> Why
    ensures { number_of result ≡ unheld_number (edition_of edition) machine.now line.now table.now }
{
    match edition {
        Edition::First => Why::NoTable,
        Edition::Second => {
            if !takes_letters(machine) && reads_by_second(line, table) {
                Why::Letters
            } else {
                Why::NoTable
            }
        }
    }
}

// The line that was printed for a table: of bytes that it does not read to it is no table's line, or none in the edition asked for.
fn finish(
    wanted: Wanted,
    edition: Edition,
    machine: &[u8],
    line: &[u8],
    held: bool,
    table: &[u8],
    out: &mut [u8],
) -> Result<usize, Refusal>
    ensures { answered result out.new ≡ found_of wanted (edition_of edition) held (unheld_number (edition_of edition) machine.now line.now table.now) line.now (length out.old) }
{
    if !held {
        let why = why_unheld(edition, machine, line, table);
        clear(out);
        return refuse(why, 0);
    }
    hand_out(wanted, edition, line, out)
}

// By buffers that hold the line and the bytes of every table.
fn answer_many(
    wanted: Wanted,
    machine: &[u8],
    table: &[u8],
    out: &mut [u8],
) -> Result<usize, Refusal>
    ensures { answered result out.new ≡ found_in wanted machine.now longest_printed (zeros max_any_table) (printed_table table.now) table.now (length out.old) }
{
    let mut buffer = [0u8; LINE];
    let n = print_table(&mut buffer, 0, table);
    if LINE < n {
        clear(out);
        return refuse(Why::NoTable, 0);
    }
    let line = first_of(&buffer, n);
    let edition = edition_for(wanted, table);
    let held = reads_to(machine, edition, line, table);
    finish(wanted, edition, machine, line, held, table, out)
}

// By small buffers, where they suffice: clearing large ones costs more than writing most tables.
fn answer_by(wanted: Wanted, machine: &[u8], table: &[u8], out: &mut [u8]) -> Result<usize, Refusal>
    ensures { answered result out.new ≡ answer_of wanted machine.now table.now (length out.old) }
{
    let mut buffer = [0u8; FEW];
    let n = print_table(&mut buffer, 0, table);
    if FEW < n {
        return answer_many(wanted, machine, table, out);
    }
    if FEW < table.len() {
        return answer_many(wanted, machine, table, out);
    }
    let line = first_of(&buffer, n);
    let edition = edition_for(wanted, table);
    let held = reads_to_few(machine, edition, line, table);
    finish(wanted, edition, machine, line, held, table, out)
}

// A table of edition 1: its line is one of the first edition, whichever is asked for.
fn answer_first(
    wanted: Wanted,
    machine: &[u8],
    table: &[u8],
    out: &mut [u8],
) -> Result<usize, Refusal>
    ensures { answered result out.new ≡ answer_of wanted (judged_first machine.now) table.now (length out.old) }
{
    if !takes_letters(machine) {
        return answer_by(wanted, machine, table, out);
    }
    let first = scan_line::machine(Lines::First);
    answer_by(wanted, &first, table, out)
}

// By the machine that bytes of their edition are held against.
fn answer_for(
    wanted: Wanted,
    machine: &[u8],
    table: &[u8],
    out: &mut [u8],
) -> Result<usize, Refusal>
    ensures { answered result out.new ≡ answer_for wanted machine.now table.now (length out.old) }
{
    match edition_for(wanted, table) {
        Edition::First => answer_first(wanted, machine, table, out),
        Edition::Second => answer_by(wanted, machine, table, out),
    }
}

// A stored table written, by a lent machine: whoever has many tables makes it once.
pub fn write_by(machine: &[u8], table: &[u8], out: &mut [u8]) -> Result<usize, Refusal>
    ensures { answered result out.new ≡ written_of machine.now table.now (length out.old) }
{
    answer_for(Wanted::Line, machine, table, out)
}

// A stored table of edition 1 converted to edition 2, by a lent machine.
pub fn convert_by(machine: &[u8], table: &[u8], out: &mut [u8]) -> Result<usize, Refusal>
    ensures { answered result out.new ≡ converted_of machine.now table.now (length out.old) }
{
    answer_for(Wanted::Table, machine, table, out)
}
