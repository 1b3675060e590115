// The programs `reads` and `row_reads`, `try_read_sized` and `try_read_row_sized`: lines of standard input, or rows of a peak list, are read, and each
// is answered by number, place and length, and the table, or the stored row, in hexadecimal digits, `-` where there is none. Lines end at line feeds,
// and the last may lack its own. Which lines are found is stated by `next_line`, and `Reader::answer` states what is answered to the line that was
// found; what is written cannot be stated, so `answer_lines` is proved safe and ending. `Input`, and whether lines are sized, stay values that are
// tested and no closures: `ReadInto`, which says what is answered, speaks of both.
#![tactic(auto)]

ghost use Rattle.std.specs.Prelude.{ℕ, ◌≡◌, Bool, true, List, length, take, drop};
ghost use Rattle.answers.specs.Delivered.{answered};
ghost use Rattle.io_lines.specs.Streams.{line_in};
ghost use Rattle.io_lines.specs.Found.{Next};
ghost use Rattle.run_program.specs.declared.Input.{Input};
ghost use Rattle.run_reads.specs.Answered.{Answered};
ghost use Rattle.run_reads.specs.Reads.{read_as, ReadInto};

use faults::Refusal;
use io_answers::{behind_size, put_answer, size_in};
use io_lines::{Stream, System, next_line, room};
use layout::ROW_HEAD_SIZE;
use limits::MAX_TABLE;
use read_line::read_by;
use read_row::read_row_by;
use run_program::{AnswersAlike, Input, answer_all_alike};
use scan_line::Lines;
use std::process::ExitCode;

// The bytes of the stored row of a row that is read.
const MAX_STORED_ROW: usize = ROW_HEAD_SIZE + MAX_TABLE;

// The bytes of input that are held, and those of answers that wait.
const BUFFER: usize = 65536;

// The longest answer: three numbers of at most 20 digits, each with a blank; the stored row, which is longer than
// any table that is read; a line feed.
const ANSWER: usize = 64 + 2 * MAX_STORED_ROW;

// All lines, of an edition, for the program of this name. Where they are sized, each begins with the length of its output, a number of at most 21,392, and a blank; else the output
// is as long as any stored row needs.
pub fn answer_lines(
    rt: &HostRuntime,
    name: &[u8],
    lines: Lines,
    input: Input,
    sized: bool,
) -> ExitCode {
    let mut buf = [0u8; BUFFER];
    let mut out = [0u8; BUFFER];
    let mut reader = Reader {
        input,
        machine: &scan_line::machine(lines),
        sized,
        table: [0u8; MAX_STORED_ROW],
    };
    let mut system = System::begin(*rt);
    answer_all_alike(&mut system, name, &mut buf, &mut out, &mut reader)
}

// What lines are read as, by which machine, whether they are sized, and what they are read into.
#[derive(Drop)]
struct Reader<'a> {
    input: Input,
    machine: &'a [u8],
    sized: bool,
    table: [u8; MAX_STORED_ROW],
}

impl AnswersAlike<BUFFER> for Reader<'_> {
    ghost use Rattle.std.specs.Prelude.{ℕ, Bool, List};
    ghost use Rattle.run_program.specs.declared.Input.{Input};

    ghost Asked = { Input × List ℕ × Bool };

    ghost asked = { λ r. (r.input, r.machine.now, r.sized) };

    // In line, so that no stream is copied for each line.
    #[inline(always)]
    fn next(&mut self, system: &mut System, buf: &mut [u8], out: &[u8], s: Stream) -> Stream
        ensures found { Next buf.old s buf.new result }
        ensures kept { self.new ≡ self.old }
    {
        next_line(system, buf, out, s)
    }

    // The line that was found is answered, behind the answers that wait.
    #[inline(always)]
    fn answer(
        &mut self,
        system: &mut System,
        buf: &[u8],
        out: &mut [u8; BUFFER],
        s: Stream,
    ) -> Stream
        ensures kept { ◌≡◌ {A = Input × List ℕ × Bool} (self.new.input, self.new.machine.now, self.new.sized) (self.old.input, self.old.machine.now, self.old.sized) }
        ensures answered { Answered self.old.input self.old.machine.now (line_in buf.now s) self.old.sized s self.old.table self.new.table out.old out.new result }
    {
        let t = room(system, out, s, ANSWER);
        let line = s.line(buf);
        let a = read_one(self.input, self.machine, line, &mut self.table, self.sized);
        let end = put_answer(out, t.waiting, a, &self.table);
        t.answered(end)
    }
}

// A line behind its number, or, where lines are not sized, all of it into the whole table.
fn read_one(
    input: Input,
    machine: &[u8],
    line: &[u8],
    table: &mut [u8],
    sized: bool,
) -> Result<usize, Refusal>
    ensures { ReadInto input machine.now line.now sized table.old table.new result }
{
    if sized {
        read_sized(input, machine, line, table)
    } else {
        read_as(input, machine, line, table)
    }
}

// The line behind a number and a blank, into so many bytes, or into all where they are fewer.
fn read_sized(
    input: Input,
    machine: &[u8],
    asked: &[u8],
    table: &mut [u8],
) -> Result<usize, Refusal>
    ensures { ReadInto input machine.now asked.now true table.old table.new result }
{
    let line = behind_size(asked);
    let bytes = size_in(asked, table.len());
    read_as(input, machine, line, &mut table[..bytes])
}

// A line of annotations, or a row.
fn read_as(input: Input, machine: &[u8], line: &[u8], out: &mut [u8]) -> Result<usize, Refusal>
    ensures { answered result out.new ≡ read_as input machine.now line.now (length out.old) }
{
    match input {
        Input::Lines => read_by(machine, line, out),
        Input::Rows => read_row_by(machine, line, out),
    }
}
