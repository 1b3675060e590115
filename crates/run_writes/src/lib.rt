// The programs `writes` and `row_writes`, `try_write_sized` and `try_write_row_sized`, `convert` and `converts`: stored tables, or stored rows of a peak
// list, come from standard input, one a line in hexadecimal digits, and each is answered by its line, its row or the table of edition 2, in such digits.
// `table` is a stored row here where rows are written, and `line` is what is answered: the line, the row or the other table. Lines of the input end at
// line feeds, and the last may lack its own. Which lines are found is stated by `next_line`, and `Writer::answer` states what is answered to the table
// that was found; what is written cannot be stated, so `answer_tables` is proved safe and ending. `Task`, `Form`, and whether tables are sized, stay
// values that are tested and no closures: `answer_to` and `told_as`, which say what is answered, speak of them.
#![tactic(auto)]

ghost use Rattle.std.specs.Prelude.{ℕ, ◌≡◌, ◌≤◌, Bool, true, List, length};
ghost use Rattle.put_bytes.specs.Puts.{Put};
ghost use Rattle.answers.specs.Delivered.{answered};
ghost use Rattle.io_answers.specs.Asked.{room_in};
ghost use Rattle.io_lines.specs.Streams.{line_in};
ghost use Rattle.io_lines.specs.Found.{Next};
ghost use Rattle.run_writes.specs.declared.Task.{Task};
ghost use Rattle.run_writes.specs.declared.Form.{Form};
ghost use Rattle.run_writes.specs.Answered.{most_of, answer_as, hex_of, answer_to, Written, told_as, Answered};

use answers::refuse;
use faults::{Refusal, Why};
use io_answers::{behind_size, put_answer, put_briefly, size_in};
use io_hex::{is_hex, put_unhexed};
use io_lines::{Stream, System, next_line, room};
use layout::ROW_HEAD_SIZE;
use limits::{MAX_ANY_TABLE, MAX_ROW};
use put_bytes::clear;
use run_program::{AnswersAlike, answer_all_alike};
use scan_line::Lines;
use slices::first_of;
use std::process::ExitCode;
use write_row::write_row_by;
use write_table::{convert_by, write_by};

// The head of a stored row, and one byte more than the header of a table can name as its length, so that what is cut to so many bytes is neither.
const TABLE: usize = ROW_HEAD_SIZE + 65536;

// Half of the buffer holds the digits of so many bytes.
const BUFFER: usize = 4 * TABLE;

// The longest answer: three numbers of at most 20 digits, each with a blank; the largest table, which is longer than a line or a row; a line feed.
const ANSWER: usize = 64 + 2 * MAX_ANY_TABLE;

// Answers wait until the longest might not fit behind them, so that there is room for more than one.
const WAITING: usize = 2 * ANSWER;

// What is done with stored bytes: a table is written as its line, a row as its text, or a table of edition 1 is converted to edition 2.
#[derive(Clone, Copy)]
pub enum Task {
    WriteTable,
    WriteRow,
    ConvertTable,
}

// How an answer is shown: by its number, place and length and what it speaks of, `-` where that is nothing; or by what it speaks of alone, and a refusal
// by `!`, its number and its place.
#[derive(Clone, Copy)]
pub enum Form {
    Fields,
    Digits,
}

// All tables, by lines of an edition, for the program of this name. The output has as many bytes as are answered at most; or, where tables are sized, as many as a number says that
// stands before each, with a blank behind it, if these are fewer.
pub fn answer_tables(
    rt: &HostRuntime,
    name: &[u8],
    lines: Lines,
    task: Task,
    form: Form,
    sized: bool,
) -> ExitCode {
    let mut buf = [0u8; BUFFER];
    let mut out = [0u8; WAITING];
    let mut writer = Writer {
        task,
        form,
        machine: &scan_line::machine(lines),
        sized,
        table: [0u8; TABLE],
        line: [0u8; MAX_ANY_TABLE],
    };
    let mut system = System::begin(*rt);
    answer_all_alike(&mut system, name, &mut buf, &mut out, &mut writer)
}

// What is done with tables, how it is shown, by which machine, whether tables are sized, and the bytes for one and for its answer.
#[derive(Drop)]
struct Writer<'a> {
    task: Task,
    form: Form,
    machine: &'a [u8],
    sized: bool,
    table: [u8; TABLE],
    line: [u8; MAX_ANY_TABLE],
}

impl AnswersAlike<WAITING> for Writer<'_> {
    ghost use Rattle.std.specs.Prelude.{ℕ, Bool, List};
    ghost use Rattle.run_writes.specs.declared.Task.{Task};
    ghost use Rattle.run_writes.specs.declared.Form.{Form};

    ghost Asked = { Task × Form × List ℕ × Bool };

    ghost asked = { λ w. (w.task, w.form, w.machine.now, w.sized) };

    // In line, so that no stream is copied for each line.
    #[inline(always)]
    fn next(&mut self, system: &mut System, buf: &mut [u8], out: &[u8], s: Stream) -> Stream
        ensures found { Next buf.old s buf.new result }
        ensures kept { self.new ≡ self.old }
    {
        next_line(system, buf, out, s)
    }

    // The table that was found is answered, behind the answers that wait.
    #[inline(always)]
    fn answer(
        &mut self,
        system: &mut System,
        buf: &[u8],
        out: &mut [u8; WAITING],
        s: Stream,
    ) -> Stream
        ensures kept { ◌≡◌ {A = Task × Form × List ℕ × Bool} (self.new.task, self.new.form, self.new.machine.now, self.new.sized) (self.old.task, self.old.form, self.old.machine.now, self.old.sized) }
        ensures answered { Answered self.old.form (answer_to self.old.task self.old.machine.now self.old.sized (line_in buf.now s) (length self.old.table) (most_of self.old.task)) s out.old out.new result }
    {
        let t = room(system, out, s, ANSWER);
        let asked = s.line(buf);
        let Writer {
            task,
            form,
            machine,
            sized,
            table,
            line,
        } = self;
        let a = answer_most(*task, machine, asked, table, line, *sized);
        let end = put_told(*form, out, t.waiting, a, line);
        t.answered(end)
    }
}

// How many bytes are answered at most. A line or a row is not given the room of a table, since clearing that costs more than writing most of them.
fn most_of(task: Task) -> usize
    ensures { result ≡ most_of task }
{
    match task {
        Task::WriteTable | Task::WriteRow => MAX_ROW,
        Task::ConvertTable => MAX_ANY_TABLE,
    }
}

// What is asked, in as much of the line as is answered at most.
fn answer_most(
    task: Task,
    machine: &[u8],
    asked: &[u8],
    table: &mut [u8],
    line: &mut [u8],
    sized: bool,
) -> Result<usize, Refusal>
    requires { most_of task ≤ length line.old }
    ensures { Written (room_in sized asked.now (most_of task)) (answer_to task machine.now sized asked.now (length table.old) (most_of task)) line.old line.new result }
{
    let most = most_of(task);
    answer_one(task, machine, asked, table, &mut line[..most], sized)
}

// What is asked, sized or not.
fn answer_one(
    task: Task,
    machine: &[u8],
    asked: &[u8],
    table: &mut [u8],
    line: &mut [u8],
    sized: bool,
) -> Result<usize, Refusal>
    ensures { Written (room_in sized asked.now (length line.old)) (answer_to task machine.now sized asked.now (length table.old) (length line.old)) line.old line.new result }
{
    if sized {
        answer_sized(task, machine, asked, table, line)
    } else {
        answer_hex(task, machine, asked, table, line)
    }
}

// The digits behind a number and a blank, into so many bytes.
fn answer_sized(
    task: Task,
    machine: &[u8],
    asked: &[u8],
    table: &mut [u8],
    line: &mut [u8],
) -> Result<usize, Refusal>
    ensures { Written (room_in true asked.now (length line.old)) (answer_to task machine.now true asked.now (length table.old) (length line.old)) line.old line.new result }
{
    let digits = behind_size(asked);
    let bytes = size_in(asked, line.len());
    answer_hex(task, machine, digits, table, &mut line[..bytes])
}

// What no digits spell is no table: the line holds zeros then, as it does after every refusal.
fn answer_hex(
    task: Task,
    machine: &[u8],
    digits: &[u8],
    table: &mut [u8],
    line: &mut [u8],
) -> Result<usize, Refusal>
    ensures { answered result line.new ≡ hex_of task machine.now digits.now (length table.old) (length line.old) }
{
    if !is_hex(digits) {
        clear(line);
        return refuse(Why::NoTable, 0);
    }
    let n = put_unhexed(table, 0, digits);
    answer_as(task, machine, first_of(table, n), line)
}

// By what is to be done with the bytes.
fn answer_as(task: Task, machine: &[u8], table: &[u8], out: &mut [u8]) -> Result<usize, Refusal>
    ensures { answered result out.new ≡ answer_as task machine.now table.now (length out.old) }
{
    match task {
        Task::WriteTable => write_by(machine, table, out),
        Task::WriteRow => write_row_by(machine, table, out),
        Task::ConvertTable => convert_by(machine, table, out),
    }
}

// An answer, and what it speaks of; it ends with a line feed.
fn put_told(form: Form, out: &mut [u8], at: usize, a: Result<usize, Refusal>, line: &[u8]) -> usize
    ensures { Put out.old at (told_as form a line.now) out.new result }
{
    match form {
        Form::Fields => put_answer(out, at, a, line),
        Form::Digits => put_briefly(out, at, a, line),
    }
}
