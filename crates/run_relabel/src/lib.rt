// The relabel program of document 01, and the same for rows of a peak list, shared by `relabel`, `examples` and `peaks`: for each line of standard input,
// or each row, its preferred spelling, or `!`, the number of refusal, a space and the place. Lines end at line feeds, and the last may lack its own. Which lines
// are found is stated by `next_line`, and `Relabeller::answer` states what is answered to the line that was found; what is written cannot be stated, so
// `relabel_lines` is proved safe and ending. The machine that is lent decides by which edition lines are judged; `lines`, which goes with it, says
// in the contracts which edition that is. `Input` stays a value that is tested and no closure: `Answered`, which says what is answered, speaks of it.
#![tactic(auto)]

ghost use Rattle.std.specs.Prelude.{◌+◌, ◌≤◌, ◌≡◌, length};
ghost use Rattle.rules.specs.RowAnswers.{max_row};
ghost use Rattle.scan_line.specs.declared.Lines.{Lines};
ghost use Rattle.scan_line.specs.Lines.{lines_in};
ghost use Rattle.run_program.specs.declared.Input.{Input};
ghost use Rattle.scan_line.specs.Steps.{machine_bytes};
ghost use Rattle.io_lines.specs.Streams.{line_in};
ghost use Rattle.io_lines.specs.Found.{Next};
ghost use Rattle.run_relabel.specs.Answered.{Answered};
ghost use Rattle.answers.specs.Delivered.{answered};
ghost use Rattle.run_relabel.specs.Spelled.{relabel_as, Spelled};
ghost use Rattle.run_relabel.specs.AnswerPut.{AnswerPut};

use faults::Refusal;
use io_answers::put_refusal;
use io_lines::{Stream, System, next_line, room};
use limits::{MAX_ANNOTATIONS, MAX_ROW};
use lines::relabel_by;
use put_bytes::put8;
use respell_row::relabel_row_by;
use run_program::{AnswersAlike, Input, answer_all_alike};
use scan_line::Lines;
use slices::advance;
use std::process::ExitCode;

// The bytes of input that are held, and those of answers that wait.
const BUFFER: usize = 65536;

// All lines of standard input, or all rows, by lines of an edition, for the program of this name.
pub fn relabel_lines(rt: &HostRuntime, name: &[u8], lines: Lines, input: Input) -> ExitCode {
    let mut buf = [0u8; BUFFER];
    let mut out = [0u8; BUFFER];
    let mut relabeller = Relabeller {
        lines,
        input,
        machine: &scan_line::machine(lines),
    };
    let mut system = System::begin(*rt);
    answer_all_alike(&mut system, name, &mut buf, &mut out, &mut relabeller)
}

// What is relabelled, by which edition of lines, and that edition's machine.
#[derive(Drop)]
struct Relabeller<'a> {
    lines: Lines,
    input: Input,
    machine: &'a [u8],
    ghost made: { machine.now ≡ machine_bytes (lines_in lines) },
}

impl AnswersAlike<BUFFER> for Relabeller<'_> {
    ghost use Rattle.scan_line.specs.declared.Lines.{Lines};
    ghost use Rattle.run_program.specs.declared.Input.{Input};

    ghost Asked = { Lines × Input };

    ghost asked = { λ r. (r.lines, r.input) };

    // In line, so that no stream is copied for each line.
    #[inline(always)]
    fn next(&mut self, system: &mut System, buf: &mut [u8], out: &[u8], s: Stream) -> Stream
        ensures found { Next buf.old s buf.new result }
        ensures kept { self.new ≡ self.old }
    {
        next_line(system, buf, out, s)
    }

    // The line that was found is answered, behind the answers that wait; a line feed ends its own.
    #[inline(always)]
    fn answer(
        &mut self,
        system: &mut System,
        buf: &[u8],
        out: &mut [u8; BUFFER],
        s: Stream,
    ) -> Stream
        ensures kept { ◌≡◌ {A = Lines × Input} (self.new.lines, self.new.input) (self.old.lines, self.old.input) }
        ensures answered { Answered (lines_in self.old.lines) self.old.input (line_in buf.now s) s out.old out.new result }
    {
        let t = room(system, out, s, MAX_ROW + 1);
        let a = self.spell(s.line(buf), out, t.waiting);
        let end = put_answer(out, t.waiting, a);
        t.answered(put8(out, end, b'\n'))
    }
}

impl Relabeller<'_> {
    // The preferred spelling at a place of the output. It is longer than the line, or the row, by no more than a byte for each annotation, so that as many bytes
    // are lent and the answer is never 8.
    fn spell(&self, line: &[u8], out: &mut [u8], at: usize) -> Result<usize, Refusal>
        requires { at + max_row ≤ length out.old }
        ensures { Spelled (lines_in self.now.lines) self.now.input line.now out.old at out.new result }
    {
        let n = advance(line.len(), MAX_ANNOTATIONS, MAX_ROW);
        relabel_as(self.input, self.machine, line, &mut out[at..at + n])
    }
}

// A line of annotations, or a row.
fn relabel_as(input: Input, machine: &[u8], line: &[u8], out: &mut [u8]) -> Result<usize, Refusal>
    ensures { answered result out.new ≡ relabel_as input machine.now line.now (length out.old) }
{
    match input {
        Input::Lines => relabel_by(machine, line, out),
        Input::Rows => relabel_row_by(machine, line, out),
    }
}

// The place behind a spelling that stands at a place already, or behind the refusal that is put there.
fn put_answer(out: &mut [u8], at: usize, a: Result<usize, Refusal>) -> usize
    ensures { AnswerPut out.old at a out.new result }
{
    match a {
        Ok(len) => advance(at, len, out.len()),
        Err(r) => put_refusal(out, at, r),
    }
}
