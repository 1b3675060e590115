// The loop over lines `run_program::answer_all` and its trait `Answers`, tried: each line of standard input is answered by its number, from 1
// on, and by how many bytes it has; of a line longer than half of the buffer, by how many of them are kept. The output is a slice, longer than an
// answer, and neither `next` nor `end` is written. `Lengths::answer` states what is said to a line; what is written cannot be stated.
#![tactic(auto)]

ghost use Rattle.std.specs.Prelude.{◌≡◌};
ghost use Rattle.io_lines.specs.Streams.{line_in, sum_of};
ghost use Rattle.run_program.specs.Waits.{Waits};
ghost use Rattle.try_answer_all.specs.Said.{longest, length_text};

use io_answers::put_field;
use io_lines::{Stream, System, room};
use numbers::put_number;
use put_bytes::put8;
use run_program::{Answers, answer_all, was_asked};
use std::process::ExitCode;

// The bytes of input that are held.
const BUFFER: usize = 65536;

// Two numbers of at most 20 digits, a blank between them and a line feed.
const ANSWER: usize = 42;

// Room for some answers.
const ANSWERS: usize = 1024;

fn main(rt: HostRuntime) -> ExitCode {
    if let Some(status) = was_asked(
        &rt,
        b"try_answer_all",
        b"try_answer_all tells how long lines are.

Standard input has lines, which end at line feeds; the last may lack its own.
Standard output has for each its number, from 1 on, a space, and how many bytes it has; of a line of more
than 32,768 bytes, how many of them are kept.
",
        false,
    ) {
        return status;
    }
    let mut buf = [0u8; BUFFER];
    let mut out = [0u8; ANSWERS];
    let mut system = System::begin(rt);
    let mut lengths = Lengths { lines: 0 };
    answer_all(
        &mut system,
        b"try_answer_all",
        &mut buf,
        &mut out[1..],
        &mut lengths,
    )
}

// How many lines were answered.
#[derive(Drop)]
struct Lengths {
    lines: usize,
}

impl Answers for Lengths {
    ghost least = { longest };

    // The line that was found is answered, behind the answers that wait.
    fn answer(&mut self, system: &mut System, buf: &[u8], out: &mut [u8], s: Stream) -> Stream
        ensures counted { self.new.lines ≡ sum_of self.old.lines 1 }
        ensures said { Waits longest (length_text self.new.lines (line_in buf.now s)) s out.old out.new result }
    {
        let t = room(system, out, s, ANSWER);
        self.lines = self.lines.saturating_add(1);
        let number = put_field(out, t.waiting, self.lines as u64);
        let len = put_number(out, number, s.line(buf).len() as u64);
        t.answered(put8(out, len, b'\n'))
    }
}
