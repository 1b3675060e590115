// The shape of each line of standard input: `fine`, `3 LENGTH` or `2 PLACE`. Lines end at line feeds, and the last may lack its own;
// they have any bytes and any length, since a line is scanned part by part as it comes. Which parts are found is stated by `next_part`, and
// `answer` and `end` state what is answered to a line; what is written cannot be stated.
#![tactic(auto)]

ghost use Rattle.std.specs.Prelude.{◌≡◌, List, ℕ, length};
ghost use Rattle.put_bytes.specs.Puts.{Put};
ghost use Rattle.io_lines.specs.Streams.{line_in};
ghost use Rattle.io_lines.specs.Found.{NextPart};
ghost use Rattle.shapes.specs.Shown.{place_text, verdict_text, is_begun, Shown, Parted, Last};

use io_lines::{Stream, System, next_part, room};
use numbers::put_number;
use put_bytes::{put_run, put8};
use run_program::{AnswersAlike, answer_all_alike, asked_lines, was_asked};
use scan_line::{Progress, Verdict};
use std::process::ExitCode;

// The bytes of input that are held, and those of answers that wait.
const BUFFER: usize = 65536;

// The longest answer: a number, a blank, a place of 20 digits, a line feed.
const ANSWER: usize = 23;

fn main(rt: HostRuntime) -> ExitCode {
    if let Some(status) = was_asked(
        &rt,
        b"shapes",
        b"shapes says of each line whether it has the shape of an mzPAF line: limits and rules play no part.

Standard input has one line of text a line. Lines end at line feeds, and the last may lack its own; they may
have any bytes and any length.

Standard output has one answer a line:
  fine       the line has the shape
  2 PLACE    a stray byte: the line does not begin any shape; so many bytes of it do
  3 LENGTH   the line begins a shape and is none

With --second, lines are those of the second edition, in which an internal ion may have letters: mxa3:6.
",
        false,
    ) {
        return status;
    }
    let mut buf = [0u8; BUFFER];
    let mut out = [0u8; BUFFER];
    let mut shapes = Shapes {
        machine: &scan_line::machine(asked_lines(&rt)),
        scan: Progress::begin(),
    };
    let mut system = System::begin(rt);
    answer_all_alike(&mut system, b"shapes", &mut buf, &mut out, &mut shapes)
}

// The machine, and the scan of the line that goes on.
#[derive(Drop)]
struct Shapes<'a> {
    machine: &'a [u8],
    scan: Progress,
}

impl AnswersAlike<BUFFER> for Shapes<'_> {
    ghost use Rattle.std.specs.Prelude.{ℕ, List};

    ghost Asked = { List ℕ };

    ghost asked = { λ p. p.machine.now };

    // Lines are taken part by part.
    #[inline(always)]
    fn next(&mut self, system: &mut System, buf: &mut [u8], out: &[u8], s: Stream) -> Stream
        ensures found { NextPart buf.old s buf.new result }
        ensures kept { self.new ≡ self.old }
    {
        next_part(system, buf, out, s)
    }

    // The part that was found, which may be the last of its line.
    #[inline(always)]
    fn answer(
        &mut self,
        system: &mut System,
        buf: &[u8],
        out: &mut [u8; BUFFER],
        s: Stream,
    ) -> Stream
        ensures kept { self.new.machine.now ≡ self.old.machine.now }
        ensures parted { Parted self.old.machine.now (line_in buf.now s) s self.old.scan out.old out.new self.new.scan result }
    {
        let scan = self.scan.over(self.machine, s.line(buf));
        if !s.is_fed() {
            self.scan = scan;
            return s;
        }
        self.scan = Progress::begin();
        answer(system, self.machine, out, s, scan)
    }

    // A last line without line feed.
    fn end(&mut self, system: &mut System, out: &mut [u8; BUFFER], s: Stream) -> Stream
        ensures kept { self.new ≡ self.old }
        ensures last { Last self.old.machine.now s self.old.scan out.old out.new result }
    {
        if is_begun(self.scan) {
            answer(system, self.machine, out, s, self.scan)
        } else {
            s
        }
    }
}

// Whether anything was scanned.
fn is_begun(p: Progress) -> bool
    ensures { result ≡ is_begun p }
{
    p.state != 0 || 0 < p.at
}

// The answer for a line, behind those that wait.
#[inline(always)]
fn answer(system: &mut System, machine: &[u8], out: &mut [u8], s: Stream, p: Progress) -> Stream
    ensures { Shown machine.now p s out.old out.new result }
{
    let t = room(system, out, s, ANSWER);
    let v = p.verdict(machine);
    let end = put_verdict(out, t.waiting, v, p.at);
    t.answered(end)
}

// The answer by the verdict on a line of so many bytes.
fn put_verdict(out: &mut [u8], at: usize, v: Verdict, n: usize) -> usize
    ensures { (line : List ℕ) → length line ≡ n → Put out.old at (verdict_text line v) out.new result }
{
    match v {
        Verdict::Fine => put_run(out, at, b"fine\n"),
        Verdict::Short => put_place(out, at, 3, n),
        Verdict::Stray(k) => put_place(out, at, 2, k),
    }
}

// A number and a blank, a place, a line feed.
fn put_place(out: &mut [u8], at: usize, number: u64, place: usize) -> usize
    ensures { Put out.old at (place_text number place) out.new result }
{
    let blank = put_number(out, at, number);
    let behind = put8(out, blank, b' ');
    let end = put_number(out, behind, place as u64);
    put8(out, end, b'\n')
}
