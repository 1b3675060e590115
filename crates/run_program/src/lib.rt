// How each program begins and ends, and how it goes through its lines: what it says of its arguments, and of what the system refused. What
// the system hands over and takes cannot be stated: `was_asked`, `asked_lines`, `has_argument`, `show`, `explain`, `refuse`, `answer_all`,
// the methods of `Answers`, `finish`, `fail` and `put_word` are proved safe and ending, `only_word` states that it counts bytes of its buffer,
// `answer_all_alike` that what is asked of all lines stays, and the others state their answers. Programs that differ in a name, a help text and
// switches alone stay programs, since each is what a user runs.
#![tactic(auto)]

ghost use Rattle.std.specs.Prelude.{ℕ, ◌≤◌, ◌≡◌, ◌++◌, IfSome, take, length};
ghost use Rattle.put_bytes.specs.Puts.{Put};
ghost use Rattle.run_program.specs.Words.{IsPrefixLen, Tells, help_word, second_word};

use io_lines::{Failure, Stream, System, flush, next_line};
use put_bytes::put_run;
use scan_line::Lines;
use slices::{first_of, minus_or_zero, rest};
use std::env::FillError;
use std::io;
use std::io::Write;
use std::process::ExitCode;
use std::rt::Env;

// Longer than each word that a program takes.
const WORD: usize = 16;

// Longer than the name of a program and what is said of its arguments.
const TEXT: usize = 4096;

// Longer than each word of the system.
const SAID: usize = 512;

// What a program reads or writes: lines of annotations, or rows of a peak list.
#[derive(Clone, Copy)]
pub enum Input {
    Lines,
    Rows,
}

// The exit status of a program that was given arguments that are answered: `--help` alone by what the program does and, where its answers have
// such numbers, what the numbers of refusal mean; all others by a line on standard error. `--second` alone is not answered: see `asked_lines`.
pub fn was_asked(rt: &HostRuntime, name: &[u8], help: &[u8], numbered: bool) -> Option<ExitCode> {
    if !has_argument(rt, 1) {
        return None;
    }
    let mut word = [0u8; WORD];
    let asked: &[u8] = match only_word(rt, &mut word) {
        Some(n) => &word[..n],
        None => &[],
    };
    if is_second(asked) {
        return None;
    }
    let mut system = System::begin(*rt);
    if is_help(asked) {
        return Some(show(&mut system, name, help, numbered));
    }
    refuse(&system, name);
    Some(ExitCode::SUCCESS)
}

// The edition of the lines that the program reads or writes: the second where the one argument is `--second`, and else the first.
pub fn asked_lines(rt: &HostRuntime) -> Lines {
    let mut word = [0u8; WORD];
    match only_word(rt, &mut word) {
        Some(n) if is_second(&word[..n]) => Lines::Second,
        _ => Lines::First,
    }
}

// Whether the program was given the argument of this number, which may be empty or of any length; its own name has the number 0.
fn has_argument(rt: &HostRuntime, i: usize) -> bool {
    let mut word = [0u8; WORD];
    !matches!(rt.arg(i, &mut word), Err(FillError::NotPresent))
}

// How many bytes the program's argument has where it has one alone, which then stands at the start of a buffer; none where the argument is longer
// than the buffer.
fn only_word(rt: &HostRuntime, word: &mut [u8]) -> Option<usize>
    ensures { IfSome result (λ n. IsPrefixLen n word.new) }
{
    if has_argument(rt, 2) {
        return None;
    }
    match rt.arg(1, word) {
        Ok(n) => Some(n),
        Err(_) => None,
    }
}

// Each of the two says which word it knows: one function over a word would say no more than `==`.
fn is_help(word: &[u8]) -> bool
    ensures { Tells result word.now help_word }
{
    word == b"--help".as_slice()
}

fn is_second(word: &[u8]) -> bool
    ensures { Tells result word.now second_word }
{
    word == b"--second".as_slice()
}

fn show(system: &mut System, name: &[u8], help: &[u8], numbered: bool) -> ExitCode {
    match explain(system, help, numbered) {
        Ok(()) => ExitCode::SUCCESS,
        Err(_) => fail(system, name, Failure::Writing),
    }
}

// What the program does, and what the numbers mean where its answers have such.
fn explain(system: &mut System, help: &[u8], numbered: bool) -> io::Result<()> {
    system.write(help)?;
    if !numbered {
        return Ok(());
    }
    system.write(
        b"
number  when                                                    place, in bytes from 0
0       done                                                    0
1       the line, read or to be written, has over 4,096 bytes   4096
        a row has over 4,160 bytes                              4160
2       stray byte: the line does not begin any shape           how many bytes do begin one
3       the line begins a shape and is none                     its length
4       a number or a decimal past its bound                    its first digit
5       too many annotations, items, units or text bytes        first byte of the first one too many
6       a rule for one annotation is broken                     first byte of that annotation
7       the confidences exceed 1                                first byte of the annotation that takes the sum past 1
8       the output is too short                                 bytes needed
9       the stored bytes are no table, or no stored row         0
10      a stored table of edition 1, to be written              0
11      a sequence is outside the plain form                    first byte of that annotation
12      the m/z of a row is no decimal within its bounds        0
13      the intensity of a row is none                          its first byte
20      a stored table with letters, to be written as a line    0
        of the first edition

In a row that is read, places are counted from the row's start.
",
    )
}

fn refuse(system: &System, name: &[u8]) {
    let mut text = [0u8; TEXT];
    let n = join(
        &mut text,
        name,
        b": takes no arguments but --second, for lines of the second edition, or --help, which explains it\n",
    );
    system.tell(first_of(&text, n));
}

// What a program does with its lines, or with the parts of lines that it takes; its output has OUT bytes.
pub trait AnswersAlike<const OUT: usize> {
    // What is asked of all lines alike. No line changes it, so that each is answered as it would be alone.
    ghost Asked: { Type 0 };

    ghost asked: { Self → Asked };

    // What comes next: a line, or a part of one.
    fn next(&mut self, system: &mut System, buf: &mut [u8], out: &[u8], s: Stream) -> Stream
        ensures { asked self.new ≡ asked self.old };

    // What was found is answered, behind the answers that wait.
    fn answer(&mut self, system: &mut System, buf: &[u8], out: &mut [u8; OUT], s: Stream) -> Stream
        ensures { asked self.new ≡ asked self.old };

    // What is left to answer at the end: nothing, where a program does not say otherwise.
    fn end(&mut self, _system: &mut System, _out: &mut [u8; OUT], s: Stream) -> Stream
        ensures { asked self.new ≡ asked self.old }
    {
        s
    }
}

// Line after line is answered, until none comes; what is asked of them stays. A proved loop has to end, so it counts up to a number that no run
// reaches.
pub fn answer_all_alike<const OUT: usize, A: AnswersAlike<OUT>>(
    system: &mut System,
    name: &[u8],
    buf: &mut [u8],
    out: &mut [u8; OUT],
    answers: &mut A,
) -> ExitCode
    ensures { A.asked answers.new ≡ A.asked answers.old }
{
    let mut s = answers.next(system, buf, out, Stream::begin());
    for _ in 0..u64::MAX {
        if s.found.is_none() {
            let end = answers.end(system, out, s);
            return finish(system, name, out, end);
        }
        let said = answers.answer(system, buf, out, s);
        s = answers.next(system, buf, out, said);
    }
    ExitCode::SUCCESS
}

// What a program does with its lines, or with the parts of lines that it takes; its output is a slice of any length that suffices (`least`).
// Nothing is asked of what stays from one line to the next: where that matters, take `AnswersAlike`.
pub trait Answers {
    // How many bytes the output has at least.
    ghost least: { ℕ };

    // What comes next: a line, where a program does not say otherwise.
    fn next(&mut self, system: &mut System, buf: &mut [u8], out: &[u8], s: Stream) -> Stream {
        next_line(system, buf, out, s)
    }

    // What was found is answered, behind the answers that wait.
    fn answer(&mut self, system: &mut System, buf: &[u8], out: &mut [u8], s: Stream) -> Stream
        requires { least ≤ length out.old };

    // What is left to answer at the end: nothing, where a program does not say otherwise.
    fn end(&mut self, _system: &mut System, _out: &mut [u8], s: Stream) -> Stream {
        s
    }
}

// Line after line is answered, until none comes. Not by `answer_all_alike`: its output has one length, which is in its type.
pub fn answer_all<A: Answers>(
    system: &mut System,
    name: &[u8],
    buf: &mut [u8],
    out: &mut [u8],
    answers: &mut A,
) -> ExitCode
    requires { A.least ≤ length out.old }
{
    let mut s = answers.next(system, buf, out, Stream::begin());
    for _ in 0..u64::MAX {
        if s.found.is_none() {
            let end = answers.end(system, out, s);
            return finish(system, name, out, end);
        }
        let said = answers.answer(system, buf, out, s); // the output has the bytes that `least` asks for
        s = answers.next(system, buf, out, said);
    }
    ExitCode::SUCCESS
}

// The last of a program: the answers that wait are written, and what the system refused is told on standard error. Its exit status.
pub fn finish(system: &mut System, name: &[u8], out: &[u8], s: Stream) -> ExitCode {
    if let Some(failure) = s.failed {
        return fail(system, name, failure);
    }
    match flush(system, out, s.waiting) {
        Ok(()) => ExitCode::SUCCESS,
        Err(_) => fail(system, name, Failure::Writing),
    }
}

// The name of the program, what could not be read or written, and the system's own word for it.
fn fail(system: &System, name: &[u8], failure: Failure) -> ExitCode {
    let what = match failure {
        Failure::Reading => b": standard input".as_slice(),
        Failure::Writing => b": standard output".as_slice(),
    };
    let mut text = [0u8; TEXT];
    let n = join(&mut text, name, what);
    system.tell(first_of(&text, n));
    system.tell(b": ");
    if let Some(e) = system.refused() {
        let mut said = [0u8; SAID];
        let end = put_word(&mut said, &e);
        system.tell(before_number(first_of(&said, end)));
    }
    system.tell(b"\n");
    ExitCode::FAILURE
}

// The word for what was refused, from the output's start on, as far as it fits; where it ends.
fn put_word(out: &mut [u8], e: &io::Error) -> usize {
    let all = out.len();
    let mut left: &mut [u8] = out;
    let _ = write!(left, "{e}");
    minus_or_zero(all, left.len())
}

// A word of the system without its number, which stands behind it between parentheses.
fn before_number(said: &[u8]) -> &[u8]
    ensures { result.now ≡ take (length result.now) said.now }
{
    let number = b" (os error ".as_slice();
    for at in 0..said.len() {
        if rest(said, at).starts_with(number) {
            return first_of(said, at);
        }
    }
    said
}

// One text behind the other, from the output's start on; where they end.
fn join(out: &mut [u8], first: &[u8], second: &[u8]) -> usize
    ensures { Put out.old 0 (first.now ++ second.now) out.new result }
{
    let at = put_run(out, 0, first);
    put_run(out, at, second)
}
