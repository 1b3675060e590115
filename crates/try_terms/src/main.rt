// Numbers, decimals, symbols and formulas, one to a line of standard input after a letter and a space:
//   n TEXT   the number that TEXT begins with: value (no more than a million), bytes
//   d TEXT   the decimal: bytes, then value without point, decimals and spelling, or `past`
//   s TEXT   the element symbol: atomic number, bytes, symbol
//   f TEXT   the formula: units, bytes, number and place of the first broken limit, preferred spelling
// Any other line is answered by `?`. Of a line longer than half of the buffer the bytes that are kept are answered. Which lines are found is
// stated by `next_line`, and `Terms::answer` states what is said to the line that was found; what is written cannot be stated.
#![tactic(auto)]

ghost use Rattle.std.specs.Prelude.{◌≡◌};
ghost use Rattle.put_bytes.specs.Puts.{Put};
ghost use Rattle.io_lines.specs.Streams.{line_in};
ghost use Rattle.io_lines.specs.Found.{Next};
ghost use Rattle.try_terms.specs.Answered.{Answered};
ghost use Rattle.try_terms.specs.Lines.{number_said, decimal_said, symbol_said, refusal_text, formula_said, answer_to};

use elements::read_element;
use faults::Refusal;
use io_answers::put_field;
use io_lines::{Stream, System, next_line, room};
use numbers::{FirstByte, put_decimal, put_number, read_decimal, read_number};
use put_bytes::{put_run, put8};
use put_formula::{put_preferred, put_symbol};
use read_formula::formula;
use run_program::{AnswersAlike, answer_all_alike, was_asked};
use slices::rest;
use std::process::ExitCode;

// The bytes of input that are held.
const BUFFER: usize = 65536;

// The longest answer: the bytes of a buffer, which a formula in preferred spelling does not exceed; four numbers of at most 20 digits,
// each with a blank; a line feed.
const ANSWER: usize = BUFFER + 128;

// Room for two of them.
const ANSWERS: usize = 2 * ANSWER;

fn main(rt: HostRuntime) -> ExitCode {
    if let Some(status) = was_asked(
        &rt,
        b"try_terms",
        b"try_terms reads numbers, decimals, element symbols and formulas, each from the beginning of a text.

Standard input has one question a line: a letter, a space and a text.
  n TEXT   the number: value (no more than a million), bytes
  d TEXT   the decimal: bytes, then value without point, decimals and spelling, or `past`
  s TEXT   the element symbol: atomic number, bytes, symbol
  f TEXT   the formula: units, bytes, number and place of the first broken limit, preferred spelling
Lines end at line feeds, and the last may lack its own.

Standard output has one answer a line, `?` where a line asks none of these. Bytes are how many bytes of
the text were read; a limit's number is 4 (a number past its bound), 5 (too many units) or 0 (none).
",
        false,
    ) {
        return status;
    }
    let mut buf = [0u8; BUFFER];
    let mut out = [0u8; ANSWERS];
    let mut system = System::begin(rt);
    answer_all_alike(&mut system, b"try_terms", &mut buf, &mut out, &mut Terms)
}

// What answers lines of this program: it keeps nothing from one to the next.
#[derive(Drop)]
struct Terms;

impl AnswersAlike<ANSWERS> for Terms {
    ghost Asked = { Unit {0} };

    ghost asked = { λ _. tt {0} };

    // In line, so that no stream is copied for each line.
    #[inline(always)]
    fn next(&mut self, system: &mut System, buf: &mut [u8], out: &[u8], s: Stream) -> Stream
        ensures found { Next buf.old s buf.new result }
        ensures kept { self.new ≡ self.old }
    {
        next_line(system, buf, out, s)
    }

    // The line that was found is answered, behind the answers that wait; a line feed ends its own.
    #[inline(always)]
    fn answer(
        &mut self,
        system: &mut System,
        buf: &[u8],
        out: &mut [u8; ANSWERS],
        s: Stream,
    ) -> Stream
        ensures kept { self.new ≡ self.old }
        ensures answered { Answered (line_in buf.now s) s out.old out.new result }
    {
        let t = room(system, out, s, ANSWER);
        let end = answer(s.line(buf), out, t.waiting);
        t.answered(put8(out, end, b'\n'))
    }
}

// The answer to a line, put at a place; where it ends.
fn answer(line: &[u8], out: &mut [u8], at: usize) -> usize
    ensures { Put out.old at (answer_to line.now) out.new result }
{
    if line.len() < 2 {
        return put8(out, at, b'?');
    }
    let text = rest(line, 2);
    match line[0] {
        b'n' => say_number(text, out, at),
        b'd' => say_decimal(text, out, at),
        b's' => say_symbol(text, out, at),
        b'f' => say_formula(text, out, at),
        _ => put8(out, at, b'?'),
    }
}

fn say_number(text: &[u8], out: &mut [u8], at: usize) -> usize
    ensures { Put out.old at (number_said text.now) out.new result }
{
    let n = read_number(text);
    let p = put_field(out, at, n.value as u64);
    put_number(out, p, n.len as u64)
}

fn say_decimal(text: &[u8], out: &mut [u8], at: usize) -> usize
    ensures { Put out.old at (decimal_said text.now) out.new result }
{
    let d = read_decimal(text, FirstByte::DigitOrPoint);
    let p = put_field(out, at, d.len as u64);
    match d.made {
        Some(x) => {
            let q = put_field(out, p, x.value());
            let r = put_field(out, q, x.places() as u64);
            put_decimal(out, r, x)
        }
        None => put_run(out, p, b"past"),
    }
}

fn say_symbol(text: &[u8], out: &mut [u8], at: usize) -> usize
    ensures { Put out.old at (symbol_said text.now) out.new result }
{
    let e = read_element(text);
    let p = put_field(out, at, e.number as u64);
    let q = put_field(out, p, e.len as u64);
    put_symbol(out, q, e.number)
}

// Its number and place; 0 0 where nothing is refused.
fn say_refusal(f: Option<Refusal>, out: &mut [u8], at: usize) -> usize
    ensures { Put out.old at (refusal_text f) out.new result }
{
    match f {
        Some(refusal) => {
            let p = put_field(out, at, refusal.why.number() as u64);
            put_field(out, p, refusal.place as u64)
        }
        None => {
            let p = put_field(out, at, 0);
            put_field(out, p, 0)
        }
    }
}

fn say_formula(text: &[u8], out: &mut [u8], at: usize) -> usize
    ensures { Put out.old at (formula_said text.now) out.new result }
{
    let f = formula(text, text.len(), None);
    let p = put_field(out, at, f.units as u64);
    let q = put_field(out, p, f.len as u64);
    let r = say_refusal(f.fault, out, q);
    put_preferred(out, r, text, f.units)
}
