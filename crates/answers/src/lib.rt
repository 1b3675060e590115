// What a call answers, a number of bytes or a refusal, and how a line is handed over. Document 01, "Numbers of refusal": a line to be written is tested against 1 and 8, and
// an output holds the result and zeros behind it, or zeros.
#![tactic(auto)]

ghost use Rattle.std.specs.Prelude.{◌≡◌, length};
ghost use Rattle.answers.specs.Delivered.{answered, numbers_of, refused_of, line_over, closed_over};
ghost use Rattle.answers.specs.Behind.{capped};

use faults::{Refusal, Why};
use limits::MAX_LINE;
use put_bytes::{clear, clear_from, put_run};

// A refusal: nothing was written.
pub fn refuse(why: Why, place: usize) -> Result<usize, Refusal>
    ensures { result ≡ refused_of why place }
{
    Err(Refusal { why, place })
}

// The number of refusal, or 0; its place, or the bytes needed; and how many bytes of the output were written.
pub fn numbers(a: Result<usize, Refusal>) -> (usize, usize, usize)
    ensures { result ≡ numbers_of a }
{
    match a {
        Ok(len) => (0, 0, len),
        Err(r) => (r.why.number(), r.place, 0),
    }
}

// A line of n bytes that was put into an output, cut at its end: against its bound and the output.
pub fn close_line(out: &mut [u8], n: usize) -> Result<usize, Refusal>
    ensures { answered result out.new ≡ closed_over out.old n }
{
    if MAX_LINE < n {
        clear(out);
        return refuse(Why::LineTooLong, MAX_LINE);
    }
    if out.len() < n {
        clear(out);
        return refuse(Why::OutputTooShort, n);
    }
    clear_from(out, n);
    Ok(n)
}

// A line that is found to be a table's.
pub fn write_line(line: &[u8], out: &mut [u8]) -> Result<usize, Refusal>
    ensures { answered result out.new ≡ line_over line.now (length out.old) }
{
    let n = put_run(out, 0, line);
    close_line(out, n)
}

// a + b, or the largest place there is: what an answer tells of a part is moved by where the part begins.
pub fn plus(a: usize, b: usize) -> usize
    ensures { result ≡ capped a b }
{
    a.saturating_add(b)
}
