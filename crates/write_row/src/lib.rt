// A stored row of a peak list, written. Document 02, M-101, M-112 and M-113: writing tests 9, 10, 20, 1, 8.
#![tactic(auto)]

ghost use Rattle.std.specs.Prelude.{◌≡◌, ◌-◌, length};
ghost use Rattle.put_bytes.specs.Puts.{Put};
ghost use Rattle.answers.specs.Delivered.{answered};
ghost use Rattle.answers.specs.Behind.{Behind};
ghost use Rattle.write_table.specs.Writings.{written_of};
ghost use Rattle.write_row.specs.Writings.{is_head, head_of, columns_text, bare_over, labelled_over, finished_over, write_row_of};

use answers::{plus, refuse};
use faults::{Refusal, Why};
use layout::ROW_HEAD_SIZE;
use numbers::{Decimal, put_decimal};
use put_bytes::{clear, clear_from, put8};
use slices::{advance, byte_of, rest, u16_at, u64_at};
use write_table::write_by;

// Where the fields of a stored row's head stand behind m/z, which stands first. `read_head` is proved to look where the head's own fields are.
const INTENSITY_AT: usize = 8;

const MZ_PLACES_AT: usize = 16;

const INTENSITY_PLACES_AT: usize = 17;

const ZERO_AT: usize = 18;

// The bytes of a stored row before its table, as they were read.
#[derive(Clone, Copy)]
pub struct Head {
    pub mz: Decimal,
    pub intensity: Decimal,
}

// Whether a part begins with a head, of which both numbers were tested: there is none where one is past its bounds.
#[tactic(auto, unfolding(crate::specs::Writings::is_head))]
fn is_head(stored: &[u8], mz: Option<Decimal>, intensity: Option<Decimal>) -> bool
    ensures { result ≡ is_head stored.now mz intensity }
{
    stored.len() >= ROW_HEAD_SIZE
        && mz.is_some()
        && intensity.is_some()
        && u16_at(rest(stored, ZERO_AT)) == 0
}

// The head of what may be a stored row. Where that is no head, Err tells what was read of it, as Ok does of a head: both numbers, 0 for one that
// is past its bounds.
#[tactic(auto, unfolding(crate::specs::Writings::good_head, crate::specs::Writings::head_in))]
pub fn read_head(stored: &[u8]) -> Result<Head, Head>
    ensures { result ≡ head_of stored.now }
{
    let mz = Decimal::new(u64_at(stored), byte_of(stored, MZ_PLACES_AT));
    let intensity = Decimal::new(
        u64_at(rest(stored, INTENSITY_AT)),
        byte_of(stored, INTENSITY_PLACES_AT),
    );
    let head = Head {
        mz: mz.unwrap_or(Decimal::zero()),
        intensity: intensity.unwrap_or(Decimal::zero()),
    };
    if is_head(stored, mz, intensity) {
        Ok(head)
    } else {
        Err(head)
    }
}

// m/z, a tab, intensity; the place behind them.
pub fn put_columns(out: &mut [u8], mz: Decimal, intensity: Decimal) -> usize
    ensures { Put out.old 0 (columns_text mz intensity) out.new result }
{
    let tab = put_decimal(out, 0, mz);
    let to = put8(out, tab, b'\t');
    put_decimal(out, to, intensity)
}

// The line of a table, written into what stands behind a place: it is not moved.
fn write_behind(machine: &[u8], table: &[u8], at: usize, out: &mut [u8]) -> Result<usize, Refusal>
    ensures { Behind at out.old out.new (written_of machine.now table.now (length out.old - at)) result }
{
    let from = advance(0, at, out.len());
    write_by(machine, table, &mut out[from..])
}

// A row without a line: its columns end at a place.
pub fn end_bare(to: usize, out: &mut [u8]) -> Result<usize, Refusal>
    ensures { answered result out.new ≡ bare_over out.old to }
{
    if out.len() < to {
        clear(out);
        return refuse(Why::OutputTooShort, to);
    }
    clear_from(out, to);
    Ok(to)
}

// A row with a line of n bytes, which stands behind the byte at a place: a tab.
fn end_labelled(n: usize, to: usize, out: &mut [u8]) -> Result<usize, Refusal>
    ensures { answered result out.new ≡ labelled_over out.old to n }
{
    let size = plus(plus(to, 1), n);
    if out.len() < size {
        clear(out);
        return refuse(Why::OutputTooShort, size);
    }
    put8(out, to, b'\t');
    Ok(size)
}

// A row whose columns end at a place, by the answer to its table, whose line stands behind the byte there.
fn finish_row(line: Result<usize, Refusal>, to: usize, out: &mut [u8]) -> Result<usize, Refusal>
    ensures { answered result out.new ≡ finished_over out.old to line }
{
    match line {
        Ok(0) => end_bare(to, out),
        Ok(len) => end_labelled(len, to, out),
        Err(line) => {
            clear(out);
            match line.why {
                Why::OutputTooShort => refuse(line.why, plus(plus(to, 1), line.place)),
                _ => Err(line),
            }
        }
    }
}

// A stored row by a lent machine.
pub fn write_row_by(machine: &[u8], stored: &[u8], out: &mut [u8]) -> Result<usize, Refusal>
    ensures { answered result out.new ≡ write_row_of machine.now stored.now (length out.old) }
{
    let Ok(head) = read_head(stored) else {
        clear(out);
        return refuse(Why::NoTable, 0);
    };
    let to = put_columns(out, head.mz, head.intensity);
    let line = write_behind(machine, rest(stored, ROW_HEAD_SIZE), plus(to, 1), out);
    finish_row(line, to, out)
}
