// What a line of the input asks, where it begins with the length of its output; and what is answered, as a line of text: its number, place and length, and the table in hexadecimal digits, `-` where there is none; or
// the digits alone, and for a refusal `!`, the number and the place.
#![tactic(auto)]

ghost use Rattle.std.specs.Prelude.{◌/◌, ◌%◌, ◌≡◌, true};
ghost use Rattle.lang.specs.Parts.{flat};
ghost use Rattle.put_bytes.specs.Puts.{Put};
ghost use Rattle.io_answers.specs.Asked.{behind_size, room_in};
ghost use Rattle.io_answers.specs.Tells.{hex_digit, hex_byte, field, shown, told, refusal_text, told_briefly};

use answers::numbers;
use faults::Refusal;
use numbers::{put_number, read_number};
use put_bytes::put8;
use slices::{first_of, rest};

// ---- what is asked

// What stands behind the number and the blank that a sized line begins with.
pub fn behind_size<'a>(s: &'a [u8]) -> &'a [u8]
    ensures { result.now ≡ behind_size s.now }
{
    let n = read_number(s);
    rest(rest(s, n.len), 1)
}

// That number, or all where they are fewer.
pub fn size_in(s: &[u8], all: usize) -> usize
    ensures { result ≡ room_in true s.now all }
{
    let n = read_number(s);
    all.min(n.value as usize)
}

// ---- what is answered, put at a cursor, whose bytes the contracts say one by one: `Display` would write to a formatter

// The digit of a byte's low half.
#[tactic(auto, unfolding(crate::specs::Tells::hex_digit))]
fn low_digit(b: u8) -> u8
    ensures { result ≡ hex_digit (b % 16) }
{
    let d = b % 16;
    if d < 10 { b'0' + d } else { b'a' + (d - 10) }
}

// Two digits, the high one first.
fn put_byte(out: &mut [u8], at: usize, b: u8) -> usize
    ensures { Put out.old at (hex_byte b) out.new result }
{
    let p = put8(out, at, low_digit(b / 16));
    put8(out, p, low_digit(b))
}

// Two digits for each byte.
pub fn put_hex(out: &mut [u8], at: usize, s: &[u8]) -> usize
    ensures { Put out.old at (flat hex_byte s.now) out.new result }
{
    let mut to = at;
    for b in s {
        to = put_byte(out, to, *b);
    }
    to
}

// The bytes of a table in digits, or that there are none.
#[tactic(auto, unfolding(crate::specs::Tells::shown))]
fn put_shown(out: &mut [u8], at: usize, s: &[u8]) -> usize
    ensures { Put out.old at (shown s.now) out.new result }
{
    if s.is_empty() {
        return put8(out, at, b'-');
    }
    put_hex(out, at, s)
}

// A number and a space.
pub fn put_field(out: &mut [u8], at: usize, n: u64) -> usize
    ensures { Put out.old at (field n) out.new result }
{
    let p = put_number(out, at, n);
    put8(out, p, b' ')
}

// The answer to a line, and the table that it speaks of; it ends with a line feed.
pub fn put_answer(out: &mut [u8], at: usize, a: Result<usize, Refusal>, table: &[u8]) -> usize
    ensures { Put out.old at (told a table.now) out.new result }
{
    let (number, place, len) = numbers(a);
    let p = put_field(out, at, number as u64);
    let q = put_field(out, p, place as u64);
    let r = put_field(out, q, len as u64);
    let t = put_shown(out, r, first_of(table, len));
    put8(out, t, b'\n')
}

// `!`, the number of a refusal, a space and the place.
pub fn put_refusal(out: &mut [u8], at: usize, r: Refusal) -> usize
    ensures { Put out.old at (refusal_text r) out.new result }
{
    let p = put8(out, at, b'!');
    let q = put_field(out, p, r.why.number() as u64);
    put_number(out, q, r.place as u64)
}

// The table that an answer speaks of, or its refusal; it ends with a line feed.
pub fn put_briefly(out: &mut [u8], at: usize, a: Result<usize, Refusal>, table: &[u8]) -> usize
    ensures { Put out.old at (told_briefly a table.now) out.new result }
{
    match a {
        Ok(len) => {
            let p = put_hex(out, at, first_of(table, len));
            put8(out, p, b'\n')
        }
        Err(r) => {
            let p = put_refusal(out, at, r);
            put8(out, p, b'\n')
        }
    }
}
