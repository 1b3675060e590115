// A sign and a count in preferred spelling, as a loss, an adduct item or an isotope begins with. Document 01, "One table, several
// spellings".
#![tactic(auto)]

ghost use Rattle.put_bytes.specs.Puts.{Put};
ghost use Rattle.print_count.specs.Heads.{sign_bytes, count_text, head_text};

use changes::Sign;
use numbers::put_number;
use put_bytes::put8;

// What was spelled anew: the place behind it in the output, and how many bytes of the line it was.
#[derive(Drop)]
pub struct Respelled {
    pub to: usize,
    pub len: usize,
}

fn put_sign(out: &mut [u8], to: usize, sign: Sign) -> usize
    ensures { Put out.old to (sign_bytes sign) out.new result }
{
    match sign {
        Sign::Minus => put8(out, to, b'-'),
        Sign::Plus => put8(out, to, b'+'),
    }
}

// A count; a 1 is left out.
fn put_count(out: &mut [u8], to: usize, n: u32) -> usize
    ensures { Put out.old to (count_text n) out.new result }
{
    if n <= 1 {
        to
    } else {
        put_number(out, to, n as u64)
    }
}

// Both.
pub fn put_head(out: &mut [u8], to: usize, sign: Sign, count: u32) -> usize
    ensures { Put out.old to (head_text sign count) out.new result }
{
    let at = put_sign(out, to, sign);
    put_count(out, at, count)
}
