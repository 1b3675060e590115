// An answer handed to a caller who has it in bytes. Document 02, M-108: number, place and length are packed in a lent buffer, two bytes
// each, the lowest first, and the number is returned; with fewer than six bytes for them both buffers are cleared and 8 is returned.
#![tactic(auto)]

ghost use Rattle.std.specs.Prelude.{◌≡◌, length};
ghost use Rattle.put_bytes.specs.Puts.{Put};
ghost use Rattle.answers.specs.Delivered.{answered};
ghost use Rattle.pack_answer.specs.Handed.{short, packed_of, handed, handed_of};

use answers::numbers;
use faults::Refusal;
use put_bytes::{clear, clear_from, put_le};

// Bytes of a packed answer.
const PACKED_SIZE: usize = 6;

// A number as far as two bytes hold it.
fn short(n: usize) -> u16
    ensures { result ≡ short n }
{
    u16::try_from(n).unwrap_or(u16::MAX)
}

// The three numbers, from the start of a buffer.
fn pack(packed: &mut [u8], number: u16, place: u16, len: u16) -> usize
    ensures { Put packed.old 0 (packed_of number place len) packed.new result }
{
    let second = put_le(packed, 0, number as u64, 2);
    let third = put_le(packed, second, place as u64, 2);
    put_le(packed, third, len as u64, 2)
}

// The answer of a call, whose output is there already.
pub fn hand_over(a: Result<usize, Refusal>, out: &mut [u8], packed: &mut [u8]) -> u16
    ensures { handed result out.new packed.new ≡ handed_of (length out.old) (answered a out.old) (length packed.old) }
{
    if packed.len() < PACKED_SIZE {
        clear(out);
        clear(packed);
        return 8;
    }
    let (number, place, len) = numbers(a);
    let number = short(number);
    let end = pack(packed, number, short(place), short(len));
    clear_from(packed, end);
    number
}
