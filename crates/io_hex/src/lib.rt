// Bytes read from hexadecimal digits, two for each byte, the high one first; `io_answers` puts them so. Capitals are digits too.
#![tactic(auto)]

ghost use Rattle.std.specs.Prelude.{◌≡◌};
ghost use Rattle.put_bytes.specs.Puts.{Put};
ghost use Rattle.io_hex.specs.Hexes.{hex_value, byte_of, spelled, unhexed};

use put_bytes::put8;

// What a digit counts.
#[tactic(auto, unfolding(crate::specs::Hexes::hex_value))]
fn hex_value(b: u8) -> Option<u8>
    ensures { result ≡ hex_value b }
{
    match b {
        b'0'..=b'9' => Some(b - b'0'),
        b'A'..=b'F' => Some(b - b'A' + 10),
        b'a'..=b'f' => Some(b - b'a' + 10),
        _ => None,
    }
}

// The byte of two digits; what is none counts nothing.
fn byte_of(high: u8, low: u8) -> u8
    ensures { result ≡ byte_of high low }
{
    hex_value(high).unwrap_or(0) * 16 + hex_value(low).unwrap_or(0)
}

// Whether all are digits, and an even number of them.
pub fn is_hex(s: &[u8]) -> bool
    ensures { result ≡ spelled s.now }
{
    s.len() % 2 == 0 && s.iter().all(|&b| hex_value(b).is_some())
}

// The bytes of all pairs.
pub fn put_unhexed(out: &mut [u8], at: usize, s: &[u8]) -> usize
    ensures { Put out.old at (unhexed s.now) out.new result }
{
    let mut to = at;
    for pair in s.chunks_exact(2) {
        to = put8(out, to, byte_of(pair[0], pair[1]));
    }
    to
}
