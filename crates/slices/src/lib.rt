// Parts of a line or of a table: what is left of them, what they begin with, the bytes and numbers that stand at a place. Every part is
// looked at no further than it goes, so that nothing is asked of a caller.
#![tactic(auto)]

ghost use Rattle.std.specs.Prelude.{ℕ, ◌≡◌, ◌<◌, ◌∷◌, [], ◌+◌, ◌-◌, min, get_or, take, drop};
ghost use Rattle.lang.specs.Re.{rng};
ghost use Rattle.rules.specs.Texts.{first_in, starts_with};
ghost use Rattle.slices.specs.Numbers.{u16_at, u32_at, u64_at};

// ---- parts

// n, or `all` where n is more.
pub fn within(n: usize, all: usize) -> usize
    ensures { result ≡ min n all }
{
    n.min(all)
}

// A part without its first n bytes; empty where it has no more.
pub fn rest(s: &[u8], n: usize) -> &[u8]
    ensures { result.now ≡ drop n s.now }
{
    s.get(n..).unwrap_or(&[])
}

// The first n bytes of a part, as far as it goes.
pub fn first_of(s: &[u8], n: usize) -> &[u8]
    ensures { result.now ≡ take n s.now }
{
    s.get(..n).unwrap_or(s)
}

// The n bytes of a part that begin at a place, as far as they are there.
pub fn part(s: &[u8], at: usize, n: usize) -> &[u8]
    ensures { result.now ≡ take n (drop at s.now) }
{
    first_of(rest(s, at), n)
}

// ---- what a part begins with

// Whether a part begins with a byte.
pub fn begins_with(s: &[u8], b: u8) -> bool
    ensures { result ≡ starts_with (b ∷ []) s.now }
{
    s.first() == Some(&b)
}

// Whether a part begins with a byte from one to another.
pub fn begins_in(s: &[u8], from: u8, to: u8) -> bool
    ensures { result ≡ first_in (rng from to ∷ []) s.now }
{
    matches!(s.first(), Some(&b) if from <= b && b <= to)
}

// ---- places

// a - b, and 0 where b is more.
pub fn minus_or_zero(a: usize, b: usize) -> usize
    ensures { result ≡ a - b }
{
    a.saturating_sub(b)
}

// n bytes further in a part of `all` bytes, as far as it goes.
pub fn advance(at: usize, n: usize, all: usize) -> usize
    ensures { result ≡ min (at + n) all }
{
    at.saturating_add(n).min(all)
}

// ---- bytes and numbers

// The byte of a part at a place; 0 past its end.
pub fn byte_of(s: &[u8], i: usize) -> u8
    ensures { result ≡ get_or s.now i 0 }
{
    s.get(i).copied().unwrap_or(0)
}

// The N bytes that a part begins with; 0 past its end.
fn first_bytes<const N: usize>(s: &[u8]) -> [u8; N]
    ensures { (i : ℕ) → i < N → get_or result i 0 ≡ get_or s.now i 0 }
{
    if let Some(bytes) = s.first_chunk() {
        return *bytes;
    }
    let mut bytes = [0; N];
    // No `copy_from_slice`: it calls `memmove`, which the archive for C would need from outside.
    for i in 0..N {
        bytes[i] = byte_of(s, i);
    }
    bytes
}

// The two bytes that a part begins with, the lower first; 0 past its end.
pub fn u16_at(s: &[u8]) -> u16
    ensures { result ≡ u16_at s.now }
{
    u16::from_le_bytes(first_bytes(s))
}

// The four bytes that a part begins with, the lowest first; 0 past its end.
pub fn u32_at(s: &[u8]) -> u32
    ensures { result ≡ u32_at s.now }
{
    u32::from_le_bytes(first_bytes(s))
}

// The eight bytes that a part begins with.
pub fn u64_at(s: &[u8]) -> u64
    ensures { result ≡ u64_at s.now }
{
    u64::from_le_bytes(first_bytes(s))
}
