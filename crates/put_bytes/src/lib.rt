// Bytes put at a cursor. A place past the output writes nothing and still counts, so that a writer learns how long its text is, and
// the cursor stops at the largest place, so that no sum is too large for any output and any text.
#![tactic(auto)]

ghost use Rattle.std.specs.Prelude.{◌+◌, ◌≡◌, ◌∷◌, [], ◌++◌, leb, length, replicate};
ghost use Rattle.lang.specs.Parts.{flat};
ghost use Rattle.rules.specs.Stored.{little};
ghost use Rattle.put_bytes.specs.Puts.{Put, cleared};

// One byte; the place behind it.
pub fn put8(out: &mut [u8], at: usize, b: u8) -> usize
    ensures { Put out.old at (b ∷ []) out.new result }
{
    if at < out.len() {
        out[at] = b;
        at + 1
    } else {
        at.saturating_add(1)
    }
}

// Whether `n` bytes fit at a place.
fn has_room(out: &[u8], at: usize, n: usize) -> bool
    ensures { result ≡ leb (at + n) (length out.now) }
{
    at <= out.len() && n <= out.len() - at
}

// The low bytes of `v`, as many as there is room for, the lowest first.
fn fill_le(part: &mut [u8], v: u64)
    ensures { part.new ≡ little (length part.old) v }
{
    let mut left = v;
    for byte in part {
        *byte = (left % 256) as u8;
        left /= 256;
    }
}

// All bytes of `s`, for which there is just room. No `copy_from_slice`: it calls `memmove`, which the archive for C would need from outside.
fn fill(part: &mut [u8], s: &[u8])
    requires { length part.old ≡ length s.now }
    ensures { part.new ≡ s.now }
{
    for (i, &b) in s.iter().enumerate() {
        part[i] = b;
    }
}

// The low `n` bytes of `v`, the lowest first. Where all fit, which is nearly always, they fill a part that is as long: no byte asks
// for room of its own, and for a width that is known their stores become one.
pub fn put_le(out: &mut [u8], at: usize, v: u64, n: usize) -> usize
    ensures { Put out.old at (little n v) out.new result }
{
    if has_room(out, at, n) {
        let end = at + n;
        fill_le(&mut out[at..end], v);
        return end;
    }
    put_le_far(out, at, v, n)
}

// The same where some do not fit: one loop for every width.
fn put_le_far(out: &mut [u8], at: usize, v: u64, n: usize) -> usize
    ensures { Put out.old at (little n v) out.new result }
{
    let mut to = at;
    let mut rest = v;
    for _ in 0..n {
        to = put8(out, to, (rest % 256) as u8);
        rest /= 256;
    }
    to
}

// All bytes of `s`; again a part is filled where they fit.
pub fn put_run(out: &mut [u8], at: usize, s: &[u8]) -> usize
    ensures { Put out.old at s.now out.new result }
{
    if has_room(out, at, s.len()) {
        let end = at + s.len();
        fill(&mut out[at..end], s);
        return end;
    }
    put_run_far(out, at, s)
}

// The same where some do not fit.
fn put_run_far(out: &mut [u8], at: usize, s: &[u8]) -> usize
    ensures { Put out.old at s.now out.new result }
{
    let mut to = at;
    for &b in s {
        to = put8(out, to, b);
    }
    to
}

// A byte, all bytes of `s`, and another byte.
pub fn put_between(out: &mut [u8], at: usize, first: u8, s: &[u8], last: u8) -> usize
    ensures { Put out.old at (first ∷ (s.now ++ (last ∷ []))) out.new result }
{
    let inside = put8(out, at, first);
    let behind = put_run(out, inside, s);
    put8(out, behind, last)
}

// All of `words`, eight bytes each, the lowest first.
pub fn put_words(out: &mut [u8], at: usize, words: &[u64]) -> usize
    ensures { Put out.old at (flat (little 8) words.now) out.new result }
{
    let mut to = at;
    for &word in words {
        to = put_le(out, to, word, 8);
    }
    to
}

// Zeros from a place on.
pub fn clear_from(out: &mut [u8], from: usize)
    ensures { out.new ≡ cleared out.old from }
{
    let from = from.min(out.len());
    out[from..].fill(0);
}

// Zeros everywhere: what is not written later is 0.
pub fn clear(out: &mut [u8])
    ensures { out.new ≡ replicate (length out.old) 0 }
{
    out.fill(0);
}
