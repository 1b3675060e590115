// Lines of input in a buffer: where a line feed stands, and what stays in the buffer of a line that goes on.
#![tactic(auto)]

ghost use Rattle.std.specs.Prelude.{◌-◌, min, ◌≡◌};
ghost use Rattle.io_parts.specs.Feeds.{LineEnd, Kept};

// How many bytes stand before the first line feed; all of them where there is none.
pub fn line_end(bytes: &[u8]) -> usize
    ensures { LineEnd bytes.now result }
{
    bytes
        .iter()
        .position(|&b| b == b'\n')
        .unwrap_or(bytes.len())
}

// How many of `all` bytes stand behind the first `from`, and `most` where they are more.
pub fn behind(all: usize, from: usize, most: usize) -> usize
    ensures { result ≡ min (all - from) most }
{
    all.saturating_sub(from).min(most)
}

// The n bytes from a place on, as far as there are so many, moved to the front; how many they are.
// A loop over places: the library has no `copy_within`.
pub fn keep(buf: &mut [u8], from: usize, n: usize) -> usize
    ensures { Kept buf.old from n buf.new result }
{
    let kept = behind(buf.len(), from, n);
    for done in 0..kept {
        buf[done] = buf[from + done];
    }
    kept
}
