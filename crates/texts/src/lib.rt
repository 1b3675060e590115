// Texts and names: which bytes they are made of, where one ends, and whether bytes are a name. Document 01, "Shape of a line"; the brackets
// inside a name: document 02, M-100.
#![tactic(auto)]

ghost use Rattle.std.specs.Prelude.{◌<◌, ◌≡◌, true};
ghost use Rattle.lang.specs.Re.{in_c};
ghost use Rattle.rules.specs.Bytes.{text_byte};
ghost use Rattle.rules.specs.Texts.{name_brackets, is_name};
ghost use Rattle.texts.specs.Leading.{printable, leading_in};
ghost use Rattle.texts.specs.Names.{goes_on, open_behind, name_end_of, name_length};

// How many bytes of a part go on with a name, and how many brackets are open behind them.
#[derive(Drop)]
pub struct NameEnd {
    pub len: usize,
    pub depth: usize,
}

fn is_printable(b: u8) -> bool
    ensures { result ≡ in_c printable b }
{
    matches!(b, b' '..=b'~')
}

// ---- texts

// Whether a byte may stand in a text.
#[tactic(auto, using(crate::proofs::Classes::text_by_lem))]
fn is_text_byte(b: u8) -> bool
    ensures { result ≡ in_c text_byte b }
{
    is_printable(b) && b != b'{' && b != b'}'
}

// How many bytes of a text a part begins with.
pub fn text_len(s: &[u8]) -> usize
    ensures { result ≡ leading_in text_byte s.now }
{
    s.iter().position(|&b| !is_text_byte(b)).unwrap_or(s.len())
}

// ---- names

// Whether a byte goes on with a name in which `depth` brackets are open: where none is, `]` stands behind the name.
#[tactic(auto, using(crate::proofs::Classes::goes_by))]
fn goes_on(b: u8, depth: usize) -> bool
    ensures { result ≡ goes_on name_brackets depth b }
{
    if b == b']' {
        0 < depth
    } else {
        is_printable(b)
    }
}

// How many brackets are open behind a byte that goes on with a name.
#[tactic(auto, using(crate::proofs::Classes::goes_by, crate::proofs::Classes::open_by))]
fn open_behind(b: u8, depth: usize) -> usize
    requires { (depth < 18446744073709551615) × (goes_on name_brackets depth b ≡ true) }
    ensures { result ≡ open_behind name_brackets depth b }
{
    match b {
        b'[' => depth + 1,
        b']' => depth - 1,
        _ => depth,
    }
}

// How far the name goes that a part begins with: brackets are counted, so that a `]` that closes one inside the name does not end it.
pub fn name_end(s: &[u8]) -> NameEnd
    ensures { result ≡ name_end_of s.now }
{
    let mut depth: usize = 0;
    for (len, &b) in s.iter().enumerate() {
        if !goes_on(b, depth) {
            return NameEnd { len, depth };
        }
        depth = open_behind(b, depth);
    }
    NameEnd {
        len: s.len(),
        depth,
    }
}

// How many bytes of a name a part begins with.
pub fn name_len(s: &[u8]) -> usize
    ensures { result ≡ name_length s.now }
{
    name_end(s).len
}

// Whether bytes are a name: one or more, each goes on with it, and no bracket is left open. The scan tells it of the names in a line; this is
// for names that are handed over by themselves, in name books (M-106), or stand in a text, in sequences (M-105). Nothing asks yet.
#[tactic(auto, using(crate::proofs::NameEnds::no_name, crate::proofs::NameEnds::name_closed))]
pub fn is_name(s: &[u8]) -> bool
    ensures { result ≡ is_name s.now }
{
    let end = name_end(s);
    !s.is_empty() && end.len == s.len() && end.depth == 0
}
