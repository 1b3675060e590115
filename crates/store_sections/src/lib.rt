// The page of a stored table: six sections, each with a cursor of its own, and the header that says where they begin.
#![tactic(auto)]

ghost use Rattle.std.specs.Prelude.{◌≡◌};
ghost use Rattle.put_bytes.specs.Puts.{Put};
ghost use Rattle.store_sections.specs.Pages.{at, moved};
ghost use Rattle.store_sections.specs.Headers.{behind, starts_of, end_at, pair, Headed};
ghost use Rattle.layout.specs.Editions.{edition_of};

use counts::Counts;
use layout::{
    ANNOTATION_SECTION, Edition, HEADER_SIZE, ISOTOPE_SECTION, ISOTOPE_SIZE, ITEM_SECTION,
    ITEM_SIZE, LOSS_SECTION, LOSS_SIZE, TEXT_SECTION, UNIT_SECTION, UNIT_SIZE, annotation_size,
    edition_number,
};

// Where the next byte of each section goes. Its fields are those of Counts, and it is a type of its own, so that no count is taken for
// a place.
#[derive(Clone, Copy)]
pub struct Cursors {
    pub annotations: usize,
    pub losses: usize,
    pub isotopes: usize,
    pub items: usize,
    pub units: usize,
    pub text: usize,
}

// The cursor of section j, in the order of the sections; that of a section that there is not stands behind every output.
pub fn cursor(c: Cursors, j: usize) -> usize
    ensures { result ≡ at j c }
{
    match j {
        ANNOTATION_SECTION => c.annotations,
        LOSS_SECTION => c.losses,
        ISOTOPE_SECTION => c.isotopes,
        ITEM_SECTION => c.items,
        UNIT_SECTION => c.units,
        TEXT_SECTION => c.text,
        _ => usize::MAX,
    }
}

// The cursors, with that of section j set to r.
pub fn with_cursor(c: Cursors, j: usize, r: usize) -> Cursors
    ensures { result ≡ moved j r c }
{
    match j {
        ANNOTATION_SECTION => Cursors {
            annotations: r,
            ..c
        },
        LOSS_SECTION => Cursors { losses: r, ..c },
        ISOTOPE_SECTION => Cursors { isotopes: r, ..c },
        ITEM_SECTION => Cursors { items: r, ..c },
        UNIT_SECTION => Cursors { units: r, ..c },
        TEXT_SECTION => Cursors { text: r, ..c },
        _ => c,
    }
}

// The place behind `n` things of a size, or the largest place where that would not fit.
pub fn place_behind(at: usize, n: usize, size: usize) -> usize
    ensures { result ≡ behind at n size }
{
    at.saturating_add(n.saturating_mul(size))
}

// Where each section of a table of an edition begins.
pub fn starts(edition: Edition, n: Counts) -> Cursors
    ensures { result ≡ starts_of (edition_of edition) n }
{
    let losses = place_behind(HEADER_SIZE, n.annotations, annotation_size(edition));
    let isotopes = place_behind(losses, n.losses, LOSS_SIZE);
    let items = place_behind(isotopes, n.isotopes, ISOTOPE_SIZE);
    let units = place_behind(items, n.items, ITEM_SIZE);
    let text = place_behind(units, n.units, UNIT_SIZE);
    Cursors {
        annotations: HEADER_SIZE,
        losses,
        isotopes,
        items,
        units,
        text,
    }
}

// How many bytes the whole table has.
pub fn size_of(edition: Edition, n: Counts) -> usize
    ensures { result ≡ end_at (edition_of edition) n }
{
    let c = starts(edition, n);
    place_behind(c.text, n.text, 1)
}

// Two numbers of two bytes.
fn put_pair(out: &mut [u8], at: usize, a: usize, b: usize) -> usize
    ensures { Put out.old at (pair a b) out.new result }
{
    let next = put_bytes::put_le(out, at, a as u64, 2);
    put_bytes::put_le(out, next, b as u64, 2)
}

// The header: edition and length, then of each section how many there are and where it begins.
pub fn put_header(out: &mut [u8], edition: Edition, n: Counts) -> Cursors
    ensures { Headed (edition_of edition) out.old n out.new result }
{
    let c = starts(edition, n);
    let end = place_behind(c.text, n.text, 1);
    let mut at = put_pair(out, 0, edition_number(edition), end);
    at = put_pair(out, at, n.annotations, c.annotations);
    at = put_pair(out, at, n.losses, c.losses);
    at = put_pair(out, at, n.isotopes, c.isotopes);
    at = put_pair(out, at, n.items, c.items);
    at = put_pair(out, at, n.units, c.units);
    put_pair(out, at, n.text, c.text);
    c
}
