// The stored table in numbers: how many bytes its records have, where their fields stand, and the order of its sections. Every other
// crate takes them from here. That they are the definitions' numbers, which are reckoned from the fields of the records, is the
// contract of the functions at the end.
#![tactic(auto)]

ghost use Rattle.std.specs.Prelude.{◌≡◌, [], ◌∷◌};
ghost use Rattle.rules.specs.Stored.{header_size};
ghost use Rattle.rules.specs.Rows.{row_head_size};
ghost use Rattle.rules.specs.Editions.{ed2, edition_number};
ghost use Rattle.layout.specs.Editions.{edition_of, named_edition};
ghost use Rattle.rules.specs.Layout.{common_width, annotation_width, loss_width, isotope_width, item_width, unit_width, residues_at};
ghost use Rattle.rules.specs.Layout.{kind_at, marked_at, analyte_present_at, letter_at, analyte_at, position_at, last_at, charge_at, deviation_kind_at, deviation_places_at};
ghost use Rattle.rules.specs.Layout.{confidence_present_at, confidence_places_at, deviation_at, confidence_at, text_length_at, unit_count_at, loss_count_at, isotope_count_at, item_count_at};
ghost use Rattle.rules.specs.Layout.{sign_at, content_kind_at, count_at, content_size_at, isotope_sign_at, isotope_kind_at, isotope_shift_at, isotope_nucleons_at, isotope_element_at};
ghost use Rattle.rules.specs.Layout.{unit_nucleons_at, unit_element_at, atom_count_at};
ghost use Rattle.rules.specs.Layout.{edition_at, length_at, annotation_pair_at, loss_pair_at, isotope_pair_at, item_pair_at, unit_pair_at, text_pair_at};
ghost use Rattle.rules.specs.Layout.{annotation_section, loss_section, isotope_section, item_section, unit_section, text_section};

// The editions of a stored table: document 01's, and that of document 02 (M-105), whose annotations have a count of residues more.
#[derive(Clone, Copy)]
pub enum Edition {
    First,
    Second,
}

// The number that the header of an edition begins with.
pub fn edition_number(e: Edition) -> usize
    ensures { result ≡ edition_number (edition_of e) }
{
    match e {
        Edition::First => 1,
        Edition::Second => 2,
    }
}

// The edition that a header names; a header that names none is taken for one of the first, which no `TryFrom` would say.
pub fn edition_named(number: usize) -> Edition
    ensures { result ≡ named_edition number }
{
    if number == 2 {
        Edition::Second
    } else {
        Edition::First
    }
}

// How many bytes an annotation has in an edition.
pub fn annotation_size(e: Edition) -> usize
    ensures { result ≡ annotation_width (edition_of e) }
{
    match e {
        Edition::First => COMMON_SIZE,
        Edition::Second => ANNOTATION_SIZE,
    }
}

// ---- how many bytes the header and each record have

pub const HEADER_SIZE: usize = 28;

// Of an annotation, what every edition has.
pub const COMMON_SIZE: usize = 36;

// Of an annotation of the second edition.
pub const ANNOTATION_SIZE: usize = 38;

pub const LOSS_SIZE: usize = 6;

pub const ISOTOPE_SIZE: usize = 8;

pub const ITEM_SIZE: usize = 6;

pub const UNIT_SIZE: usize = 6;

// Of a stored row, the bytes before its table (document 02, M-101).
pub const ROW_HEAD_SIZE: usize = 20;

// ---- where the fields of an annotation stand; of the second edition the residues too

pub const RESIDUES_AT: usize = 36;

pub const KIND_AT: usize = 0;

pub const MARKED_AT: usize = 1;

pub const ANALYTE_PRESENT_AT: usize = 2;

pub const LETTER_AT: usize = 3;

pub const ANALYTE_AT: usize = 4;

pub const POSITION_AT: usize = 6;

pub const LAST_AT: usize = 8;

pub const CHARGE_AT: usize = 10;

pub const DEVIATION_KIND_AT: usize = 11;

pub const DEVIATION_PLACES_AT: usize = 12;

pub const CONFIDENCE_PRESENT_AT: usize = 13;

pub const CONFIDENCE_PLACES_AT: usize = 14;

pub const DEVIATION_AT: usize = 16;

pub const CONFIDENCE_AT: usize = 24;

pub const TEXT_LENGTH_AT: usize = 28;

pub const UNIT_COUNT_AT: usize = 30;

pub const LOSS_COUNT_AT: usize = 32;

pub const ISOTOPE_COUNT_AT: usize = 33;

pub const ITEM_COUNT_AT: usize = 34;

// ---- of a loss and of an adduct item

pub const SIGN_AT: usize = 0;

pub const CONTENT_KIND_AT: usize = 1;

pub const COUNT_AT: usize = 2;

pub const CONTENT_SIZE_AT: usize = 4;

// ---- of an isotope

pub const ISOTOPE_SIGN_AT: usize = 0;

pub const ISOTOPE_KIND_AT: usize = 1;

pub const ISOTOPE_SHIFT_AT: usize = 2;

pub const ISOTOPE_NUCLEONS_AT: usize = 4;

pub const ISOTOPE_ELEMENT_AT: usize = 6;

// ---- of a unit

pub const UNIT_NUCLEONS_AT: usize = 0;

pub const UNIT_ELEMENT_AT: usize = 2;

pub const ATOM_COUNT_AT: usize = 4;

// ---- of the header: edition and length, then the (count, offset) pair of each section

pub const EDITION_AT: usize = 0;

pub const LENGTH_AT: usize = 2;

pub const ANNOTATION_PAIR_AT: usize = 4;

pub const LOSS_PAIR_AT: usize = 8;

pub const ISOTOPE_PAIR_AT: usize = 12;

pub const ITEM_PAIR_AT: usize = 16;

pub const UNIT_PAIR_AT: usize = 20;

pub const TEXT_PAIR_AT: usize = 24;

// ---- the sections, in the order in which they follow the header

pub const ANNOTATION_SECTION: usize = 0;

pub const LOSS_SECTION: usize = 1;

pub const ISOTOPE_SECTION: usize = 2;

pub const ITEM_SECTION: usize = 3;

pub const UNIT_SECTION: usize = 4;

pub const TEXT_SECTION: usize = 5;

// ---- that these are the definitions' numbers
// By contracts, since a `prove!` in a constant reads code alone, and no definition.

fn sizes() -> [usize; 9]
    ensures { result ≡ header_size ∷ common_width ∷ annotation_width ed2 ∷ residues_at ∷ loss_width ∷ isotope_width ∷ item_width ∷ unit_width ∷ row_head_size ∷ [] }
{
    [
        HEADER_SIZE,
        COMMON_SIZE,
        ANNOTATION_SIZE,
        RESIDUES_AT,
        LOSS_SIZE,
        ISOTOPE_SIZE,
        ITEM_SIZE,
        UNIT_SIZE,
        ROW_HEAD_SIZE,
    ]
}

fn places_before_the_charge() -> [usize; 7]
    ensures { result ≡ kind_at ∷ marked_at ∷ analyte_present_at ∷ letter_at ∷ analyte_at ∷ position_at ∷ last_at ∷ [] }
{
    [
        KIND_AT,
        MARKED_AT,
        ANALYTE_PRESENT_AT,
        LETTER_AT,
        ANALYTE_AT,
        POSITION_AT,
        LAST_AT,
    ]
}

fn places_from_the_charge() -> [usize; 12]
    ensures { result ≡ charge_at ∷ deviation_kind_at ∷ deviation_places_at ∷ confidence_present_at ∷ confidence_places_at ∷ deviation_at ∷ confidence_at
        ∷ text_length_at ∷ unit_count_at ∷ loss_count_at ∷ isotope_count_at ∷ item_count_at ∷ [] }
{
    [
        CHARGE_AT,
        DEVIATION_KIND_AT,
        DEVIATION_PLACES_AT,
        CONFIDENCE_PRESENT_AT,
        CONFIDENCE_PLACES_AT,
        DEVIATION_AT,
        CONFIDENCE_AT,
        TEXT_LENGTH_AT,
        UNIT_COUNT_AT,
        LOSS_COUNT_AT,
        ISOTOPE_COUNT_AT,
        ITEM_COUNT_AT,
    ]
}

fn places_in_parts() -> [usize; 12]
    ensures { result ≡ sign_at ∷ content_kind_at ∷ count_at ∷ content_size_at ∷ isotope_sign_at ∷ isotope_kind_at ∷ isotope_shift_at ∷ isotope_nucleons_at
        ∷ isotope_element_at ∷ unit_nucleons_at ∷ unit_element_at ∷ atom_count_at ∷ [] }
{
    [
        SIGN_AT,
        CONTENT_KIND_AT,
        COUNT_AT,
        CONTENT_SIZE_AT,
        ISOTOPE_SIGN_AT,
        ISOTOPE_KIND_AT,
        ISOTOPE_SHIFT_AT,
        ISOTOPE_NUCLEONS_AT,
        ISOTOPE_ELEMENT_AT,
        UNIT_NUCLEONS_AT,
        UNIT_ELEMENT_AT,
        ATOM_COUNT_AT,
    ]
}

fn places_in_the_header() -> [usize; 8]
    ensures { result ≡ edition_at ∷ length_at ∷ annotation_pair_at ∷ loss_pair_at ∷ isotope_pair_at ∷ item_pair_at ∷ unit_pair_at ∷ text_pair_at ∷ [] }
{
    [
        EDITION_AT,
        LENGTH_AT,
        ANNOTATION_PAIR_AT,
        LOSS_PAIR_AT,
        ISOTOPE_PAIR_AT,
        ITEM_PAIR_AT,
        UNIT_PAIR_AT,
        TEXT_PAIR_AT,
    ]
}

fn sections() -> [usize; 6]
    ensures { result ≡ annotation_section ∷ loss_section ∷ isotope_section ∷ item_section ∷ unit_section ∷ text_section ∷ [] }
{
    [
        ANNOTATION_SECTION,
        LOSS_SECTION,
        ISOTOPE_SECTION,
        ITEM_SECTION,
        UNIT_SECTION,
        TEXT_SECTION,
    ]
}
