// The numbers that bound a line, one constant for each, in the order of document 01; readers and printers take them from here. That
// they are the definitions' numbers is the contract of the functions at the end.
#![tactic(auto)]

ghost use Rattle.std.specs.Prelude.{◌≡◌, [], ◌∷◌};
ghost use Rattle.rules.specs.Limits.{max_line, max_annotations, max_losses, max_isotopes, max_items, max_units, max_text};
ghost use Rattle.rules.specs.Limits.{max_position, max_count, max_charge, max_places, max_digits};
ghost use Rattle.rules.specs.House.{one};
ghost use Rattle.rules.specs.Largest.{max_any_table, max_table};
ghost use Rattle.rules.specs.RowAnswers.{max_row};

// The bytes of a line.
pub const MAX_LINE: usize = 4096;

// The annotations of a line.
pub const MAX_ANNOTATIONS: usize = 16;

// The losses of an annotation.
pub const MAX_LOSSES: usize = 8;

// The isotopes of an annotation.
pub const MAX_ISOTOPES: usize = 4;

// The adduct items of an annotation.
pub const MAX_ITEMS: usize = 4;

// The units of a formula.
pub const MAX_UNITS: usize = 12;

// The bytes of a text or of a name.
pub const MAX_TEXT: usize = 255;

// An analyte, a position, an end of an internal ion, the label of an unknown one.
pub const MAX_POSITION: u32 = 65535;

// A count, or a nucleon number.
pub const MAX_COUNT: u32 = 999;

// A charge.
pub const MAX_CHARGE: u32 = 255;

// The decimals of a decimal.
pub const MAX_PLACES: u8 = 9;

// The digits of a decimal in all.
pub const MAX_DIGITS: u8 = 12;

// The confidences of a line in billionths, alone and together: 1.
pub const ONE: u64 = 1000000000;

// The bytes of any table.
pub const MAX_ANY_TABLE: usize = 43628;

// The bytes of the table of a line that is read: it has no texts but the line's own.
pub const MAX_TABLE: usize = 21372;

// The bytes of a row of a peak list, its line feed not counted (document 02, M-101).
pub const MAX_ROW: usize = 4160;

// ---- that these are the definitions' numbers
// By contracts, since a `prove!` in a constant reads code alone, and no definition.

fn how_many() -> [usize; 7]
    ensures { result ≡ max_line ∷ max_annotations ∷ max_losses ∷ max_isotopes ∷ max_items ∷ max_units ∷ max_text ∷ [] }
{
    [
        MAX_LINE,
        MAX_ANNOTATIONS,
        MAX_LOSSES,
        MAX_ISOTOPES,
        MAX_ITEMS,
        MAX_UNITS,
        MAX_TEXT,
    ]
}

fn how_large() -> [u32; 3]
    ensures { result ≡ max_position ∷ max_count ∷ max_charge ∷ [] }
{
    [MAX_POSITION, MAX_COUNT, MAX_CHARGE]
}

fn how_long() -> [u8; 2]
    ensures { result ≡ max_places ∷ max_digits ∷ [] }
{
    [MAX_PLACES, MAX_DIGITS]
}

fn how_sure() -> u64
    ensures { result ≡ one }
{
    ONE
}

fn how_many_bytes() -> [usize; 3]
    ensures { result ≡ max_any_table ∷ max_table ∷ max_row ∷ [] }
{
    [MAX_ANY_TABLE, MAX_TABLE, MAX_ROW]
}
