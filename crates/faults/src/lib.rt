// Why a call is refused, and the first broken limit of a line, kept while its parts are read: document 01, "Numbers of refusal", 4 and 5.
#![tactic(auto)]

ghost use Rattle.std.specs.Prelude.{◌≡◌};
ghost use Rattle.rules.specs.Limits.{number_mark, many_mark};
ghost use Rattle.faults.specs.Refusals.{number_of};
ghost use Rattle.faults.specs.Faults.{mark, join, after};

// Why a call is refused. The discriminants are the numbers of refusal.
#[derive(Clone, Copy, PartialEq, Eq)]
pub enum Why {
    // the line, or the row, has more bytes than it may have
    LineTooLong = 1,
    // no line begins as this one does up to the byte and with it
    StrayByte = 2,
    // the line could go on to be one, and is none as it stands
    Unfinished = 3,
    // a number or a decimal past its bound
    PastBound = 4,
    // too many annotations, items, units or text bytes
    TooMany = 5,
    // a rule for one annotation is broken
    RuleBroken = 6,
    // the confidences of the line sum to more than 1
    ConfidencesExceedOne = 7,
    // the output is too short
    OutputTooShort = 8,
    // the stored bytes are no table, or no stored row
    NoTable = 9,
    // a stored table of edition 1, to be written
    FirstEditionTable = 10,
    // a sequence in braces is not of the plain form
    SequenceForm = 11,
    // the m/z of a row is no unsigned decimal within its bounds
    BadMz = 12,
    // the intensity of a row is none
    BadIntensity = 13,
    // a stored table with letters of an internal ion, to be written in the first edition of lines
    Letters = 20,
}

impl Why {
    // The number of refusal.
    pub fn number(self) -> usize
        ensures { result ≡ number_of self }
    {
        self as usize
    }
}

// Why, and the place that is told with it.
#[derive(Clone, Copy)]
pub struct Refusal {
    pub why: Why,
    pub place: usize,
}

// A limit at a place counts where it is broken, and none was broken before it.
#[tactic(auto, unfolding(crate::specs::Faults::join))]
pub fn note(f: Option<Refusal>, why: Why, place: usize, broken: bool) -> Option<Refusal>
    ensures { result ≡ join f (mark why place broken) }
{
    match f {
        Some(_) => f,
        None if broken => Some(Refusal { why, place }),
        None => None,
    }
}

// A number at a place, against its bound.
pub fn check_number(f: Option<Refusal>, bound: u32, value: u32, place: usize) -> Option<Refusal>
    ensures { result ≡ after f (number_mark bound value place) }
{
    note(f, Why::PastBound, place, bound < value)
}

// A thing at a place, of which i stand before it, against how many there may be.
pub fn check_count(f: Option<Refusal>, bound: usize, i: usize, place: usize) -> Option<Refusal>
    ensures { result ≡ join f (many_mark bound i place) }
{
    note(f, Why::TooMany, place, bound <= i)
}
