// What a loss, an adduct item and an isotope have in common: their sign, and what a loss or an adduct item adds or takes away.
#![tactic(auto)]

ghost use Rattle.std.specs.Prelude.{◌≡◌};
ghost use Rattle.changes.specs.Signs.{sign_number, sign_of_byte};
ghost use Rattle.changes.specs.Contents.{content_number, content_size, content_units, content_bytes};

// `-` comes before `+`.
#[derive(Clone, Copy, Default, PartialEq, Eq, PartialOrd, Ord)]
pub enum Sign {
    #[default]
    Minus,
    Plus,
}

impl From<u8> for Sign {
    // What a byte of a record says: 0 is `-`, anything else `+`.
    fn from(byte: u8) -> Self
        ensures { result ≡ sign_of_byte byte }
    {
        match byte {
            0 => Sign::Minus,
            _ => Sign::Plus,
        }
    }
}

impl From<Sign> for u8 {
    // A sign as it is stored.
    fn from(sign: Sign) -> Self
        ensures { result ≡ sign_number sign }
    {
        sign as u8
    }
}

// What stands behind sign and count: a formula of so many units, a name of so many bytes in brackets, or an electron's `e`.
#[derive(Clone, Copy, Default, PartialEq, Eq)]
pub enum Content {
    Formula { units: usize },
    Name { bytes: usize },
    #[default]
    Electron,
}

impl Content {
    // Its kind, as it is stored.
    pub fn number(self) -> u8
        ensures { result ≡ content_number self }
    {
        match self {
            Content::Formula { .. } => 0,
            Content::Name { .. } => 1,
            Content::Electron => 2,
        }
    }

    // How many units it stores.
    pub fn units(self) -> usize
        ensures { result ≡ content_units self }
    {
        match self {
            Content::Formula { units } => units,
            _ => 0,
        }
    }

    // How many name bytes it stores.
    pub fn name_bytes(self) -> usize
        ensures { result ≡ content_bytes self }
    {
        match self {
            Content::Name { bytes } => bytes,
            _ => 0,
        }
    }

    // How many units or name bytes.
    pub fn size(self) -> usize
        ensures { result ≡ content_size self }
    {
        match self {
            Content::Formula { units: n } | Content::Name { bytes: n } => n,
            Content::Electron => 0,
        }
    }
}
