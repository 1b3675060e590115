// Element symbols and atomic numbers, each from the other.
#![tactic(auto)]

ghost use Rattle.std.specs.Prelude.{◌≡◌, drop};
ghost use Rattle.lang.specs.Re.{in_c};
ghost use Rattle.rules.specs.Bytes.{capital};
ghost use Rattle.elements.specs.Numbers.{atomic_of, letters_of, code_of};
ghost use Rattle.elements.specs.Symbols.{small_of, element_of};

// The letters of a symbol: a capital, and a small letter or 0 where the symbol has one letter. Both 0: no symbol.
#[derive(Drop)]
pub struct Letters {
    pub first: u8,
    pub second: u8,
}

// A symbol that is read: its atomic number, 0 where no element has it, and how many letters it has.
#[derive(Drop)]
pub struct Element {
    pub number: u16,
    pub len: usize,
}

// The letters of the symbol with atomic number n as one number, first * 256 + second: in hex the two bytes stand side by side. 0: no symbol.
// A match over numbers becomes a table that is read in place; a byte string would be copied at each call.
fn code_of(n: u16) -> u16
    ensures { result ≡ code_of n }
{
    match n {
        1 => 0x4800, // H
        2 => 0x4865, // He
        3 => 0x4C69, // Li
        4 => 0x4265, // Be
        5 => 0x4200, // B
        6 => 0x4300, // C
        7 => 0x4E00, // N
        8 => 0x4F00, // O
        9 => 0x4600, // F
        10 => 0x4E65, // Ne
        11 => 0x4E61, // Na
        12 => 0x4D67, // Mg
        13 => 0x416C, // Al
        14 => 0x5369, // Si
        15 => 0x5000, // P
        16 => 0x5300, // S
        17 => 0x436C, // Cl
        18 => 0x4172, // Ar
        19 => 0x4B00, // K
        20 => 0x4361, // Ca
        21 => 0x5363, // Sc
        22 => 0x5469, // Ti
        23 => 0x5600, // V
        24 => 0x4372, // Cr
        25 => 0x4D6E, // Mn
        26 => 0x4665, // Fe
        27 => 0x436F, // Co
        28 => 0x4E69, // Ni
        29 => 0x4375, // Cu
        30 => 0x5A6E, // Zn
        31 => 0x4761, // Ga
        32 => 0x4765, // Ge
        33 => 0x4173, // As
        34 => 0x5365, // Se
        35 => 0x4272, // Br
        36 => 0x4B72, // Kr
        37 => 0x5262, // Rb
        38 => 0x5372, // Sr
        39 => 0x5900, // Y
        40 => 0x5A72, // Zr
        41 => 0x4E62, // Nb
        42 => 0x4D6F, // Mo
        43 => 0x5463, // Tc
        44 => 0x5275, // Ru
        45 => 0x5268, // Rh
        46 => 0x5064, // Pd
        47 => 0x4167, // Ag
        48 => 0x4364, // Cd
        49 => 0x496E, // In
        50 => 0x536E, // Sn
        51 => 0x5362, // Sb
        52 => 0x5465, // Te
        53 => 0x4900, // I
        54 => 0x5865, // Xe
        55 => 0x4373, // Cs
        56 => 0x4261, // Ba
        57 => 0x4C61, // La
        58 => 0x4365, // Ce
        59 => 0x5072, // Pr
        60 => 0x4E64, // Nd
        61 => 0x506D, // Pm
        62 => 0x536D, // Sm
        63 => 0x4575, // Eu
        64 => 0x4764, // Gd
        65 => 0x5462, // Tb
        66 => 0x4479, // Dy
        67 => 0x486F, // Ho
        68 => 0x4572, // Er
        69 => 0x546D, // Tm
        70 => 0x5962, // Yb
        71 => 0x4C75, // Lu
        72 => 0x4866, // Hf
        73 => 0x5461, // Ta
        74 => 0x5700, // W
        75 => 0x5265, // Re
        76 => 0x4F73, // Os
        77 => 0x4972, // Ir
        78 => 0x5074, // Pt
        79 => 0x4175, // Au
        80 => 0x4867, // Hg
        81 => 0x546C, // Tl
        82 => 0x5062, // Pb
        83 => 0x4269, // Bi
        84 => 0x506F, // Po
        85 => 0x4174, // At
        86 => 0x526E, // Rn
        87 => 0x4672, // Fr
        88 => 0x5261, // Ra
        89 => 0x4163, // Ac
        90 => 0x5468, // Th
        91 => 0x5061, // Pa
        92 => 0x5500, // U
        93 => 0x4E70, // Np
        94 => 0x5075, // Pu
        95 => 0x416D, // Am
        96 => 0x436D, // Cm
        97 => 0x426B, // Bk
        98 => 0x4366, // Cf
        99 => 0x4573, // Es
        100 => 0x466D, // Fm
        101 => 0x4D64, // Md
        102 => 0x4E6F, // No
        103 => 0x4C72, // Lr
        104 => 0x5266, // Rf
        105 => 0x4462, // Db
        106 => 0x5367, // Sg
        107 => 0x4268, // Bh
        108 => 0x4873, // Hs
        109 => 0x4D74, // Mt
        110 => 0x4473, // Ds
        111 => 0x5267, // Rg
        112 => 0x436E, // Cn
        113 => 0x4E68, // Nh
        114 => 0x466C, // Fl
        115 => 0x4D63, // Mc
        116 => 0x4C76, // Lv
        117 => 0x5473, // Ts
        118 => 0x4F67, // Og
        _ => 0,
    }
}

// The letters of the symbol with atomic number n.
pub fn letters_of(n: u16) -> Letters
    ensures { result ≡ letters_of n }
{
    let code = code_of(n);
    Letters {
        first: (code / 256) as u8,
        second: (code % 256) as u8,
    }
}

// The atomic number of the symbol with these letters, b being 0 where it has one letter. 0: no symbol.
// To be read down as an index: by the first letter, under it by the second, each symbol beside its number.
pub fn atomic(a: u8, b: u8) -> u16
    ensures { result ≡ atomic_of a b }
{
    match b {
        1..=96 | 123..=255 => return 0, // neither a small letter nor none
        _ => {}
    }
    match a {
        0..=64 | 91..=255 => 0, // no capital
        b'A' => match b {
            b'c' => 89, // Ac
            b'g' => 47, // Ag
            b'l' => 13, // Al
            b'm' => 95, // Am
            b'r' => 18, // Ar
            b's' => 33, // As
            b't' => 85, // At
            b'u' => 79, // Au
            _ => 0,
        },
        b'B' => match b {
            0 => 5, // B
            b'a' => 56, // Ba
            b'e' => 4, // Be
            b'h' => 107, // Bh
            b'i' => 83, // Bi
            b'k' => 97, // Bk
            b'r' => 35, // Br
            _ => 0,
        },
        b'C' => match b {
            0 => 6, // C
            b'a' => 20, // Ca
            b'd' => 48, // Cd
            b'e' => 58, // Ce
            b'f' => 98, // Cf
            b'l' => 17, // Cl
            b'm' => 96, // Cm
            b'n' => 112, // Cn
            b'o' => 27, // Co
            b'r' => 24, // Cr
            b's' => 55, // Cs
            b'u' => 29, // Cu
            _ => 0,
        },
        b'D' => match b {
            b'b' => 105, // Db
            b's' => 110, // Ds
            b'y' => 66, // Dy
            _ => 0,
        },
        b'E' => match b {
            b'r' => 68, // Er
            b's' => 99, // Es
            b'u' => 63, // Eu
            _ => 0,
        },
        b'F' => match b {
            0 => 9, // F
            b'e' => 26, // Fe
            b'l' => 114, // Fl
            b'm' => 100, // Fm
            b'r' => 87, // Fr
            _ => 0,
        },
        b'G' => match b {
            b'a' => 31, // Ga
            b'd' => 64, // Gd
            b'e' => 32, // Ge
            _ => 0,
        },
        b'H' => match b {
            0 => 1, // H
            b'e' => 2, // He
            b'f' => 72, // Hf
            b'g' => 80, // Hg
            b'o' => 67, // Ho
            b's' => 108, // Hs
            _ => 0,
        },
        b'I' => match b {
            0 => 53, // I
            b'n' => 49, // In
            b'r' => 77, // Ir
            _ => 0,
        },
        b'J' => 0, // no symbol begins with it
        b'K' => match b {
            0 => 19, // K
            b'r' => 36, // Kr
            _ => 0,
        },
        b'L' => match b {
            b'a' => 57, // La
            b'i' => 3, // Li
            b'r' => 103, // Lr
            b'u' => 71, // Lu
            b'v' => 116, // Lv
            _ => 0,
        },
        b'M' => match b {
            b'c' => 115, // Mc
            b'd' => 101, // Md
            b'g' => 12, // Mg
            b'n' => 25, // Mn
            b'o' => 42, // Mo
            b't' => 109, // Mt
            _ => 0,
        },
        b'N' => match b {
            0 => 7, // N
            b'a' => 11, // Na
            b'b' => 41, // Nb
            b'd' => 60, // Nd
            b'e' => 10, // Ne
            b'h' => 113, // Nh
            b'i' => 28, // Ni
            b'o' => 102, // No
            b'p' => 93, // Np
            _ => 0,
        },
        b'O' => match b {
            0 => 8, // O
            b'g' => 118, // Og
            b's' => 76, // Os
            _ => 0,
        },
        b'P' => match b {
            0 => 15, // P
            b'a' => 91, // Pa
            b'b' => 82, // Pb
            b'd' => 46, // Pd
            b'm' => 61, // Pm
            b'o' => 84, // Po
            b'r' => 59, // Pr
            b't' => 78, // Pt
            b'u' => 94, // Pu
            _ => 0,
        },
        b'Q' => 0, // no symbol begins with it
        b'R' => match b {
            b'a' => 88, // Ra
            b'b' => 37, // Rb
            b'e' => 75, // Re
            b'f' => 104, // Rf
            b'g' => 111, // Rg
            b'h' => 45, // Rh
            b'n' => 86, // Rn
            b'u' => 44, // Ru
            _ => 0,
        },
        b'S' => match b {
            0 => 16, // S
            b'b' => 51, // Sb
            b'c' => 21, // Sc
            b'e' => 34, // Se
            b'g' => 106, // Sg
            b'i' => 14, // Si
            b'm' => 62, // Sm
            b'n' => 50, // Sn
            b'r' => 38, // Sr
            _ => 0,
        },
        b'T' => match b {
            b'a' => 73, // Ta
            b'b' => 65, // Tb
            b'c' => 43, // Tc
            b'e' => 52, // Te
            b'h' => 90, // Th
            b'i' => 22, // Ti
            b'l' => 81, // Tl
            b'm' => 69, // Tm
            b's' => 117, // Ts
            _ => 0,
        },
        b'U' => match b {
            0 => 92, // U
            _ => 0,
        },
        b'V' => match b {
            0 => 23, // V
            _ => 0,
        },
        b'W' => match b {
            0 => 74, // W
            _ => 0,
        },
        b'X' => match b {
            b'e' => 54, // Xe
            _ => 0,
        },
        b'Y' => match b {
            0 => 39, // Y
            b'b' => 70, // Yb
            _ => 0,
        },
        b'Z' => match b {
            b'n' => 30, // Zn
            b'r' => 40, // Zr
            _ => 0,
        },
    }
}

fn is_capital(b: u8) -> bool
    ensures { result ≡ in_c capital b }
{
    b.is_ascii_uppercase()
}

// The small letter that stands second in a part; 0 where none does.
fn second_letter(s: &[u8]) -> u8
    ensures { result ≡ small_of (drop 1 s.now) }
{
    if s.len() < 2 {
        return 0;
    }
    let b = s[1];
    if b < b'a' {
        return 0;
    }
    if b'z' < b {
        return 0;
    }
    b
}

// How many letters the symbol has that a part begins with; 0 where no capital stands first. No symbol is looked up.
pub fn symbol_len(s: &[u8]) -> usize
    ensures { result ≡ (element_of s.now).len }
{
    if s.len() < 1 {
        return 0;
    }
    if !is_capital(s[0]) {
        return 0;
    }
    if second_letter(s) == 0 {
        return 1;
    }
    2
}

// The symbol that a part begins with: a capital, and a small letter if one follows. No capital: number 0 and no letters.
pub fn read_element(s: &[u8]) -> Element
    ensures { result ≡ element_of s.now }
{
    let len = symbol_len(s);
    if len < 1 {
        Element { number: 0, len: 0 }
    } else {
        Element {
            number: atomic(s[0], second_letter(s)),
            len,
        }
    }
}
