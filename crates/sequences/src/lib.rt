// Sequences: whether a text is one, and how many residues it has. Document 02, M-105.
#![tactic(auto)]

ghost use Rattle.std.specs.Prelude.{◌<◌, ◌≡◌};
ghost use Rattle.lang.specs.Re.{in_c, none_open};
ghost use Rattle.rules.specs.Bytes.{capital, name_byte};
ghost use Rattle.rules.specs.Sequences.{leads, depth_behind, outside_names, behind_closing, inside_name, phase_behind, count_behind};
ghost use Rattle.sequences.specs.Reads.{phase_of, sequence_of};

// Whether a text is a sequence, and how many capitals it has outside names: those are the residues of a sequence.
// Not an `Option`: the definition `sequence_of` tells of each text how many it has, also of one that is no sequence.
#[derive(Clone, Copy)]
pub struct SequenceRead {
    pub formed: bool,
    pub residues: usize,
}

// ---- bytes

fn is_capital(b: u8) -> bool
    ensures { result ≡ in_c capital b }
{
    b.is_ascii_uppercase()
}

// Whether a byte stands for itself in a name.
fn is_name_byte(b: u8) -> bool
    ensures { result ≡ in_c name_byte b }
{
    matches!(b, b' '..=b'~') && b != b'[' && b != b']'
}

// ---- phases

// What a text stands behind, where no name is open. Behind `Broken` nothing makes it a sequence.
#[derive(Clone, Copy)]
enum Phase {
    Nothing,
    FrontName,
    FrontDash,
    Residue,
    BackDash,
    BackName,
    Broken,
}

impl Phase {
    fn behind_letter(self) -> Phase
        ensures { phase_of result ≡ (leads (phase_of self)).letter }
    {
        match self {
            Phase::Nothing | Phase::FrontDash | Phase::Residue => Phase::Residue,
            _ => Phase::Broken,
        }
    }

    fn behind_dash(self) -> Phase
        ensures { phase_of result ≡ (leads (phase_of self)).dash }
    {
        match self {
            Phase::FrontName => Phase::FrontDash,
            Phase::Residue => Phase::BackDash,
            _ => Phase::Broken,
        }
    }

    // Behind a name in its brackets.
    fn behind_name(self) -> Phase
        ensures { phase_of result ≡ (leads (phase_of self)).name }
    {
        match self {
            Phase::Nothing => Phase::FrontName,
            Phase::Residue => Phase::Residue,
            Phase::BackDash => Phase::BackName,
            _ => Phase::Broken,
        }
    }

    // Behind a byte outside names, other than `[`.
    fn behind_outside(self, b: u8) -> Phase
        ensures { phase_of result ≡ outside_names (phase_of self) b }
    {
        if is_capital(b) {
            self.behind_letter()
        } else if b == b'-' {
            self.behind_dash()
        } else {
            Phase::Broken
        }
    }

    // Whether a sequence may end so.
    fn may_end(self) -> bool
        ensures { result ≡ (leads (phase_of self)).ends }
    {
        matches!(self, Phase::Residue | Phase::BackName)
    }
}

// ---- a text

// What a text has come to: the phase, how many brackets are open, whether a name that is open is empty so far, how many residues.
#[derive(Clone, Copy)]
struct Progress {
    phase: Phase,
    depth: usize,
    empty: bool,
    residues: usize,
}

impl Progress {
    // Behind a `]` in a name: one bracket is left open, or the name is closed, which must not be empty.
    fn phase_closing(self) -> Phase
        ensures { phase_of result ≡ behind_closing (phase_of self.phase) self.depth self.empty }
    {
        if self.depth != 1 {
            self.phase
        } else if self.empty {
            Phase::Broken
        } else {
            self.phase.behind_name()
        }
    }

    // Behind a byte of a name, other than `[`.
    fn phase_inside(self, b: u8) -> Phase
        ensures { phase_of result ≡ inside_name (phase_of self.phase) self.depth self.empty b }
    {
        if b == b']' {
            self.phase_closing()
        } else if is_name_byte(b) {
            self.phase
        } else {
            Phase::Broken
        }
    }

    // Behind a byte: `[` opens a name, or a bracket in one.
    fn phase_behind(self, b: u8) -> Phase
        ensures { phase_of result ≡ phase_behind (phase_of self.phase) self.depth self.empty b }
    {
        if b == b'[' {
            self.phase
        } else if self.depth == 0 {
            self.phase.behind_outside(b)
        } else {
            self.phase_inside(b)
        }
    }

    // How many brackets are open behind a byte.
    fn depth_behind(self, b: u8) -> usize
        requires { self.depth < 18446744073709551615 }
        ensures { result ≡ depth_behind self.depth b }
    {
        match b {
            b'[' => self.depth + 1,
            b']' => self.depth.saturating_sub(1),
            _ => self.depth,
        }
    }

    // How many residues there are behind a byte: a capital in a name is none.
    fn residues_behind(self, b: u8) -> usize
        requires { self.residues < 18446744073709551615 }
        ensures { result ≡ count_behind self.residues self.depth b }
    {
        if self.depth == 0 && is_capital(b) {
            self.residues + 1
        } else {
            self.residues
        }
    }

    fn behind(self, b: u8) -> Progress
        requires { (self.depth < 18446744073709551615) × (self.residues < 18446744073709551615) }
        ensures phase { phase_of result.phase ≡ phase_behind (phase_of self.phase) self.depth self.empty b }
        ensures depth { result.depth ≡ depth_behind self.depth b }
        ensures empty { result.empty ≡ none_open self.depth }
        ensures residues { result.residues ≡ count_behind self.residues self.depth b }
    {
        Progress {
            phase: self.phase_behind(b),
            depth: self.depth_behind(b),
            empty: self.depth == 0,
            residues: self.residues_behind(b),
        }
    }
}

// Reads a text byte by byte.
pub fn read_sequence(s: &[u8]) -> SequenceRead
    ensures { result ≡ sequence_of s.now }
{
    let mut progress = Progress {
        phase: Phase::Nothing,
        depth: 0,
        empty: true,
        residues: 0,
    };
    for &b in s {
        progress = progress.behind(b);
    }
    SequenceRead {
        formed: progress.depth == 0 && progress.phase.may_end(),
        residues: progress.residues,
    }
}
