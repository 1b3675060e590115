// The shape of a line, decided by one walk of a table machine. Document 01, "Numbers of refusal", 2 and 3.
// The machine is made once, by `machine`, and lent to whatever scans by it: a constant would be made anew by each function that names it.
#![tactic(auto)]

ghost use Rattle.std.specs.Prelude.{◌≡◌, ◌+◌, ◌<◌, ◌≤◌, ◌^◌, length};
ghost use Rattle.shape.specs.Tables.{states, deeps, flats, size};
ghost use Rattle.scan_line.specs.Lines.{lines_in};
ghost use Rattle.scan_line.specs.Steps.{second_bytes, machine_bytes, takes_letters, step_by, move_by, stand_of, ends_by, standing, taken_by, verdict_by, scanned_by};
ghost use Rattle.scan_line.specs.Verdicts.{JudgedBy};

mod tables;

use crate::tables::{
    DEEPS, ENDS_AT, FLATS, KINDS, PACKED, ROWS_AT, SIZE, STATES, X_AT, Y_AT, Z_AT,
};
use put_bytes::put_words;

// The editions of lines: document 01's, and that of document 02 (M-113), in which an internal ion may have letters behind its `m`.
#[derive(Clone, Copy)]
pub enum Lines {
    First,
    Second,
}

// What the shape of a line is.
#[derive(Clone, Copy)]
pub enum Verdict {
    // The line has a shape.
    Fine,
    // The line begins a shape and is none.
    Short,
    // The first so many bytes begin a shape, and one byte more does not.
    Stray(usize),
}

// The bytes of the machine of the second edition: the class of each byte, a row for each state, a mark for each state in which a line may end.
fn second_machine() -> [u8; SIZE]
    ensures { result ≡ second_bytes }
{
    let mut bytes = [0u8; SIZE];
    put_words(&mut bytes, 0, &PACKED);
    bytes
}

// The bytes of the machine of an edition. That of the first is the second's where no letter goes on behind the `m` of an internal ion.
pub fn machine(lines: Lines) -> [u8; SIZE]
    ensures { result ≡ machine_bytes (lines_in lines) }
{
    let mut bytes = second_machine();
    match lines {
        Lines::First => {
            bytes[X_AT] = STATES as u8;
            bytes[Y_AT] = STATES as u8;
            bytes[Z_AT] = STATES as u8;
            bytes
        }
        Lines::Second => bytes,
    }
}

// Whether a machine is that of the second edition: a letter goes on behind the `m` of an internal ion.
pub fn takes_letters(machine: &[u8]) -> bool
    ensures { result ≡ takes_letters machine.now }
{
    X_AT < machine.len() && machine[X_AT] < STATES as u8
}

// State and depth as numbers, and a step that tests in this order: as a type with an invariant, with a step that gives an `Option`, and with a state
// of eight bits, a scan took 6 to 10 in the hundred longer.

// The state after a byte, as the table has it; at least `STATES` where no shape goes on with it.
fn next(machine: &[u8], q: usize, b: u8) -> usize
    requires { (size ≤ length machine.now) × (q < states) }
    ensures { result ≡ step_by machine.now q b }
{
    let c = machine[b as usize] as usize;
    machine[ROWS_AT + q * KINDS + c] as usize
}

// Where the machine stands: a state, and how many brackets more are open inside a name than the state says.
#[derive(Drop)]
struct Stand {
    state: usize,
    depth: usize,
}

// Where it stands after a byte inside a bracket of a name. Brackets that open and close in there are counted: a state for each depth would not be few.
fn step_inside(machine: &[u8], q: usize, d: usize, b: u8) -> Stand
    requires { (size ≤ length machine.now) × ((deeps ≤ q) × ((q < flats) × (d + 1 < 2 ^ 64))) }
    ensures { result ≡ stand_of (move_by machine.now q d b) }
{
    if b == b'[' {
        return Stand {
            state: q,
            depth: d + 1,
        };
    }
    if b != b']' {
        return Stand {
            state: next(machine, q, b),
            depth: d,
        };
    }
    if d > 0 {
        return Stand {
            state: q,
            depth: d - 1,
        };
    }
    Stand {
        state: next(machine, q, b),
        depth: d,
    }
}

// Where it stands after a byte.
fn step(machine: &[u8], q: usize, d: usize, b: u8) -> Stand
    requires { (size ≤ length machine.now) × ((q < states) × (d + 1 < 2 ^ 64)) }
    ensures { result ≡ stand_of (move_by machine.now q d b) }
{
    if q < DEEPS {
        return Stand {
            state: next(machine, q, b),
            depth: d,
        };
    }
    if q < FLATS {
        return step_inside(machine, q, d, b);
    }
    Stand {
        state: next(machine, q, b),
        depth: d,
    }
}

// Whether a line may end in a state.
fn ends(machine: &[u8], q: usize) -> bool
    requires { (size ≤ length machine.now) × (q < states) }
    ensures { result ≡ ends_by machine.now q }
{
    machine[ENDS_AT + q] == 1
}

// How far a scan has come, after some bytes of a line, which may come in parts: the machine's state, how many brackets more are open inside a name
// than it says, and how many bytes begin a shape.
#[derive(Clone, Copy)]
pub struct Progress {
    pub state: usize,
    pub depth: usize,
    pub at: usize,
}

impl Progress {
    // Before the first byte of a line.
    pub fn begin() -> Progress
        ensures { result ≡ standing 0 0 0 }
    {
        Progress {
            state: 0,
            depth: 0,
            at: 0,
        }
    }

    // After a further part of the line.
    pub fn over(self, machine: &[u8], part: &[u8]) -> Progress
        ensures { result ≡ taken_by machine.now self part.now }
    {
        // With a state and a class below 256 every index is inside so many bytes.
        if machine.len() < SIZE {
            return self;
        }
        // No scan has more brackets open than bytes read; so the depth fits where the place does. A place past the last usize could not be told.
        if self.state >= STATES || self.depth > self.at || usize::MAX - self.at < part.len() {
            return self;
        }
        let mut q = self.state;
        let mut d = self.depth;
        for (i, &b) in part.iter().enumerate() {
            let s = step(machine, q, d, b);
            q = s.state;
            d = s.depth;
            if q >= STATES {
                return Progress {
                    state: STATES,
                    depth: 0,
                    at: self.at + i,
                };
            }
        }
        Progress {
            state: q,
            depth: d,
            at: self.at + part.len(),
        }
    }

    // The verdict, where the line ends here.
    pub fn verdict(self, machine: &[u8]) -> Verdict
        ensures { result ≡ verdict_by machine.now self }
    {
        if machine.len() < SIZE {
            return Verdict::Stray(0);
        }
        let q = self.state;
        if q >= STATES {
            return Verdict::Stray(self.at);
        }
        if ends(machine, q) {
            Verdict::Fine
        } else {
            Verdict::Short
        }
    }
}

// The verdict of a machine on a line, in one part.
pub fn scan_by(machine: &[u8], line: &[u8]) -> Verdict
    ensures { result ≡ scanned_by machine.now line.now }
{
    Progress::begin().over(machine, line).verdict(machine)
}

// The shape of a line of any bytes and any length. Whoever has many lines makes the machine once, and calls `scan_by`.
pub fn scan(lines: Lines, line: &[u8]) -> Verdict
    ensures { JudgedBy (lines_in lines) line.now result }
{
    scan_by(&machine(lines), line)
}
