// How many there are of each kind in a line or in a table: document 01, "The stored table", in the order of its sections.
#![tactic(auto)]

ghost use Rattle.std.specs.Prelude.{◌≡◌};
ghost use Rattle.counts.specs.Sums.{sum, no_counts, plus};

#[derive(Clone, Copy, Default)]
pub struct Counts {
    pub annotations: usize,
    pub losses: usize,
    pub isotopes: usize,
    pub items: usize,
    pub units: usize,
    pub text: usize,
}

// A sum, or the largest number where it would not fit.
pub fn sum(a: usize, b: usize) -> usize
    ensures { result ≡ sum a b }
{
    a.saturating_add(b)
}

// Nothing of any kind.
pub fn none() -> Counts
    ensures { result ≡ no_counts }
{
    Counts::default()
}

// The sum of each kind.
pub fn plus(a: Counts, b: Counts) -> Counts
    ensures { result ≡ plus a b }
{
    Counts {
        annotations: sum(a.annotations, b.annotations),
        losses: sum(a.losses, b.losses),
        isotopes: sum(a.isotopes, b.isotopes),
        items: sum(a.items, b.items),
        units: sum(a.units, b.units),
        text: sum(a.text, b.text),
    }
}
