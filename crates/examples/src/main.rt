// The published examples (docs/EXAMPLES.md), relabelled: standard input has one a line.
#![tactic(auto)]

use run_program::{Input, asked_lines, was_asked};
use std::process::ExitCode;

fn main(rt: HostRuntime) -> ExitCode {
    if let Some(status) = was_asked(
        &rt,
        b"examples",
        b"examples spells each mzPAF line in its preferred form, as relabel does: its stored input has the published examples.

Standard input has one line of annotations a line, as y5-NH3-H2O/0.20ppm. Lines end at line feeds,
and the last may lack its own.

Standard output has one answer a line: the preferred spelling, as y5-H2O-NH3/0.20ppm; or `!`, the number of
refusal, a space and the place, as !3 4. The number is never 0, 8 or 9.

With --second, lines are those of the second edition, in which an internal ion may have letters: mxa3:6.
",
        true,
    ) {
        return status;
    }
    run_relabel::relabel_lines(&rt, b"examples", asked_lines(&rt), Input::Lines)
}
