// The relabel program of document 01.
#![tactic(auto)]

use run_program::{Input, asked_lines, was_asked};
use std::process::ExitCode;

fn main(rt: HostRuntime) -> ExitCode {
    if let Some(status) = was_asked(
        &rt,
        b"relabel",
        b"relabel spells each mzPAF line in its preferred form.

Standard input has one line of annotations a line, as y5-NH3-H2O/0.20ppm. Lines end at line feeds,
and the last may lack its own.

Standard output has one answer a line: the preferred spelling, as y5-H2O-NH3/0.20ppm; or `!`, the number of
refusal, a space and the place, as !3 4. The number is never 0, 8 or 9.

With --second, lines are those of the second edition, in which an internal ion may have letters: mxa3:6.
",
        true,
    ) {
        return status;
    }
    run_relabel::relabel_lines(&rt, b"relabel", asked_lines(&rt), Input::Lines)
}
