// Rows whose lines are of the second edition, relabelled: standard input has one a line, and the stored run has the argument `--second`.
#![tactic(auto)]

use run_program::{Input, asked_lines, was_asked};
use std::process::ExitCode;

fn main(rt: HostRuntime) -> ExitCode {
    if let Some(status) = was_asked(
        &rt,
        b"try_second_peaks",
        b"try_second_peaks spells each row of a peak list in its preferred form, as peaks does: its stored input has lines of the second edition.

Standard input has one row a line: m/z, a tab, intensity, and perhaps a tab and a line of annotations. Lines end at
line feeds, and the last may lack its own.

Standard output has one answer a line: the row in preferred spelling; or `!`, the number of refusal, a space and the
place, as !13 6. The number is never 0, 8 or 9.

With --second, lines of annotations are those of the second edition, in which an internal ion may have letters: mxa3:6.
",
        true,
    ) {
        return status;
    }
    run_relabel::relabel_lines(&rt, b"try_second_peaks", asked_lines(&rt), Input::Rows)
}
