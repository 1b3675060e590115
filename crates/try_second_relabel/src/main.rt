// Lines of the second edition, relabelled: standard input has one a line, and the stored run has the argument `--second`.
#![tactic(auto)]

use run_program::{Input, asked_lines, was_asked};
use std::process::ExitCode;

fn main(rt: HostRuntime) -> ExitCode {
    if let Some(status) = was_asked(
        &rt,
        b"try_second_relabel",
        b"try_second_relabel spells each mzPAF line in its preferred form, as relabel does: its stored input has lines of the second edition.

Standard input has one line of annotations a line, as mxa3:6. Lines end at line feeds, and the last may lack its own.

Standard output has one answer a line: the preferred spelling, as mxa3:6; or `!`, the number of refusal, a space and
the place, as !3 2. The number is never 0, 8 or 9.

With --second, lines are those of the second edition, in which an internal ion may have letters: mxa3:6.
",
        true,
    ) {
        return status;
    }
    run_relabel::relabel_lines(&rt, b"try_second_relabel", asked_lines(&rt), Input::Lines)
}
