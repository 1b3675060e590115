// Lines of the second edition, read: standard input has one a line, and the stored run has the argument `--second`.
#![tactic(auto)]

use run_program::{Input, asked_lines, was_asked};
use std::process::ExitCode;

fn main(rt: HostRuntime) -> ExitCode {
    if let Some(status) = was_asked(
        &rt,
        b"try_second_reads",
        b"try_second_reads makes a table of each mzPAF line, as reads does: its stored input has lines of the second edition.

Standard input has one line of annotations a line. Lines end at line feeds, and the last may lack its own.

Standard output has one answer a line: the number of refusal, the place, how many bytes the table has, and the
table in hexadecimal digits, `-` where there is none.

With --second, lines are those of the second edition, in which an internal ion may have letters: mxa3:6.
",
        true,
    ) {
        return status;
    }
    run_reads::answer_lines(
        &rt,
        b"try_second_reads",
        asked_lines(&rt),
        Input::Lines,
        false,
    )
}
