// Stored tables, in hexadecimal digits, written as lines of the second edition: standard input has one a line, and the stored run has the argument `--second`.
#![tactic(auto)]

use run_program::{asked_lines, was_asked};
use run_writes::{Form, Task, answer_tables};
use std::process::ExitCode;

fn main(rt: HostRuntime) -> ExitCode {
    if let Some(status) = was_asked(
        &rt,
        b"try_second_writes",
        b"try_second_writes spells each stored table as an mzPAF line, as writes does: its stored input has tables with letters.

Standard input has one stored table a line, in hexadecimal digits. Lines end at line feeds, and the last may lack its own.

Standard output has one answer a line: the number of refusal, the place, how many bytes the line has, and the
line in hexadecimal digits, `-` where there is none or it is empty.

With --second, lines are those of the second edition, in which an internal ion may have letters: mxa3:6.
",
        true,
    ) {
        return status;
    }
    answer_tables(
        &rt,
        b"try_second_writes",
        asked_lines(&rt),
        Task::WriteTable,
        Form::Fields,
        false,
    )
}
