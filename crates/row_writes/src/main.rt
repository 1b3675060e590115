// Each line of standard input is a stored row in hexadecimal digits, written into an output that is as long as a row may be.
#![tactic(auto)]

use run_program::{asked_lines, was_asked};
use run_writes::{Form, Task, answer_tables};
use std::process::ExitCode;

fn main(rt: HostRuntime) -> ExitCode {
    if let Some(status) = was_asked(
        &rt,
        b"row_writes",
        b"row_writes spells each stored row as a row of a peak list, with an output that is as long as a row may be.

Standard input has one stored row a line, in hexadecimal digits. Lines end at line feeds, and the last may lack its own.

Standard output has one answer a line: the number of refusal, the place, how many bytes the row has, and the
row in hexadecimal digits, `-` where there is none.

With --second, lines of annotations are those of the second edition, in which an internal ion may have letters:
mxa3:6.
",
        true,
    ) {
        return status;
    }
    answer_tables(
        &rt,
        b"row_writes",
        asked_lines(&rt),
        Task::WriteRow,
        Form::Fields,
        false,
    )
}
