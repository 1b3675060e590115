// Each line of standard input is a stored table in hexadecimal digits, written into an output that is as long as a line may be.
#![tactic(auto)]

use run_program::{asked_lines, was_asked};
use run_writes::{Form, Task, answer_tables};
use std::process::ExitCode;

fn main(rt: HostRuntime) -> ExitCode {
    if let Some(status) = was_asked(
        &rt,
        b"writes",
        b"writes spells each stored table as an mzPAF line, with an output that is as long as a line may be.

Standard input has one stored table a line, in hexadecimal digits. Lines end at line feeds, and the last may lack its own.

Standard output has one answer a line: the number of refusal, the place, how many bytes the line has, and the
line in hexadecimal digits, `-` where there is none or it is empty.

With --second, lines are those of the second edition, in which an internal ion may have letters: mxa3:6.
",
        true,
    ) {
        return status;
    }
    answer_tables(
        &rt,
        b"writes",
        asked_lines(&rt),
        Task::WriteTable,
        Form::Fields,
        false,
    )
}
