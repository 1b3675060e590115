// Each line of standard input is a stored table of edition 1 in hexadecimal digits, converted into an output that is as long as a table may be.
#![tactic(auto)]

use run_program::{asked_lines, was_asked};
use run_writes::{Form, Task, answer_tables};
use std::process::ExitCode;

fn main(rt: HostRuntime) -> ExitCode {
    if let Some(status) = was_asked(
        &rt,
        b"converts",
        b"converts turns each stored table of edition 1 into one of edition 2, with an output that is as long as a table may be.

Standard input has one stored table a line, in hexadecimal digits. Lines end at line feeds, and the last may lack its own.

Standard output has one answer a line: the number of refusal, the place, which is counted in the preferred spelling of
the line, how many bytes the table of edition 2 has, and the table in hexadecimal digits, `-` where there is none.

With --second nothing changes: a table of edition 1 has no letters.
",
        true,
    ) {
        return status;
    }
    answer_tables(
        &rt,
        b"converts",
        asked_lines(&rt),
        Task::ConvertTable,
        Form::Fields,
        false,
    )
}
