// Each line of standard input is a stored table of edition 1 in hexadecimal digits, and is answered by the table of edition 2 of the same line.
#![tactic(auto)]

use run_program::{asked_lines, was_asked};
use run_writes::{Form, Task, answer_tables};
use std::process::ExitCode;

fn main(rt: HostRuntime) -> ExitCode {
    if let Some(status) = was_asked(
        &rt,
        b"convert",
        b"convert turns each stored table of edition 1 into the table of edition 2 of the same mzPAF line.

Standard input has one stored table a line, in hexadecimal digits. Lines end at line feeds, and the last may lack its own.

Standard output has one line for each: the table of edition 2 in hexadecimal digits, or `!`, the number of refusal,
a space and the place, which is counted in the preferred spelling of the line.

With --second nothing changes: a table of edition 1 has no letters.
",
        true,
    ) {
        return status;
    }
    answer_tables(
        &rt,
        b"convert",
        asked_lines(&rt),
        Task::ConvertTable,
        Form::Digits,
        false,
    )
}
