// Each line of standard input has the form `N TABLE`, and the table, in hexadecimal digits, is written into an output of N bytes.
#![tactic(auto)]

use run_program::{asked_lines, was_asked};
use run_writes::{Form, Task, answer_tables};
use std::process::ExitCode;

fn main(rt: HostRuntime) -> ExitCode {
    if let Some(status) = was_asked(
        &rt,
        b"try_write_sized",
        b"try_write_sized spells each stored table as an mzPAF line, with an output of the length that is asked for.

Standard input has on each line a number of bytes (at most 4,160), a space and a stored table in hexadecimal
digits. Lines end at line feeds, and the last may lack its own.

Standard output has one answer a line: the number of refusal, the place, how many bytes the line has, and the
line in hexadecimal digits, `-` where there is none or it is empty.

With --second, lines are those of the second edition, in which an internal ion may have letters: mxa3:6.
",
        true,
    ) {
        return status;
    }
    answer_tables(
        &rt,
        b"try_write_sized",
        asked_lines(&rt),
        Task::WriteTable,
        Form::Fields,
        true,
    )
}
