// Each line of standard input has the form `N LINE`, and LINE is read into an output of N bytes.
#![tactic(auto)]

use run_program::{Input, asked_lines, was_asked};
use std::process::ExitCode;

fn main(rt: HostRuntime) -> ExitCode {
    if let Some(status) = was_asked(
        &rt,
        b"try_read_sized",
        b"try_read_sized makes a table of each mzPAF line, with an output of the length that is asked for.

Standard input has on each line a number of bytes (at most 21,392), a space and a line of annotations.
Lines end at line feeds, and the last may lack its own.

Standard output has one answer a line: the number of refusal, the place, how many bytes the table has, and the
table in hexadecimal digits, `-` where there is none.

With --second, lines are those of the second edition, in which an internal ion may have letters: mxa3:6.
",
        true,
    ) {
        return status;
    }
    run_reads::answer_lines(&rt, b"try_read_sized", asked_lines(&rt), Input::Lines, true)
}
