// Each line of standard input, read into an output that is as long as any line needs.
#![tactic(auto)]

use run_program::{Input, asked_lines, was_asked};
use std::process::ExitCode;

fn main(rt: HostRuntime) -> ExitCode {
    if let Some(status) = was_asked(
        &rt,
        b"reads",
        b"reads makes a table of each mzPAF line, with an output that is as long as any line needs.

Standard input has one line of annotations a line. Lines end at line feeds, and the last may lack its own.

Standard output has one answer a line: the number of refusal, the place, how many bytes the table has, and the
table in hexadecimal digits, `-` where there is none.

With --second, lines are those of the second edition, in which an internal ion may have letters: mxa3:6.
",
        true,
    ) {
        return status;
    }
    run_reads::answer_lines(&rt, b"reads", asked_lines(&rt), Input::Lines, false)
}
