// Each row of standard input, read into an output that is as long as any row needs.
#![tactic(auto)]

use run_program::{Input, asked_lines, was_asked};
use std::process::ExitCode;

fn main(rt: HostRuntime) -> ExitCode {
    if let Some(status) = was_asked(
        &rt,
        b"row_reads",
        b"row_reads makes a stored row of each row of a peak list, with an output that is as long as any row needs.

Standard input has one row a line: m/z, a tab, intensity, and perhaps a tab and a line of annotations. Lines end at
line feeds, and the last may lack its own.

Standard output has one answer a line: the number of refusal, the place, how many bytes the stored row has, and the
stored row in hexadecimal digits, `-` where there is none.

With --second, lines of annotations are those of the second edition, in which an internal ion may have letters:
mxa3:6.
",
        true,
    ) {
        return status;
    }
    run_reads::answer_lines(&rt, b"row_reads", asked_lines(&rt), Input::Rows, false)
}
