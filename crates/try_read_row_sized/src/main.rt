// Each line of standard input has the form `N ROW`, and ROW is read into an output of N bytes.
#![tactic(auto)]

use run_program::{Input, asked_lines, was_asked};
use std::process::ExitCode;

fn main(rt: HostRuntime) -> ExitCode {
    if let Some(status) = was_asked(
        &rt,
        b"try_read_row_sized",
        b"try_read_row_sized makes a stored row of each row of a peak list, with an output of the length that is asked for.

Standard input has on each line a number of bytes (at most 21,392), a space and a row: m/z, a tab, intensity, and
perhaps a tab and a line of annotations. Lines end at line feeds, and the last may lack its own.

Standard output has one answer a line: the number of refusal, the place, how many bytes the stored row has, and the
stored row in hexadecimal digits, `-` where there is none.

With --second, lines of annotations are those of the second edition, in which an internal ion may have letters:
mxa3:6.
",
        true,
    ) {
        return status;
    }
    run_reads::answer_lines(
        &rt,
        b"try_read_row_sized",
        asked_lines(&rt),
        Input::Rows,
        true,
    )
}
