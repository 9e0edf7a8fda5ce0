// The report program: reads a stripe sheet from standard input and writes its report. A refused sheet is a report like any other.
#![tactic(auto)]

ghost use Rattle.std.specs.Prelude.{◌≡◌, ◌≤◌, IfSome, List, ℕ, take};
ghost use Rattle.std.specs.Io.KnownBytes.{Appends};
ghost use Rattle.reporting.specs.Report.{Report};

use std::io::{Read, Write};
use std::process::ExitCode;

// The program's exit status: 0, or 2 where reading or writing fails. With 0 the report of the input's first 1,032 bytes is written.
// One function for this and the preview would take the text's length and the call as parameters, and be no plainer.
pub fn report_program<R: Read, W: Write, E: Write>(
    input: &mut R,
    output: &mut W,
    errors: &mut E,
) -> u8
    ensures status { result ≤ 2 }
    ensures written { result ≡ 0 → IfSome (R.remaining input.old) (λ xs. (bs : List ℕ) × Report (take 1032 xs) bs × Appends (W.contents output.old) (W.contents output.new) bs) }
{
    let mut sheet = [0u8; 1032];
    let Ok(n) = console::read_input(input, &mut sheet) else {
        return console::unread(errors, b"report");
    };
    let mut text = [0u8; 1032];
    let length = reporting::report(&sheet[..n], &mut text).unwrap_or(0);
    console::write_output(output, errors, b"report", &text, length as usize)
}

fn main(rt: HostRuntime) -> ExitCode {
    let status = report_program(&mut rt.stdin(), &mut rt.stdout(), &mut rt.stderr());
    ExitCode::from(status)
}
