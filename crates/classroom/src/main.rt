// The classroom program: reads r, n, k and a message from standard input and writes the sheet that a class works on paper.
#![tactic(auto)]

ghost use Rattle.std.specs.Prelude.{◌≤◌};

use class_sheet::Kind;
use std::io::{Read, Write};
use std::process::ExitCode;

// The exit status of the program on an input that was read: 0 and the sheet, 1 and a sentence, or 2 where writing fails.
fn answer<W: Write, E: Write>(input: &[u8], output: &mut W, errors: &mut E) -> u8
    ensures { result ≤ 2 }
{
    let mut text = [0u8; 4096];
    let written = class_sheet::classroom(input, &mut text);
    let Some(front) = text.get(..written.len).filter(|front| front.len() < 4096) else {
        console::complain(
            errors,
            b"classroom",
            b"the sheet is longer than 4,095 bytes",
        );
        return 2;
    };
    match written.kind {
        Kind::Sheet => console::write_output(output, errors, b"classroom", front, front.len()),
        Kind::Refusal => {
            console::complain(errors, b"classroom", front);
            1
        }
    }
}

// The program's exit status: 0, 1 where the input is refused, or 2 where reading or writing fails.
pub fn classroom_program<R: Read, W: Write, E: Write>(
    input: &mut R,
    output: &mut W,
    errors: &mut E,
) -> u8
    ensures { result ≤ 2 }
{
    let mut numbers = [0u8; 4097];
    let Ok(n) = console::read_input(input, &mut numbers) else {
        return console::unread(errors, b"classroom");
    };
    if n > 4096 {
        console::complain(
            errors,
            b"classroom",
            b"the input is longer than 4,096 bytes",
        );
        return 1;
    }
    answer(&numbers[..n], output, errors)
}

fn main(rt: HostRuntime) -> ExitCode {
    let status = classroom_program(&mut rt.stdin(), &mut rt.stdout(), &mut rt.stderr());
    ExitCode::from(status)
}
