// The preview program: reads a stripe sheet from standard input and writes what would follow the loss of each kept slot. A refused sheet gets the
// line of its refusal.
#![tactic(auto)]

ghost use Rattle.std.specs.Prelude.{◌≡◌, ◌≤◌, IfSome, take};
ghost use Rattle.std.specs.Io.KnownBytes.{Appends};
ghost use Rattle.preview_sheet.specs.Text.{preview_text};

use std::io::{Read, Write};
use std::process::ExitCode;

// The program's exit status: 0, or 2 where reading or writing fails. With 0 the preview of the input's first 1,032 bytes is written.
// One function for this and the report would take the text's length and the call as parameters, and be no plainer.
pub fn preview_program<R: Read, W: Write, E: Write>(
    input: &mut R,
    output: &mut W,
    errors: &mut E,
) -> u8
    ensures status { result ≤ 2 }
    ensures written { result ≡ 0 → IfSome (R.remaining input.old) (λ xs. Appends (W.contents output.old) (W.contents output.new) (preview_text (take 1032 xs))) }
{
    let mut sheet = [0u8; 1032];
    let Ok(n) = console::read_input(input, &mut sheet) else {
        return console::unread(errors, b"preview");
    };
    let mut text = [0u8; 8420];
    let length = preview_sheet::preview_sheet(&sheet[..n], &mut text).unwrap_or(0);
    console::write_output(output, errors, b"preview", &text, length as usize)
}

fn main(rt: HostRuntime) -> ExitCode {
    let status = preview_program(&mut rt.stdin(), &mut rt.stdout(), &mut rt.stderr());
    ExitCode::from(status)
}
