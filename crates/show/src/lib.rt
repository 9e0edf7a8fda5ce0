// Numbers and lines on a program's output.
#![tactic(auto)]

ghost use Rattle.std.specs.Prelude.{[], ◌++◌, ◌<◌, ◌≤◌, ◌∷◌, OnOk, length, take};
ghost use Rattle.std.specs.Fmt.{decimal};
ghost use Rattle.std.specs.Io.KnownBytes.{Appends, Keeps};

use std::io::{Result, Write};

// A number and a space.
pub fn put<W: Write>(output: &mut W, n: u32) -> Result<()>
    ensures { OnOk result (Appends (W.contents output.old) (W.contents output.new) (decimal n ++ (32 ∷ []))) }
{
    write!(output, "{n} ")
}

// The bytes, each with a space, and a line end.
pub fn put_line<W: Write>(output: &mut W, bytes: &[u8]) -> Result<()> {
    for &b in bytes {
        put(output, b as u32)?;
    }
    output.write_all(b"\n")
}

// The first n bytes as they are, or none where there are not so many.
pub fn put_front<W: Write>(output: &mut W, bytes: &[u8], n: usize) -> Result<()>
    ensures front { n ≤ length bytes.now → OnOk result (Appends (W.contents output.old) (W.contents output.new) (take n bytes.now)) }
    ensures none { length bytes.now < n → OnOk result (Keeps (W.contents output.old) (W.contents output.new)) }
{
    if n <= bytes.len() {
        output.write_all(&bytes[..n])?;
    }
    Ok(())
}
