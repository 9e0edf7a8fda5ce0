// Codes of nine slots by wiring 1, over both fields: slots 0 3 6, 1 4 7 and 2 5 8 are the groups.
use crate::calls;
use code::Code;
use std::io::{Result, Write};

// The repair of slot 4, and its group, which no view shows, whatever the word's length.
fn repairs<W: Write>(output: &mut W, code: Code) -> Result<()> {
    calls::weighs(output, code, 4)?;
    calls::repairs(output, code, 4, b"\x0a\x06")?;
    calls::rebuilds(output, code, 4, b"\x0a\x00\x01\x06\x00\x02", 3)?;
    calls::views(output, code, 4, b"\x0a")
}

// Decodes as it is and after the local pass, with so much work as a code with k 4 wants.
fn decodes<W: Write>(output: &mut W, code: Code, word: &[u8], marks: &[u8]) -> Result<()> {
    calls::decodes_both(output, code, word, marks, 45)
}

// Losses at the guarantee, which is 4; beyond it and decided; and undecided.
fn loses<W: Write>(output: &mut W, code: Code, word: &[u8]) -> Result<()> {
    decodes(output, code, word, b"\x01\x01\x00\x01\x01\x00\x00\x00\x00")?;
    decodes(output, code, word, b"\x01\x01\x01\x00\x00\x01\x00\x00\x01")?;
    decodes(output, code, word, b"\x01\x01\x00\x01\x01\x00\x01\x00\x00")
}

// One loss more than the guarantee, and a slot that is lost already.
fn previews<W: Write>(output: &mut W, code: Code) -> Result<()> {
    calls::previews(output, code, 6, b"\x01\x01\x00\x01\x01\x00\x00\x00\x00", 45)?;
    calls::previews(output, code, 0, b"\x01\x01\x00\x00\x00\x00\x00\x00\x00", 45)
}

// Two slots that are side by side break no group, two that are three apart do.
fn breaks<W: Write>(output: &mut W, code: Code) -> Result<()> {
    calls::breaks(output, code, b"\x01\x01\x00\x00\x00\x00\x00\x00\x00")?;
    calls::breaks(output, code, b"\x00\x01\x00\x00\x01\x00\x00\x00\x00")
}

// Every call on a code with k 4.
fn wired_code<W: Write>(output: &mut W, code: Code, message: &[u8]) -> Result<()> {
    let mut word: [u8; 9] = calls::spoiled(output, code, message, [0, 1])?;
    repairs(output, code)?;
    loses(output, code, &word)?;
    previews(output, code)?;
    breaks(output, code)?;
    let mut marks = [1u8, 1, 0, 0, 0, 0, 0, 0, 0];
    let answer = pass::local_pass(code, &mut word, &mut marks);
    calls::put_mended(output, code, answer, &word, &marks)
}

// Over thirteen and over bytes.
pub fn wired_codes<W: Write>(output: &mut W) -> Result<()> {
    wired_code(output, calls::code_of(0, 2, 9, 4, 1), b"\x01\x02\x03\x04")?;
    wired_code(output, calls::code_of(1, 2, 9, 4, 1), b"\x01\x02\x03\xff")
}
