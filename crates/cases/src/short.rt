// Codes whose last group is short: of eleven slots in groups of three, over both fields, it has slots 9 and 10.
use crate::calls;
use code::Code;
use std::io::{Result, Write};

// The repair of the last slots from one mate.
fn repairs<W: Write>(output: &mut W, code: Code) -> Result<()> {
    calls::weighs(output, code, 9)?;
    calls::weighs(output, code, 10)?;
    calls::repairs(output, code, 10, b"\x07")?;
    calls::rebuilds(output, code, 9, b"\x0a\x00\x01", 3)
}

// The mates that are wanted: one for a slot of the short group, two for another and for a slot that is none.
fn counts<W: Write>(output: &mut W, code: Code) -> Result<()> {
    calls::repairs(output, code, 10, b"\x07\x06")?;
    calls::repairs(output, code, 4, b"\x07")?;
    calls::repairs(output, code, 11, b"\x07")?;
    calls::repairs(output, code, 11, b"\x07\x06")
}

// Decodes as it is and after the local pass, with so much work as a code with k 5 wants.
fn decodes<W: Write>(output: &mut W, code: Code, word: &[u8], marks: &[u8]) -> Result<()> {
    calls::decodes_both(output, code, word, marks, 66)
}

// Losses within the guarantee, which is 4; at it; beyond it and decided; and undecided.
fn loses<W: Write>(output: &mut W, code: Code, word: &[u8]) -> Result<()> {
    decodes(
        output,
        code,
        word,
        b"\x01\x00\x00\x00\x00\x00\x00\x00\x00\x00\x01",
    )?;
    decodes(
        output,
        code,
        word,
        b"\x01\x01\x00\x00\x00\x00\x00\x00\x00\x01\x01",
    )?;
    decodes(
        output,
        code,
        word,
        b"\x01\x00\x00\x00\x00\x01\x00\x00\x01\x01\x01",
    )?;
    decodes(
        output,
        code,
        word,
        b"\x01\x01\x01\x00\x00\x00\x00\x00\x00\x01\x01",
    )
}

// The other slot of the last group, and one loss more than the guarantee.
fn previews<W: Write>(output: &mut W, code: Code) -> Result<()> {
    calls::previews(
        output,
        code,
        10,
        b"\x01\x00\x00\x00\x00\x00\x00\x00\x00\x01\x00",
        66,
    )?;
    calls::previews(
        output,
        code,
        8,
        b"\x01\x00\x00\x00\x00\x01\x00\x00\x00\x01\x01",
        66,
    )
}

// Both slots of the last group break it, one of it and its neighbour break none.
fn breaks<W: Write>(output: &mut W, code: Code) -> Result<()> {
    calls::breaks(
        output,
        code,
        b"\x00\x00\x00\x00\x00\x00\x00\x00\x00\x01\x01",
    )?;
    calls::breaks(
        output,
        code,
        b"\x00\x00\x00\x00\x00\x00\x00\x00\x01\x01\x00",
    )
}

// Every call on a code with k 5.
fn short_code<W: Write>(output: &mut W, code: Code, message: &[u8]) -> Result<()> {
    let mut word: [u8; 11] = calls::spoiled(output, code, message, [0, 10])?;
    repairs(output, code)?;
    counts(output, code)?;
    calls::views(output, code, 9, &word)?;
    loses(output, code, &word)?;
    previews(output, code)?;
    breaks(output, code)?;
    let mut marks = [1u8, 0, 0, 0, 0, 0, 0, 0, 0, 0, 1];
    let answer = pass::local_pass(code, &mut word, &mut marks);
    calls::put_mended(output, code, answer, &word, &marks)
}

// Last groups with more mates: two of four, eleven of sixteen, and one group alone.
fn more_mates<W: Write>(output: &mut W) -> Result<()> {
    let code = calls::code_of(1, 4, 8, 5, 0);
    calls::weighs(output, code, 6)?;
    calls::repairs(output, code, 6, b"\x0a\xc8")?;
    calls::rebuilds(output, code, 6, b"\x0a\x00\x01\xc8\x00\x02", 3)?;
    calls::weighs(output, calls::code_of(1, 16, 250, 230, 0), 249)?;
    calls::repairs(
        output,
        calls::code_of(0, 11, 5, 4, 0),
        2,
        b"\x01\x02\x03\x04",
    )
}

// Over thirteen and over bytes.
pub fn short_codes<W: Write>(output: &mut W) -> Result<()> {
    short_code(
        output,
        calls::code_of(0, 2, 11, 5, 0),
        b"\x01\x02\x03\x04\x05",
    )?;
    short_code(
        output,
        calls::code_of(1, 2, 11, 5, 0),
        b"\x01\x02\x03\x04\xff",
    )?;
    more_mates(output)
}
