// Codes with k below r: mates that some codeword has, and mates that none has, alone, in a strip and in the local pass.
use crate::calls;
use std::io::{Result, Write};

// A code over bytes: alone, and three columns of which all are told, or all but the last.
fn over_bytes<W: Write>(output: &mut W) -> Result<()> {
    let code = calls::code_of(1, 4, 10, 3, 0);
    calls::repairs(output, code, 7, b"\x09\x3e\x0b\xc4")?;
    calls::rebuilds(
        output,
        code,
        7,
        b"\x09\x00\x16\x3e\x00\x6e\x0b\x00\x29\xc4\x00\x34",
        3,
    )?;
    calls::rebuilds(
        output,
        code,
        7,
        b"\x09\x00\x16\x3e\x00\x6e\x0b\x00\x29\xc4\x00\x35",
        3,
    )
}

// The same by wiring 1.
fn by_wiring<W: Write>(output: &mut W) -> Result<()> {
    let code = calls::code_of(1, 4, 10, 3, 1);
    calls::repairs(output, code, 7, b"\x09\x3e\xf9\xc4")?;
    calls::repairs(output, code, 7, b"\x0a\xc8\x1e\x8c")
}

// Beside a short last group: mates of degree 2 that a codeword has, mates of degree 1 that none has.
fn beside_short<W: Write>(output: &mut W) -> Result<()> {
    let code = calls::code_of(0, 3, 6, 2, 0);
    calls::repairs(output, code, 0, b"\x06\x02\x04")?;
    calls::repairs(output, code, 0, b"\x08\x0c\x05")
}

// A group whose kept symbols no codeword has, one that is mended, and one with two losses: decoded after the pass, and mended.
fn left_and_mended<W: Write>(output: &mut W) -> Result<()> {
    let code = calls::code_of(0, 2, 9, 1, 0);
    let mut word = [255u8, 5, 7, 4, 255, 4, 255, 255, 6];
    let mut marks = [1u8, 0, 0, 0, 1, 0, 1, 1, 0];
    calls::nears(output, code, &word, &marks, 18)?;
    let answer = pass::local_pass(code, &mut word, &mut marks);
    calls::put_mended(output, code, answer, &word, &marks)
}

pub fn told_mates<W: Write>(output: &mut W) -> Result<()> {
    calls::repairs(output, calls::code_of(0, 2, 3, 1, 0), 0, b"\x05\x05")?;
    over_bytes(output)?;
    by_wiring(output)?;
    beside_short(output)?;
    left_and_mended(output)
}
