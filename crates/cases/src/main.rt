// Runs the paper's cases and corner codes on the calls, and prints what they answer.
#![tactic(auto)]

use std::io::{Result, Write};

mod calls;
mod corners;
mod short;
mod told;
mod wired;

// The classroom sheet's code N: encoding.
fn classroom_encoding<W: Write>(output: &mut W) -> Result<()> {
    let code = calls::class();
    calls::encodes(output, code, b"\x01\x01\x01\x01", 9)?;
    calls::encodes(output, code, b"\x01\x02\x03\x04", 9)?;
    calls::encodes(output, code, b"\x01\x02\x0d\x04", 9)
}

// Its repair and group views.
fn classroom_repair<W: Write>(output: &mut W) -> Result<()> {
    let code = calls::class();
    calls::weighs(output, code, 0)?;
    calls::weighs(output, code, 9)?;
    calls::repairs(output, code, 0, b"\x08\x07")?;
    calls::repairs(output, calls::code_of(0, 2, 3, 1, 0), 0, b"\x05\x07")?;
    calls::views(output, code, 4, b"\x04\x08\x07\x01\x0b\x02\x00\x00\x00")?;
    calls::views(output, code, 9, b"\x04\x08\x07\x01\x0b\x02\x00\x00\x00")
}

// Decodes the word of four ones with marks.
fn loses<W: Write>(output: &mut W, marks: &[u8]) -> Result<()> {
    calls::decodes(
        output,
        calls::class(),
        b"\x04\x08\x07\x01\x0b\x02\x00\x00\x00",
        marks,
        45,
    )
}

// Its losses: within the guarantee, beyond it, undecided, foreign, all lost, and a mark that is none.
fn classroom_losses<W: Write>(output: &mut W) -> Result<()> {
    loses(output, b"\x01\x01\x01\x01\x00\x00\x00\x00\x00")?;
    loses(output, b"\x00\x00\x01\x00\x00\x01\x01\x01\x01")?;
    loses(output, b"\x00\x00\x00\x00\x01\x01\x01\x01\x01")?;
    calls::decodes(
        output,
        calls::class(),
        b"\x04\x08\x07\x01\x0b\x02\x00\x00\x01",
        b"\x00\x00\x00\x00\x00\x00\x00\x00\x00",
        45,
    )?;
    loses(output, b"\x01\x01\x01\x01\x01\x01\x01\x01\x01")?;
    loses(output, b"\x00\x00\x00\x00\x02\x00\x00\x00\x00")
}

// Decodes the word of four ones with marks, after the local pass.
fn mends<W: Write>(output: &mut W, marks: &[u8]) -> Result<()> {
    calls::nears(
        output,
        calls::class(),
        b"\x04\x08\x07\x01\x0b\x02\x00\x00\x00",
        marks,
        45,
    )
}

// Its losses with the groups that are mended: none, all, two; one and undecided; two and foreign; and a mark that is none.
fn classroom_nears<W: Write>(output: &mut W) -> Result<()> {
    mends(output, b"\x00\x00\x00\x00\x00\x00\x00\x00\x00")?;
    mends(output, b"\x01\x00\x00\x00\x01\x00\x00\x00\x01")?;
    mends(output, b"\x00\x00\x01\x00\x00\x01\x01\x01\x01")?;
    mends(output, b"\x00\x00\x01\x01\x01\x01\x01\x01\x01")?;
    calls::nears(
        output,
        calls::class(),
        b"\x04\x08\x07\x01\x0b\x02\x00\x00\x01",
        b"\x01\x00\x00\x00\x01\x00\x00\x00\x00",
        45,
    )?;
    mends(output, b"\x00\x00\x00\x00\x02\x00\x00\x00\x00")
}

// Previews of slots: kept ones that every grade follows, one that is lost already, and 7 before 8.
fn classroom_previews<W: Write>(output: &mut W) -> Result<()> {
    let code = calls::class();
    calls::previews(output, code, 7, b"\x00\x00\x00\x00\x00\x00\x00\x00\x00", 45)?;
    calls::previews(output, code, 4, b"\x01\x01\x01\x01\x00\x00\x00\x00\x00", 45)?;
    calls::previews(output, code, 0, b"\x01\x01\x01\x01\x00\x00\x00\x00\x00", 45)?;
    calls::previews(output, code, 8, b"\x00\x00\x01\x00\x00\x01\x01\x01\x00", 45)?;
    calls::previews(output, code, 8, b"\x00\x00\x00\x00\x01\x01\x01\x01\x00", 45)?;
    calls::previews(output, code, 9, b"\x00\x00\x00\x00\x02\x00\x00\x00\x00", 45)?;
    calls::previews(output, code, 3, b"\x00\x00\x00\x00\x02\x00\x00\x00\x00", 45)
}

// Encodes four ones for a code.
fn asks<W: Write>(output: &mut W, field: u32, r: u32, n: u32, k: u32, wiring: u32) -> Result<()> {
    let code = calls::code_of(field, r, n, k, wiring);
    calls::encodes(output, code, b"\x01\x01\x01\x01", 9)
}

// Questions 1 to 5 and 17 as encode asks them, and 17 before 18 as the view does.
fn questions<W: Write>(output: &mut W) -> Result<()> {
    asks(output, 2, 2, 9, 4, 0)?;
    asks(output, 0, 4, 10, 4, 0)?;
    asks(output, 0, 2, 10, 4, 0)?;
    asks(output, 0, 2, 15, 4, 0)?;
    asks(output, 0, 2, 9, 7, 0)?;
    asks(output, 0, 2, 9, 0, 0)?;
    asks(output, 0, 2, 9, 7, 2)?;
    asks(output, 0, 2, 9, 4, 2)?;
    calls::views(output, calls::code_of(0, 2, 9, 4, 2), 4, b"\x04")?;
    calls::encodes(output, calls::class(), b"\x01\x01\x01", 9)?;
    let large = calls::code_of(4294967295, 4294967295, 4294967295, 4294967295, 4294967295);
    calls::encodes(output, large, b"\x01", 9)
}

// No slots, one in the last group, k below and above what a short one takes, wired, and a codeword of nine symbols for eight.
fn short_questions<W: Write>(output: &mut W) -> Result<()> {
    asks(output, 0, 2, 0, 4, 0)?;
    asks(output, 0, 5, 7, 4, 0)?;
    asks(output, 0, 3, 7, 1, 0)?;
    asks(output, 0, 2, 8, 6, 0)?;
    asks(output, 0, 2, 8, 6, 1)?;
    asks(output, 0, 2, 8, 4, 1)?;
    asks(output, 0, 2, 8, 4, 0)
}

// Codes over bytes and over thirteen that the classroom does not see.
fn other_codes<W: Write>(output: &mut W) -> Result<()> {
    calls::encodes(
        output,
        calls::code_of(0, 3, 12, 7, 0),
        b"\x01\x02\x03\x04\x05\x06\x07",
        12,
    )?;
    calls::encodes(
        output,
        calls::code_of(1, 2, 9, 5, 0),
        b"\x01\x02\x03\x04\xff",
        9,
    )?;
    let code = calls::code_of(1, 4, 10, 3, 0);
    calls::weighs(output, code, 7)?;
    calls::repairs(output, code, 7, b"\x0a\xc8\x1e\x8c")?;
    calls::rebuilds(
        output,
        code,
        7,
        b"\x0a\x00\x01\xc8\x00\x02\x1e\x00\x03\x8c\x00\x04",
        3,
    )?;
    calls::rebuilds(output, code, 7, b"", 0)
}

fn main(rt: HostRuntime) -> Result<()> {
    let output = &mut rt.stdout();
    classroom_encoding(output)?;
    classroom_repair(output)?;
    classroom_losses(output)?;
    classroom_nears(output)?;
    classroom_previews(output)?;
    questions(output)?;
    short_questions(output)?;
    other_codes(output)?;
    told::told_mates(output)?;
    wired::wired_codes(output)?;
    short::short_codes(output)?;
    corners::corners(output)
}
