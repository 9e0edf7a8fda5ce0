// Codes at the ends of their ranges: encoded, with the first slot lost, decoded and mended.
use crate::calls;
use code::Code;
use std::io::{Result, Write};

// Symbol i of a message: 3, 10, 17 and so on in the field.
fn symbol(field: u32, i: u8) -> u8 {
    let x = u32::from(i) * 7 + 3;
    let order = if field == 0 { 13 } else { 256 };
    (x % order) as u8
}

// Room with such symbols for a message.
fn symbols(field: u32) -> [u8; 240] {
    let mut room = [0u8; 240];
    for (i, x) in (0..240u8).zip(room.iter_mut()) {
        *x = symbol(field, i);
    }
    room
}

// Room for marks, of which the first says lost.
fn first_lost() -> [u8; 255] {
    let mut room = [0u8; 255];
    room[0] = 1;
    room
}

// Encodes, and spoils the first symbol: room with the word.
fn spoiled<W: Write>(output: &mut W, code: Code) -> Result<[u8; 255]> {
    let mut message_room = symbols(code.field);
    let mut word_room = [0u8; 255];
    let message = calls::front(&mut message_room, code.k as usize);
    let word = calls::front(&mut word_room, code.n as usize);
    let refusal = refusal::number_of(encode::encode(code, message, word));
    calls::put_call(output, "encode", code, &[refusal], word)?;
    word_room[0] = 255;
    Ok(word_room)
}

// Encodes, loses the first slot, decodes both ways with so many bytes of work, previews the loss of the last slot, and mends the first.
fn corner<W: Write>(output: &mut W, code: Code, used: usize) -> Result<()> {
    let mut word_room = spoiled(output, code)?;
    let mut marks_room = first_lost();
    let n = code.n as usize;
    let word = calls::front(&mut word_room, n);
    let marks = calls::front(&mut marks_room, n);
    calls::decodes_both(output, code, word, marks, used)?;
    calls::previews(output, code, code.n.saturating_sub(1), marks, used)?;
    let answer = pass::local_pass(code, word, marks);
    calls::put_mended(output, code, answer, word, marks)
}

// r 1; one group only; k 1; a large r; the longest code, with the guarantee 1; and two groups that are wired.
// Then last groups that are short: after three whole ones, after one, in a long code, and alone.
pub fn corners<W: Write>(output: &mut W) -> Result<()> {
    corner(output, calls::code_of(0, 1, 12, 6, 0), 84)?;
    corner(output, calls::code_of(0, 11, 12, 11, 0), 144)?;
    corner(output, calls::code_of(0, 2, 12, 1, 0), 24)?;
    corner(output, calls::code_of(1, 14, 30, 5, 0), 180)?;
    corner(output, calls::code_of(1, 16, 255, 240, 0), 61455)?;
    corner(output, calls::code_of(1, 4, 10, 3, 1), 40)?;
    corner(output, calls::code_of(0, 2, 11, 5, 0), 66)?;
    corner(output, calls::code_of(0, 3, 6, 2, 0), 18)?;
    corner(output, calls::code_of(1, 16, 250, 230, 0), 57750)?;
    corner(output, calls::code_of(0, 11, 5, 4, 0), 25)
}
