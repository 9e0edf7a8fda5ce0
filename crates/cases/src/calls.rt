// The calls, each with a line of what it answers.
use code::Code;
use refusal::{Refusal, number_of};
use std::io::{Result, Write};

// A code of five numbers.
pub fn code_of(field: u32, r: u32, n: u32, k: u32, wiring: u32) -> Code {
    Code {
        field,
        r,
        n,
        k,
        wiring,
    }
}

// The classroom sheet's code N.
pub fn class() -> Code {
    code_of(0, 2, 9, 4, 0)
}

// The first bytes of a room.
pub fn front(room: &mut [u8], n: usize) -> &mut [u8] {
    let n = n.min(room.len());
    &mut room[..n]
}

// The line of a call: its name and code, the numbers that it answered, and bytes.
pub fn put_call<W: Write>(
    output: &mut W,
    name: &str,
    code: Code,
    numbers: &[u32],
    bytes: &[u8],
) -> Result<()> {
    let Code {
        field,
        r,
        n,
        k,
        wiring,
    } = code;
    write!(output, "{name} {field} {r} {n} {k} {wiring} = ")?;
    for number in numbers {
        show::put(output, *number)?;
    }
    show::put_line(output, bytes)
}

// A refusal's number and 0, or 0 and the value.
fn pair(answer: std::result::Result<u32, Refusal>) -> [u32; 2] {
    match answer {
        Ok(value) => [0, value],
        Err(refusal) => [refusal.number(), 0],
    }
}

// The line of a call with a refusal and a value.
fn put_value<W: Write>(
    output: &mut W,
    name: &str,
    code: Code,
    answer: std::result::Result<u32, Refusal>,
) -> Result<()> {
    put_call(output, name, code, &pair(answer), &[])
}

// Encodes a message to a buffer of a length.
pub fn encodes<W: Write>(output: &mut W, code: Code, message: &[u8], length: usize) -> Result<()> {
    let mut room = [0u8; 12];
    let codeword = front(&mut room, length);
    let refusal = number_of(encode::encode(code, message, codeword));
    put_call(output, "encode", code, &[refusal], codeword)
}

// The repair weights of a slot.
pub fn weighs<W: Write>(output: &mut W, code: Code, slot: u32) -> Result<()> {
    let (refusal, weights) = match weights::weights(code, slot) {
        Ok(weights) => (0, weights),
        Err(refusal) => (refusal.number(), [0; 16]),
    };
    put_call(output, "weights", code, &[refusal], &weights)
}

// Repairs a slot from its mates' symbols.
pub fn repairs<W: Write>(output: &mut W, code: Code, slot: u32, mates: &[u8]) -> Result<()> {
    put_value(output, "repair", code, repair::repair(code, slot, mates))
}

// Rebuilds a strip of a length from its mates' strips.
pub fn rebuilds<W: Write>(
    output: &mut W,
    code: Code,
    slot: u32,
    strips: &[u8],
    length: usize,
) -> Result<()> {
    let mut room = [0u8; 3];
    let strip = front(&mut room, length);
    let refusal = number_of(repair::rebuild(code, slot, strips, strip));
    put_call(output, "rebuild", code, &[refusal], strip)
}

// Looks at a slot's group in a word.
pub fn views<W: Write>(output: &mut W, code: Code, slot: u32, word: &[u8]) -> Result<()> {
    let refusal = number_of(view::group_view_refusal(code, slot, word));
    let seen = view::group_view(code, slot, word);
    put_call(output, "view", code, &[refusal], seen)
}

// The lines of the local pass.
pub fn put_mended<W: Write>(
    output: &mut W,
    code: Code,
    answer: std::result::Result<u32, Refusal>,
    word: &[u8],
    marks: &[u8],
) -> Result<()> {
    put_value(output, "pass", code, answer)?;
    show::put_line(output, word)?;
    show::put_line(output, marks)
}

// The first group with more losses than it stands.
pub fn breaks<W: Write>(output: &mut W, code: Code, marks: &[u8]) -> Result<()> {
    put_value(output, "first", code, erasures::first_broken(code, marks))
}

// Work for the longest code, which need not be clear.
fn work_room() -> [u8; 61455] {
    [7u8; 61455]
}

// Decodes the kept symbols of a word, and grades the marks, with so many bytes of work.
pub fn decodes<W: Write>(
    output: &mut W,
    code: Code,
    word: &[u8],
    marks: &[u8],
    used: usize,
) -> Result<()> {
    let mut room = [7u8; 240];
    let mut work = work_room();
    let message = front(&mut room, code.k as usize);
    let decoded = decode::decode(code, word, marks, message, front(&mut work, used));
    let [refusal, grade] = pair(grading::grade(code, marks, front(&mut work, used)));
    let answers = [number_of(decoded), refusal, grade];
    put_call(output, "decode", code, &answers, message)
}

// Decodes the kept symbols of a word after the local pass, with so many bytes of work.
pub fn nears<W: Write>(
    output: &mut W,
    code: Code,
    word: &[u8],
    marks: &[u8],
    used: usize,
) -> Result<()> {
    let mut room = [7u8; 240];
    let mut work = work_room();
    let message = front(&mut room, code.k as usize);
    let answer = decode_near::decode_near(code, word, marks, message, front(&mut work, used));
    put_call(output, "near", code, &pair(answer), message)
}

// Decodes as it is and after the local pass.
pub fn decodes_both<W: Write>(
    output: &mut W,
    code: Code,
    word: &[u8],
    marks: &[u8],
    used: usize,
) -> Result<()> {
    decodes(output, code, word, marks, used)?;
    nears(output, code, word, marks, used)
}

// Encodes, and spoils two symbols of the word.
pub fn spoiled<W: Write, const N: usize>(
    output: &mut W,
    code: Code,
    message: &[u8],
    slots: [usize; 2],
) -> Result<[u8; N]> {
    let mut word = [0u8; N];
    let refusal = number_of(encode::encode(code, message, &mut word));
    put_call(output, "encode", code, &[refusal], &word)?;
    for slot in slots {
        if let Some(symbol) = word.get_mut(slot) {
            *symbol = 255;
        }
    }
    Ok(word)
}

// Previews the loss of a slot, with so many bytes of work.
pub fn previews<W: Write>(
    output: &mut W,
    code: Code,
    slot: u32,
    marks: &[u8],
    used: usize,
) -> Result<()> {
    let mut work = work_room();
    let answers = match previewing::preview(code, slot, marks, front(&mut work, used)) {
        Ok(seen) => [0, seen.lost, seen.grade, seen.first],
        Err(refusal) => [refusal.number(), 0, 0, 0],
    };
    put_call(output, "preview", code, &answers, &[])
}
