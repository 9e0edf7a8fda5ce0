// The sheet that a class works on paper, of an input: the word wired or not, r, n, k and k message symbols, over the field of thirteen.
#![tactic(auto)]

ghost use Rattle.std.specs.Prelude.{◌≡◌, ◌≤◌, length};
ghost use Rattle.code.specs.Laws.{Decodable};

use code::{Code, Shape};
use console::words::{Words, is_decimal, value_of};
use refusal::Refusal;
use std::io::{Cursor, Result, Write, sink};

// What is written: the sheet, or a sentence on what is wrong with the input.
#[derive(Clone, Copy, PartialEq, Eq, Debug)]
pub enum Kind {
    Sheet,
    Refusal,
}

// What stands in front of a text, and how many bytes of it.
#[derive(Clone, Copy, PartialEq, Eq, Debug)]
pub struct Written {
    pub kind: Kind,
    pub len: usize,
}

// Writes a word of the input, cut behind its twentieth byte; control characters become question marks.
fn put_word<W: Write>(output: &mut W, word: &[u8]) -> Result<()> {
    for b in word.iter().take(20) {
        let shown = if b.is_ascii_control() { b'?' } else { *b };
        output.write_all(&[shown])?;
    }
    if word.len() > 20 {
        output.write_all(b"..")?;
    }
    Ok(())
}

// Writes the sentence that refuses a number of the input, number i from 0.
fn refuse<W: Write>(output: &mut W, i: usize, word: &[u8], reason: &str) -> Result<Kind> {
    write!(output, "number {}, \"", i % 4096 + 1)?;
    put_word(output, word)?;
    write!(output, "\", is refused: {reason}")?;
    Ok(Kind::Refusal)
}

// The same, of a number that is looked up.
fn refuse_at<W: Write>(output: &mut W, mut words: Words, i: usize, reason: &str) -> Result<Kind> {
    refuse(output, i, words.nth(i).unwrap_or(b""), reason)
}

// Writes the sentence of a code's refusal, by question 2, 3, 4 or 17.
fn refuse_code<W: Write>(
    output: &mut W,
    words: Words,
    code: Code,
    refusal: Refusal,
) -> Result<Kind> {
    let (i, reason) = match refusal {
        Refusal::Locality => (0, "r is 1, 2, 3, 5 or 11 (refusal 2)"),
        Refusal::Length => (
            1,
            "n is from 2 to 12, and n mod (r + 1) is not 1 (refusal 3)",
        ),
        Refusal::Wiring => (
            1,
            "wired groups are whole: n is a multiple of r + 1 (refusal 17)",
        ),
        _ if acceptance::is_whole(code) => (2, "k is from 1 to r * n / (r + 1) (refusal 4)"),
        _ => (
            2,
            "k is from s - 1 to n - m, for m groups of which the last has s slots (refusal 4)",
        ),
    };
    refuse_at(output, words, i, reason)
}

// Writes the sentence of a message that has not k symbols.
fn refuse_length<W: Write>(output: &mut W, symbols: usize, k: u32) -> Result<Kind> {
    write!(
        output,
        "{symbols} message symbols are refused: k is {k} (refusal 5)"
    )?;
    Ok(Kind::Refusal)
}

// The place of the first symbol that is 13 or more, or the message's length.
fn first_large(message: &[u8]) -> usize
    ensures { result ≤ length message.now }
{
    message
        .iter()
        .position(|symbol| *symbol > 12)
        .unwrap_or(message.len())
}

// Writes the sheet of a shape over thirteen and a message, or the sentence of the message's refusal.
fn put_message<W: Write>(output: &mut W, words: Words, shape: Shape, message: &[u8]) -> Result<Kind>
    requires { Decodable shape × (shape.field ≡ 0) × (length message.now ≤ 16) }
{
    let mut codeword = [0u8; 12];
    let front = &mut codeword[..shape.n as usize];
    match encode::encode_with(Ok(()), shape, message, front) {
        Ok(()) => {
            lesson::write_sheet(output, shape, message, front)?;
            Ok(Kind::Sheet)
        }
        Err(Refusal::Buffers) => refuse_length(output, message.len(), shape.k),
        Err(_) => {
            let i = first_large(message);
            refuse_at(output, words, 3 + i, "a symbol is from 0 to 12 (refusal 6)")
        }
    }
}

// The code over thirteen of r, n and k, and a wiring.
fn code_of(r: u8, n: u8, k: u8, wiring: u32) -> Code
    ensures { result.field ≡ 0 }
{
    Code {
        field: 0,
        r: u32::from(r),
        n: u32::from(n),
        k: u32::from(k),
        wiring,
    }
}

// Writes the sheet of the first numbers, which are r, n, k and the message, or the sentence of their refusal. As many as count stand in the input.
fn put_numbers<W: Write>(
    output: &mut W,
    words: Words,
    wiring: u32,
    numbers: &[u8],
    count: usize,
) -> Result<Kind>
    requires { (3 ≤ count) × (length numbers.now ≡ 16) }
{
    let code = code_of(numbers[0], numbers[1], numbers[2], wiring);
    if let Err(refusal) = acceptance::accepted(code) {
        return refuse_code(output, words, code, refusal);
    }
    match numbers.get(3..count) {
        Some(message) => put_message(output, words, acceptance::single(code), message),
        None => refuse_length(output, count - 3, code.k),
    }
}

// Writes the sheet of the numbers of an input, or the sentence on what is wrong with them.
fn put_input<W: Write>(output: &mut W, words: Words, wiring: u32) -> Result<Kind> {
    for (i, word) in words.enumerate() {
        if !is_decimal(word) {
            return refuse(
                output,
                i,
                word,
                "a number is digits 0 to 9, and white space parts numbers",
            );
        }
    }
    let count = words.count();
    if count < 3 {
        output.write_all(b"fewer than three numbers: r, n, k and k message symbols are wanted")?;
        return Ok(Kind::Refusal);
    }
    let mut numbers = [0u8; 16];
    for (number, word) in numbers.iter_mut().zip(words) {
        *number = value_of(word);
    }
    put_numbers(output, words, wiring, &numbers, count)
}

// Writes the sheet of an input, or the sentence on what is wrong with it. An Err is the output's.
pub fn write_classroom<W: Write>(input: &[u8], output: &mut W) -> Result<Kind> {
    let mut words = Words(input);
    match words.next() {
        Some(b"wired") => put_input(output, words, 1),
        _ => put_input(output, Words(input), 0),
    }
}

// What an input gets, where nothing has to fit.
fn kind_of(input: &[u8]) -> Kind {
    write_classroom(input, &mut sink()).unwrap_or(Kind::Refusal)
}

// Puts the sheet of an input, or the sentence on what is wrong with it, in front of a text, cut where it does not fit.
pub fn classroom(input: &[u8], text: &mut [u8]) -> Written {
    let mut front = Cursor::new(text);
    let kind = match write_classroom(input, &mut front) {
        Ok(kind) => kind,
        Err(_) => kind_of(input),
    };
    let len = front.position() as usize;
    Written { kind, len }
}
