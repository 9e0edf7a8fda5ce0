// What the programs share: standard input and output, where a read or write that fails is told apart, said on standard error and
// gives exit status 2; decimal numbers read from input (words).
#![tactic(auto)]

ghost use Rattle.std.specs.Prelude.{◌≡◌, ◌<◌, ◌≤◌, IfOk, IfSome, MatchResult, length, take};
ghost use Rattle.std.specs.Io.KnownBytes.{Appends, Consumes, IsAtEnd};

use std::io::{Read, Write};

pub mod words;

// A read that failed, and how many bytes were read before it.
#[derive(Clone, Copy, PartialEq, Eq, Debug)]
pub struct ReadFailed {
    pub len: usize,
}

// Reads until the buffer is full, the input ends or a read fails: how many bytes, which are the input's front.
pub fn read_input<R: Read>(reader: &mut R, buf: &mut [u8]) -> Result<usize, ReadFailed>
    ensures bound { MatchResult result (λ len. len ≤ length buf.new) (λ e. e.len ≤ length buf.new) }
    ensures bytes { MatchResult result
        (λ len. Consumes (R.remaining reader.old) (R.remaining reader.new) (take len buf.new))
        (λ e. Consumes (R.remaining reader.old) (R.remaining reader.new) (take e.len buf.new)) }
    ensures end { IfOk result (λ len. len < length buf.new → IsAtEnd (R.remaining reader.new)) }
    ensures front { IfOk result (λ len. IfSome (R.remaining reader.old) (λ xs. take len buf.new ≡ take (length buf.new) xs)) }
{
    let mut len: usize = 0;
    // no place is counted: each turn adds what one read gave
    while len < buf.len() {
        let Ok(n) = reader.read(&mut buf[len..]) else {
            return Err(ReadFailed { len });
        };
        if n == 0 {
            return Ok(len);
        }
        len += n;
    }
    Ok(len)
}

// Says what a program has to say on standard error: its name, and a sentence. What cannot be written there is left out.
pub fn complain<E: Write>(errors: &mut E, name: &[u8], sentence: &[u8]) {
    let _ = errors.write_all(name);
    let _ = errors.write_all(b": ");
    let _ = errors.write_all(sentence);
    let _ = errors.write_all(b"\n");
}

// The exit status of a program that could not read its input.
pub fn unread<E: Write>(errors: &mut E, name: &[u8]) -> u8
    ensures { result ≡ 2 }
{
    complain(errors, name, b"standard input cannot be read");
    2
}

// Writes the first n bytes of a text on standard output: the exit status 0, or 2 where that fails.
// The number stands beside the text, since it is what a call answered; with one past the text's end nothing is written.
pub fn write_output<W: Write, E: Write>(
    output: &mut W,
    errors: &mut E,
    name: &[u8],
    text: &[u8],
    n: usize,
) -> u8
    ensures status { result ≤ 2 }
    ensures written { result ≡ 0 → Appends (W.contents output.old) (W.contents output.new) (take n text.now) }
{
    if n <= text.len() {
        if output.write_all(&text[..n]).is_ok() {
            return 0;
        }
    }
    complain(errors, name, b"standard output cannot be written");
    2
}
