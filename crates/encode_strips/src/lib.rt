// Encode of strips: column by column the codeword of the column of the message strips.
#![tactic(auto)]

ghost use Rattle.std.specs.Prelude.{◌≡◌, true, ◌*◌, ◌≤◌, length};
ghost use Rattle.algebra.specs.Sequence.{all_below};
ghost use Rattle.field.specs.Field.{q};
ghost use Rattle.code.specs.Family.{single, code_refusal};
ghost use Rattle.code.specs.Laws.{Plain};
ghost use Rattle.group_plans.specs.Plan.{ByteCode};
ghost use Rattle.strip_columns.specs.Strips.{encoded_strips};
ghost use Rattle.refusal.specs.Refusal.{number_of};
ghost use Rattle.encode_strips.specs.Strips.{strips_are, encode_strips_refusal, EncodeStripsSays};

use code::{Code, Shape};
use refusal::{Refusal, require};

// Whether so many symbols are n strips of l, with l from 1 to 4,096.
#[tactic(auto, unfolding(crate::specs::Strips::strips_are, strip_columns::specs::Strips::strips_are))]
pub fn strips_are(l: usize, n: usize, length: usize) -> bool
    requires { n * l ≤ length }
    ensures { result ≡ strips_are l n length }
{
    strip_columns::strips_are(l, n, length)
}

// Questions 5 and 6 after those before; length is that of the codewords' buffer.
#[tactic(auto, using(refusal::proofs::Refusals::chain), unfolding(code::specs::Question::ask, code::specs::Question::or_ask, crate::specs::Strips::encode_strips_refusal))]
fn strips_asked(
    asked: Result<(), Refusal>,
    shape: Shape,
    messages: &[u8],
    length: usize,
) -> Result<(), Refusal>
    requires { number_of asked ≡ 0 → Plain shape }
    ensures { number_of result ≡ encode_strips_refusal (number_of asked) shape messages.now length }
{
    asked?;
    let n = shape.n as usize;
    let l = length / n;
    require(strips_are(l, n, length), Refusal::Buffers)?;
    require(messages.len() == shape.k as usize * l, Refusal::Buffers)?;
    require(
        questions::strips_below(messages, tables::order(shape.field)),
        Refusal::Symbol,
    )
}

// Encodes column by column; message and codeword are room for one column of each.
fn encode_columns(
    shape: Shape,
    messages: &[u8],
    l: usize,
    message: &mut [u8],
    codeword: &mut [u8],
    codewords: &mut [u8],
)
    requires { Plain shape × (1 ≤ l) × (l ≤ 4096) × (length messages.now ≡ shape.k * l) × (all_below (q shape.field) messages.now ≡ true) × (length message.old ≡ shape.k) × (length codeword.old ≡ shape.n) × (length codewords.old ≡ shape.n * l) }
    ensures { codewords.new ≡ encoded_strips shape l messages.now }
{
    for c in 0..l {
        strip_columns::take_column(messages, l, c, message);
        encode::write_message(shape, message, codeword);
        strip_columns::put_column(codeword, codewords, l, c);
    }
}

// Encodes column by column.
#[tactic(auto, using(code::proofs::Bounds::n_most, strip_columns::proofs::Lengths::row_lent))]
fn write_columns(shape: Shape, messages: &[u8], l: usize, codewords: &mut [u8])
    requires { Plain shape × (1 ≤ l) × (l ≤ 4096) × (length messages.now ≡ shape.k * l) × (all_below (q shape.field) messages.now ≡ true) × (length codewords.old ≡ shape.n * l) }
    ensures { codewords.new ≡ encoded_strips shape l messages.now }
{
    let n = shape.n as usize;
    let k = shape.k as usize;
    let mut message = [0u8; 255];
    let mut codeword = [0u8; 255];
    encode_columns(
        shape,
        messages,
        l,
        &mut message[..k],
        &mut codeword[..n],
        codewords,
    );
}

// Whether a code is one over bytes with whole groups of r + 1 and at most sixteen blocks of message symbols, which tiles are for.
fn on_tiles(shape: Shape) -> bool
    requires { Plain shape }
    ensures { result ≡ true → ByteCode shape }
{
    shape.field != 0
        && shape.tolerance == 1
        && layout::missing_of(shape) == 0
        && group_plans::blocks_of(shape) <= 16
}

// Encodes strips that no question refuses: on tiles where the code is for them and the strips are long enough that it pays.
fn write_strips(shape: Shape, messages: &[u8], l: usize, codewords: &mut [u8])
    requires { Plain shape × (1 ≤ l) × (l ≤ 4096) × (length messages.now ≡ shape.k * l) × (all_below (q shape.field) messages.now ≡ true) × (length codewords.old ≡ shape.n * l) }
    ensures { codewords.new ≡ encoded_strips shape l messages.now }
{
    if l >= 16 && on_tiles(shape) {
        encode_tiles::write_tiles(shape, messages, l, codewords);
        return;
    }
    write_columns(shape, messages, l, codewords);
}

// Encodes strips for any plain family after the questions on its numbers.
#[tactic(auto, using(refusal::proofs::Refusals::chain), unfolding(crate::specs::Strips::EncodeStripsSays))]
pub fn encode_strips_with(
    asked: Result<(), Refusal>,
    shape: Shape,
    messages: &[u8],
    codewords: &mut [u8],
) -> Result<(), Refusal>
    requires { number_of asked ≡ 0 → Plain shape }
    ensures { EncodeStripsSays (number_of asked) shape messages.now (number_of result) codewords.old codewords.new }
{
    strips_asked(asked, shape, messages, codewords.len())?;
    let l = codewords.len() / shape.n as usize;
    write_strips(shape, messages, l, codewords);
    Ok(())
}

// Encodes k strips of messages into n strips of codewords: column c of these is encode of column c of those.
pub fn encode_strips(code: Code, messages: &[u8], codewords: &mut [u8]) -> Result<(), Refusal>
    ensures { EncodeStripsSays (code_refusal code) (single code) messages.now (number_of result) codewords.old codewords.new }
{
    encode_strips_with(
        acceptance::accepted(code),
        acceptance::single(code),
        messages,
        codewords,
    )
}
