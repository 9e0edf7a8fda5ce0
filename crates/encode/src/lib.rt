// The codeword of a message, or the refusal.
#![tactic(auto)]

ghost use Rattle.std.specs.Prelude.{◌≡◌, true, false, ◌+◌, length};
ghost use Rattle.code.specs.Family.{single, code_refusal};
ghost use Rattle.code.specs.Shape.{missing, whole};
ghost use Rattle.code.specs.Codeword.{is_message, encoded};
ghost use Rattle.code.specs.Laws.{Plain};
ghost use Rattle.refusal.specs.Refusal.{number_of};
ghost use Rattle.encode.specs.Encode.{encode_refusal, EncodeSays};

use code::{Code, Shape};
use refusal::{Refusal, require};

// Questions 5 and 6 after those before; length is that of the codeword's buffer.
#[tactic(auto, using(refusal::proofs::Refusals::chain), unfolding(code::specs::Question::ask, code::specs::Question::or_ask, crate::specs::Encode::encode_refusal))]
fn encode_asked(
    asked: Result<(), Refusal>,
    shape: Shape,
    message: &[u8],
    length: usize,
) -> Result<(), Refusal>
    ensures { number_of result ≡ encode_refusal (number_of asked) shape message.now length }
{
    asked?;
    require(
        message.len() == shape.k as usize && length == shape.n as usize,
        Refusal::Buffers,
    )?;
    require(
        questions::all_below(message, tables::order(shape.field)),
        Refusal::Symbol,
    )
}

// Writes the codeword of a message of a code with a short last group: of its row, in powers of g.
fn write_short(shape: Shape, message: &[u8], row: &mut [u8], codeword: &mut [u8])
    requires { Plain shape × (whole shape ≡ false) × (is_message shape message.now ≡ true) × (length row.old ≡ shape.k + missing shape) × (length codeword.old ≡ shape.n) }
    ensures { codeword.new ≡ encoded shape message.now }
{
    lengthening::expand(shape, message, row);
    let c = layout::constant_of(shape);
    evaluation::write_codeword(shape, row, c, codeword);
}

// Writes the codeword of a message. Where groups are whole the message is its row, in powers of X to the power of the group size.
pub fn write_message(shape: Shape, message: &[u8], codeword: &mut [u8])
    requires { Plain shape × (is_message shape message.now ≡ true) × (length codeword.old ≡ shape.n) }
    ensures { codeword.new ≡ encoded shape message.now }
{
    let missing = layout::missing_of(shape) as usize;
    let whole = missing == 0;
    if whole {
        evaluation::write_codeword(shape, message, 0, codeword);
    } else {
        let long = message.len() + missing;
        let mut room = [0u8; 256];
        let row = &mut room[..long];
        write_short(shape, message, row, codeword);
    }
}

// Encodes for any plain family, whole groups or a short last one, after the questions on its numbers.
#[tactic(auto, using(refusal::proofs::Refusals::chain, crate::proofs::Refusal::encode_passed, code::proofs::Codewords::is_message_of), unfolding(crate::specs::Encode::EncodeSays))]
pub fn encode_with(
    asked: Result<(), Refusal>,
    shape: Shape,
    message: &[u8],
    codeword: &mut [u8],
) -> Result<(), Refusal>
    requires { number_of asked ≡ 0 → Plain shape }
    ensures { EncodeSays (number_of asked) shape message.now (number_of result) codeword.old codeword.new }
{
    encode_asked(asked, shape, message, codeword.len())?;
    write_message(shape, message, codeword);
    Ok(())
}

// Encodes k message symbols into n codeword symbols.
pub fn encode(code: Code, message: &[u8], codeword: &mut [u8]) -> Result<(), Refusal>
    ensures { EncodeSays (code_refusal code) (single code) message.now (number_of result) codeword.old codeword.new }
{
    encode_with(
        acceptance::accepted(code),
        acceptance::single(code),
        message,
        codeword,
    )
}
