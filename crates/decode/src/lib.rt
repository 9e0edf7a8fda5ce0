// Decoding: the questions, then the message that alone agrees with the kept symbols.
#![tactic(auto)]

ghost use Rattle.std.specs.Prelude.{◌≡◌, ◌*◌, ◌+◌, length};
ghost use Rattle.code.specs.Family.{single, code_refusal};
ghost use Rattle.code.specs.Verdict.{Verdict};
ghost use Rattle.code.specs.Work.{cleared};
ghost use Rattle.code.specs.Laws.{Decodable};
ghost use Rattle.refusal.specs.Refusal.{number_of};
ghost use Rattle.decode.specs.Decode.{decode_refusal, DecodeSays};
ghost use Rattle.decode.specs.Step.{Handed};

use code::{Code, Shape};
use refusal::{Refusal, require};

// Questions 5, 8 and 6, and those before; message and work are their buffers' lengths.
#[tactic(auto, using(refusal::proofs::Refusals::chain), unfolding(code::specs::Question::ask, code::specs::Question::or_ask, code::specs::Work::used, crate::specs::Decode::decode_refusal))]
pub fn decode_asked(
    asked: Result<(), Refusal>,
    shape: Shape,
    word: &[u8],
    marks: &[u8],
    message: usize,
    work: usize,
) -> Result<(), Refusal>
    requires { number_of asked ≡ 0 → Decodable shape }
    ensures { number_of result ≡ decode_refusal (number_of asked) shape word.now marks.now message work }
{
    asked?;
    let n = shape.n as usize;
    let k = shape.k as usize;
    let used = n * (k + 1);
    let sized = word.len() == n && marks.len() == n;
    let roomy = message == k && used <= work;
    require(sized && roomy, Refusal::Buffers)?;
    require(questions::all_below(marks, 2), Refusal::Mark)?;
    require(questions::kept_below(shape, word, marks), Refusal::Symbol)
}

// Settles a word that no question refuses, in the front of work.
pub fn settle(
    shape: Shape,
    word: &[u8],
    marks: &[u8],
    message: &mut [u8],
    work: &mut [u8],
) -> Result<(), Refusal>
    requires { Handed shape word.now marks.now (length message.old) (length work.old) }
    ensures { Verdict shape word.now marks.now message.old message.new (number_of result) × (work.new ≡ cleared shape work.old) }
{
    let n = shape.n as usize;
    let k = shape.k as usize;
    let used = n * (k + 1);
    solving::solve(shape, word, marks, message, &mut work[..used])
}

// Decode of any family: after the questions on its numbers.
#[tactic(auto, using(refusal::proofs::Refusals::chain, crate::proofs::Refusals::handed), unfolding(crate::specs::Decode::DecodeSays, crate::specs::Decode::DecodeAs))]
pub fn decode_with(
    asked: Result<(), Refusal>,
    shape: Shape,
    word: &[u8],
    marks: &[u8],
    message: &mut [u8],
    work: &mut [u8],
) -> Result<(), Refusal>
    requires { number_of asked ≡ 0 → Decodable shape }
    ensures { DecodeSays (number_of asked) shape word.now marks.now (number_of result) message.old message.new work.old work.new }
{
    decode_asked(asked, shape, word, marks, message.len(), work.len())?;
    settle(shape, word, marks, message, work)
}

// Decodes the kept symbols of a word into the message that alone agrees with them.
pub fn decode(
    code: Code,
    word: &[u8],
    marks: &[u8],
    message: &mut [u8],
    work: &mut [u8],
) -> Result<(), Refusal>
    ensures { DecodeSays (code_refusal code) (single code) word.now marks.now (number_of result) message.old message.new work.old work.new }
{
    decode_with(
        acceptance::accepted(code),
        acceptance::single(code),
        word,
        marks,
        message,
        work,
    )
}
