// Decoding that mends near home first: the local pass on a copy, then the message that alone agrees with what the copy keeps.
#![tactic(auto)]

ghost use Rattle.std.specs.Prelude.{◌≡◌, length, replicate};
ghost use Rattle.code.specs.Family.{single, code_refusal};
ghost use Rattle.code.specs.Laws.{Decodable};
ghost use Rattle.code.specs.Verdict.{Verdict};
ghost use Rattle.code.specs.Work.{cleared};
ghost use Rattle.elimination.specs.Task.{Task};
ghost use Rattle.refusal.specs.Refusal.{number_of, answer_of};
ghost use Rattle.decode.specs.Step.{Handed};
ghost use Rattle.decode_near.specs.Near.{NearSolved, NearSays};

use code::{Code, Shape};
use refusal::Refusal;

// Settles what the pass has left, from the mended copy and its marks alone. All of work is left 0.
fn settle_left(
    shape: Shape,
    copy: &[u8],
    left: &[u8],
    message: &mut [u8],
    work: &mut [u8],
) -> Result<(), Refusal>
    requires { Decodable shape × Task shape copy.now left.now message.old work.old }
    ensures { Verdict shape copy.now left.now message.old message.new (number_of result) × (work.new ≡ replicate (length work.old) 0) }
{
    match solving::solve_sure(shape, copy, left, message) {
        Some(decided) => {
            work.fill(0);
            decided
        }
        None => elimination::solve_beyond(shape, copy, left, message, work),
    }
}

// The local pass on a copy, which the last two buffers are room for, and what it leaves. All of work is left 0.
#[tactic(auto, using(crate::proofs::Replies::solved))]
fn solve_near(
    shape: Shape,
    word: &[u8],
    marks: &[u8],
    message: &mut [u8],
    work: &mut [u8],
    copy: &mut [u8],
    left: &mut [u8],
) -> Result<u32, Refusal>
    requires { Decodable shape × Task shape word.now marks.now message.old work.old × (length copy.old ≡ shape.n) × (length left.old ≡ shape.n) }
    ensures { NearSolved shape word.now marks.now (answer_of result) message.old message.new × (work.new ≡ replicate (length work.old) 0) }
{
    let number = copy_mending::mend_copy(shape, word, marks, copy, left);
    let verdict = settle_left(shape, copy, left, message, work);
    verdict?;
    Ok(number)
}

// Settles a word that no question refuses, in the front of work.
fn settle_near(
    shape: Shape,
    word: &[u8],
    marks: &[u8],
    message: &mut [u8],
    work: &mut [u8],
) -> Result<u32, Refusal>
    requires { Handed shape word.now marks.now (length message.old) (length work.old) }
    ensures { NearSolved shape word.now marks.now (answer_of result) message.old message.new × (work.new ≡ cleared shape work.old) }
{
    let n = shape.n as usize;
    let k = shape.k as usize;
    let used = n * (k + 1);
    let mut copy = [0u8; 255];
    let mut left = [0u8; 255];
    solve_near(
        shape,
        word,
        marks,
        message,
        &mut work[..used],
        &mut copy[..n],
        &mut left[..n],
    )
}

// decode_near of any family: after the questions on its numbers.
#[tactic(auto, using(refusal::proofs::Refusals::chain, decode::proofs::Refusals::handed), unfolding(crate::specs::Near::NearSays, crate::specs::Near::NearAs))]
pub fn decode_near_with(
    asked: Result<(), Refusal>,
    shape: Shape,
    word: &[u8],
    marks: &[u8],
    message: &mut [u8],
    work: &mut [u8],
) -> Result<u32, Refusal>
    requires { number_of asked ≡ 0 → Decodable shape }
    ensures { NearSays (number_of asked) shape word.now marks.now (answer_of result) message.old message.new work.old work.new }
{
    decode::decode_asked(asked, shape, word, marks, message.len(), work.len())?;
    settle_near(shape, word, marks, message, work)
}

// Decodes as decode does, after the local pass on a copy; answers also how many groups the pass mended, 0 on a refusal.
pub fn decode_near(
    code: Code,
    word: &[u8],
    marks: &[u8],
    message: &mut [u8],
    work: &mut [u8],
) -> Result<u32, Refusal>
    ensures { NearSays (code_refusal code) (single code) word.now marks.now (answer_of result) message.old message.new work.old work.new }
{
    decode_near_with(
        acceptance::accepted(code),
        acceptance::single(code),
        word,
        marks,
        message,
        work,
    )
}
