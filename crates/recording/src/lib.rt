// The stripe's record: its losses counted and graded, and the outcome of decoding it.
#![tactic(auto)]

ghost use Rattle.std.specs.Prelude.{◌≡◌};
ghost use Rattle.code.specs.Family.{single, code_refusal};
ghost use Rattle.code.specs.Laws.{Decodable};
ghost use Rattle.refusal.specs.Refusal.{number_of};
ghost use Rattle.recording.specs.Recording.{outcome_number, recorded_of, RecordSays};
ghost use Rattle.recording.specs.Step.{IsVerdict};

use code::{Code, Shape};
use refusal::Refusal;

// What became of a stripe: its message is decided, no codeword agrees, or more than one does.
#[derive(Clone, Copy)]
pub enum Outcome {
    Decided,
    Foreign,
    Undecided,
}

// A stripe's record: its code, the number lost, the guarantee, the grade, the first broken group, and the outcome.
#[derive(Clone, Copy)]
pub struct StripeRecord {
    pub code: Code,
    pub lost: u32,
    pub guarantee: u32,
    pub grade: u32,
    pub first: u32,
    pub outcome: Outcome,
}

// The outcome that a verdict stands for: no codeword and more than one are outcomes too.
#[tactic(auto, unfolding(crate::specs::Recording::outcome_number))]
fn outcome_of(verdict: Result<(), Refusal>) -> Outcome
    requires { IsVerdict (number_of verdict) }
    ensures { outcome_number result ≡ number_of verdict }
{
    match verdict {
        Ok(()) => Outcome::Decided,
        Err(Refusal::Foreign) => Outcome::Foreign,
        Err(_) => Outcome::Undecided,
    }
}

// The paper's number of an outcome.
#[tactic(auto, unfolding(crate::specs::Recording::outcome_number))]
pub fn outcome_number(outcome: Outcome) -> u32
    ensures { result ≡ outcome_number outcome }
{
    match outcome {
        Outcome::Decided => 0,
        Outcome::Foreign => 9,
        Outcome::Undecided => 10,
    }
}

// The record of any family: after the questions on its numbers.
#[tactic(auto, using(refusal::proofs::Refusals::chain, decode::proofs::Refusals::handed), unfolding(crate::specs::Recording::RecordSays, crate::specs::Recording::RecordAs))]
pub fn record_with(
    asked: Result<(), Refusal>,
    code: Code,
    shape: Shape,
    word: &[u8],
    marks: &[u8],
    message: &mut [u8],
    work: &mut [u8],
) -> Result<StripeRecord, Refusal>
    requires { number_of asked ≡ 0 → Decodable shape }
    ensures { RecordSays (number_of asked) code shape word.now marks.now (recorded_of result) message.old message.new work.old work.new }
{
    decode::decode_asked(asked, shape, word, marks, message.len(), work.len())?;
    let verdict = decode::settle(shape, word, marks, message, work);
    let guarantee = losses::guarantee_of(shape);
    let seen = grading::graded_in(shape, marks, work);
    let outcome = outcome_of(verdict);
    Ok(StripeRecord {
        code,
        lost: seen.lost,
        guarantee,
        grade: seen.grade,
        first: seen.first,
        outcome,
    })
}

// Decodes a stripe and draws up its record; no codeword and more than one are outcomes.
pub fn record(
    code: Code,
    word: &[u8],
    marks: &[u8],
    message: &mut [u8],
    work: &mut [u8],
) -> Result<StripeRecord, Refusal>
    ensures { RecordSays (code_refusal code) code (single code) word.now marks.now (recorded_of result) message.old message.new work.old work.new }
{
    record_with(
        acceptance::accepted(code),
        code,
        acceptance::single(code),
        word,
        marks,
        message,
        work,
    )
}
