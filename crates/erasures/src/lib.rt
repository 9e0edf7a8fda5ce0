// The calls on marks alone: how many slots are lost, and the first group with more losses than it stands.
#![tactic(auto)]

ghost use Rattle.std.specs.Prelude.{◌≡◌};
ghost use Rattle.code.specs.Family.{single, code_refusal};
ghost use Rattle.code.specs.Laws.{Plain};
ghost use Rattle.refusal.specs.Refusal.{number_of, answer_of};
ghost use Rattle.erasures.specs.Marks.{marks_refusal, LossesSays, FirstSays};

use code::{Code, Shape};
use refusal::{Refusal, require};

// Questions 5 and 8 after those before.
#[tactic(auto, using(refusal::proofs::Refusals::chain), unfolding(code::specs::Question::ask, code::specs::Question::or_ask, crate::specs::Marks::marks_refusal))]
fn marks_asked(asked: Result<(), Refusal>, shape: Shape, marks: &[u8]) -> Result<(), Refusal>
    ensures { number_of result ≡ marks_refusal (number_of asked) shape marks.now }
{
    asked?;
    require(marks.len() == shape.n as usize, Refusal::Buffers)?;
    require(questions::all_below(marks, 2), Refusal::Mark)
}

// How many slots are lost.
#[tactic(auto, using(refusal::proofs::Refusals::chain, crate::proofs::Refusals::marks_passed), unfolding(crate::specs::Marks::LossesSays))]
pub fn losses_with(asked: Result<(), Refusal>, shape: Shape, marks: &[u8]) -> Result<u32, Refusal>
    requires { number_of asked ≡ 0 → Plain shape }
    ensures { LossesSays (number_of asked) shape marks.now (answer_of result) }
{
    marks_asked(asked, shape, marks)?;
    Ok(losses::count_lost(shape, marks))
}

// The first group with more losses than it stands, 255 if none.
#[tactic(auto, using(refusal::proofs::Refusals::chain, crate::proofs::Refusals::marks_passed), unfolding(crate::specs::Marks::FirstSays))]
pub fn first_with(asked: Result<(), Refusal>, shape: Shape, marks: &[u8]) -> Result<u32, Refusal>
    requires { number_of asked ≡ 0 → Plain shape }
    ensures { FirstSays (number_of asked) shape marks.now (answer_of result) }
{
    marks_asked(asked, shape, marks)?;
    Ok(losses::first_group(shape, marks))
}

// The two calls on a code of the paper.
pub fn losses(code: Code, marks: &[u8]) -> Result<u32, Refusal>
    ensures { LossesSays (code_refusal code) (single code) marks.now (answer_of result) }
{
    losses_with(acceptance::accepted(code), acceptance::single(code), marks)
}

pub fn first_broken(code: Code, marks: &[u8]) -> Result<u32, Refusal>
    ensures { FirstSays (code_refusal code) (single code) marks.now (answer_of result) }
{
    first_with(acceptance::accepted(code), acceptance::single(code), marks)
}
