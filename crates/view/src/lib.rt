// The group view: the part of a word that is a slot's repair group.
#![tactic(auto)]

ghost use Rattle.std.specs.Prelude.{◌≡◌};
ghost use Rattle.code.specs.Family.{single, code_refusal};
ghost use Rattle.code.specs.Answer.{Answers};
ghost use Rattle.code.specs.Laws.{Mending};
ghost use Rattle.refusal.specs.Refusal.{number_of, answer_of};
ghost use Rattle.view.specs.View.{view_refusal, first_slot, ViewSays};

use code::{Code, Shape};
use refusal::{Refusal, require};

// The questions of the group view over any shape.
#[tactic(auto, using(refusal::proofs::Refusals::chain), unfolding(code::specs::Question::ask, code::specs::Question::or_ask, code::specs::Shape::wired, crate::specs::View::view_refusal))]
pub fn group_view_refusal_with(
    asked: Result<(), Refusal>,
    shape: Shape,
    slot: u32,
    word: &[u8],
) -> Result<(), Refusal>
    ensures { number_of result ≡ view_refusal (number_of asked) shape slot word.now }
{
    asked?;
    require(shape.wiring != 1, Refusal::View)?;
    require(word.len() == shape.n as usize, Refusal::Buffers)?;
    require(slot < shape.n, Refusal::Slot)
}

// The group view over any shape whose groups stand one loss. ViewSays has an empty view on a refusal, so it is no Result.
pub fn group_view_with(asked: Result<(), Refusal>, shape: Shape, slot: u32, word: &[u8]) -> &[u8]
    requires { number_of asked ≡ 0 → Mending shape }
    ensures { ViewSays (number_of asked) shape slot word.entry result }
{
    let refused = group_view_refusal_with(asked, shape, slot, word).is_err();
    if refused {
        return &word[..0];
    }
    let group = layout::group_of(shape, slot);
    let start = layout::first_of(shape, group) as usize;
    let end = start + layout::members_of(shape, group) as usize;
    &word[start..end]
}

// The questions of the group view on the same inputs.
pub fn group_view_refusal(code: Code, slot: u32, word: &[u8]) -> Result<(), Refusal>
    ensures { number_of result ≡ view_refusal (code_refusal code) (single code) slot word.now }
{
    group_view_refusal_with(
        acceptance::accepted(code),
        acceptance::single(code),
        slot,
        word,
    )
}

// The part of the word that is the slot's group, or the empty part at the word's start.
pub fn group_view(code: Code, slot: u32, word: &[u8]) -> &[u8]
    ensures { ViewSays (code_refusal code) (single code) slot word.entry result }
{
    group_view_with(
        acceptance::accepted(code),
        acceptance::single(code),
        slot,
        word,
    )
}

// The first slot of a slot's group in a word.
#[tactic(auto, using(refusal::proofs::Refusals::chain), unfolding(crate::specs::View::first_slot))]
pub fn view_first(code: Code, slot: u32, word: &[u8]) -> Result<u32, Refusal>
    ensures { Answers (view_refusal (code_refusal code) (single code) slot word.now) (first_slot code slot) (answer_of result) }
{
    group_view_refusal(code, slot, word)?;
    let shape = acceptance::single(code);
    let first = layout::first_of(shape, layout::group_of(shape, slot));
    Ok(first)
}
