// The preview as C takes it: three numbers in a buffer.
#![tactic(auto)]

ghost use Rattle.refusal.specs.Refusal.{number_of};
ghost use Rattle.preview_binding.specs.Preview.{PreviewFills};

use code::Code;
use refusal::{Refusal, require};

// Previews the loss of a slot, and writes the number lost, the grade and the first broken group that follow.
#[tactic(auto, using(refusal::proofs::Refusals::chain), unfolding(code::specs::Question::ask, code::specs::Question::or_ask, previewing::specs::Preview::preview_refusal, crate::specs::Preview::fill_refusal, crate::specs::Preview::PreviewFills, crate::specs::Preview::PreviewFillsAs))]
pub fn preview_into(
    code: Code,
    slot: u32,
    marks: &[u8],
    work: &mut [u8],
    numbers: &mut [u32],
) -> Result<(), Refusal>
    ensures { PreviewFills code slot marks.now (number_of result) work.old work.new numbers.old numbers.new }
{
    acceptance::accepted(code)?;
    require(numbers.len() == 3, Refusal::Buffers)?;
    let shape = acceptance::single(code);
    let seen = previewing::preview_with(Ok(()), shape, slot, marks, work)?;
    let row = [seen.lost, seen.grade, seen.first];
    numbers.copy_from_slice(&row);
    Ok(())
}
