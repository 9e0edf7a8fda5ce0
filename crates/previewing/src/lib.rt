// The preview: what would follow the loss of one slot more.
#![tactic(auto)]

ghost use Rattle.std.specs.Prelude.{◌≡◌, ◌<◌, length, Ok};
ghost use Rattle.code.specs.Family.{single, code_refusal};
ghost use Rattle.code.specs.Laws.{Decodable};
ghost use Rattle.code.specs.Work.{cleared};
ghost use Rattle.grading.specs.Step.{Marked};
ghost use Rattle.refusal.specs.Refusal.{number_of};
ghost use Rattle.previewing.specs.Preview.{preview_refusal, preview_of, previewed_of, PreviewSays};

use code::{Code, Shape};
use grading::Graded;
use refusal::{Refusal, require};

// The preview of a slot, of marks that no question refuses, in the front of work. The slot is marked in them meanwhile; in the end they are as
// they were.
pub fn preview_in(shape: Shape, slot: u32, marks: &mut [u8], work: &mut [u8]) -> Graded
    requires { Marked shape marks.old (length work.old) × (slot < shape.n) }
    ensures { (previewed_of (Ok result) ≡ preview_of shape slot marks.old) × (marks.new ≡ marks.old) × (work.new ≡ cleared shape work.old) }
{
    let place = slot as usize;
    let before = marks[place];
    marks[place] = 1;
    let seen = grading::graded_in(shape, marks, work);
    marks[place] = before;
    seen
}

// Questions 5, 7 and 8, and those before; work is its buffer's length.
#[tactic(auto, using(refusal::proofs::Refusals::chain), unfolding(code::specs::Question::ask, code::specs::Question::or_ask, grading::specs::Step::lengths_refusal, crate::specs::Preview::preview_refusal))]
fn preview_asked(
    asked: Result<(), Refusal>,
    shape: Shape,
    slot: u32,
    marks: &[u8],
    work: usize,
) -> Result<(), Refusal>
    requires { number_of asked ≡ 0 → Decodable shape }
    ensures { number_of result ≡ preview_refusal (number_of asked) shape slot marks.now work }
{
    grading::lengths_asked(asked, shape, marks.len(), work)?;
    require(slot < shape.n, Refusal::Slot)?;
    require(questions::all_below(marks, 2), Refusal::Mark)
}

// Previews the loss of a slot, of any family, on a copy of the marks: after the questions on its numbers.
#[tactic(auto, using(refusal::proofs::Refusals::chain), unfolding(crate::specs::Preview::PreviewSays, crate::specs::Preview::PreviewAs))]
pub fn preview_with(
    asked: Result<(), Refusal>,
    shape: Shape,
    slot: u32,
    marks: &[u8],
    work: &mut [u8],
) -> Result<Graded, Refusal>
    requires { number_of asked ≡ 0 → Decodable shape }
    ensures { PreviewSays (number_of asked) shape slot marks.now (previewed_of result) work.old work.new }
{
    preview_asked(asked, shape, slot, marks, work.len())?;
    let n = shape.n as usize;
    let mut copy = [0u8; 255];
    copying::copy(marks, 0, n, &mut copy, 0);
    Ok(preview_in(shape, slot, &mut copy[..n], work))
}

// Previews the loss of a slot.
pub fn preview(code: Code, slot: u32, marks: &[u8], work: &mut [u8]) -> Result<Graded, Refusal>
    ensures { PreviewSays (code_refusal code) (single code) slot marks.now (previewed_of result) work.old work.new }
{
    preview_with(
        acceptance::accepted(code),
        acceptance::single(code),
        slot,
        marks,
        work,
    )
}
