// The local pass: groups that have lost one slot mend themselves, where some codeword has the kept symbols.
#![tactic(auto)]

ghost use Rattle.std.specs.Prelude.{◌≡◌, ◌<◌, length};
ghost use Rattle.code.specs.Shape.{groups};
ghost use Rattle.code.specs.Family.{single, code_refusal};
ghost use Rattle.code.specs.Laws.{Mending, Decodable};
ghost use Rattle.refusal.specs.Refusal.{number_of, answer_of};
ghost use Rattle.pass.specs.Pass.{reads_below, pass_refusal, PassSays};
ghost use Rattle.pass.specs.Step.{group_reads_below};

use code::{Code, Shape};
use refusal::{Refusal, require};

// Whether every symbol that the pass reads of a group is below q.
fn group_below(shape: Shape, group: u32, word: &[u8], marks: &[u8]) -> bool
    requires { Mending shape × (group < groups shape) × (length word.now ≡ shape.n) × (length marks.now ≡ shape.n) }
    ensures { result ≡ group_reads_below shape group word.now marks.now }
{
    let members = layout::members_of(shape, group) as usize;
    let step = layout::step_of(shape) as usize;
    let first = layout::first_of(shape, group) as usize;
    let left = questions::losses_from(marks, first, step, members) != 1;
    if left {
        return true;
    }
    let q = tables::order(shape.field);
    questions::symbols_from(word, marks, first, step, members, q)
}

// Whether every symbol that the pass reads is below q.
fn pass_below(shape: Shape, word: &[u8], marks: &[u8]) -> bool
    requires { Mending shape × (length word.now ≡ shape.n) × (length marks.now ≡ shape.n) }
    ensures { result ≡ reads_below shape word.now marks.now }
{
    (0..layout::groups_of(shape)).all(|group| group_below(shape, group, word, marks))
}

// The questions of the local pass.
#[tactic(auto, using(refusal::proofs::Refusals::chain), unfolding(code::specs::Question::ask, code::specs::Question::or_ask, crate::specs::Pass::pass_refusal))]
fn pass_asked(
    asked: Result<(), Refusal>,
    shape: Shape,
    word: &[u8],
    marks: &[u8],
) -> Result<(), Refusal>
    requires { number_of asked ≡ 0 → Mending shape }
    ensures { number_of result ≡ pass_refusal (number_of asked) shape word.now marks.now }
{
    asked?;
    let n = shape.n as usize;
    require(word.len() == n && marks.len() == n, Refusal::Buffers)?;
    require(questions::all_below(marks, 2), Refusal::Mark)?;
    require(pass_below(shape, word, marks), Refusal::Symbol)
}

// The local pass over any shape whose groups stand one loss.
#[tactic(auto, using(refusal::proofs::Refusals::chain, crate::proofs::Refusals::pass_passed))]
pub fn local_pass_with(
    asked: Result<(), Refusal>,
    shape: Shape,
    word: &mut [u8],
    marks: &mut [u8],
) -> Result<u32, Refusal>
    requires { number_of asked ≡ 0 → Decodable shape }
    ensures { PassSays (number_of asked) shape word.old marks.old (answer_of result) word.new marks.new }
{
    pass_asked(asked, shape, word, marks)?;
    Ok(mending::mend_groups(shape, word, marks))
}

// Repairs each group with exactly one loss in its own slots of the word, and unmarks it; leaves it where no codeword has its kept symbols.
pub fn local_pass(code: Code, word: &mut [u8], marks: &mut [u8]) -> Result<u32, Refusal>
    ensures { PassSays (code_refusal code) (single code) word.old marks.old (answer_of result) word.new marks.new }
{
    local_pass_with(
        acceptance::accepted(code),
        acceptance::single(code),
        word,
        marks,
    )
}
