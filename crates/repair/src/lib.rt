// Repair and strip rebuild, of any shape whose groups stand one loss.
#![tactic(auto)]

ghost use Rattle.std.specs.Prelude.{◌≡◌, length};
ghost use Rattle.code.specs.Family.{single, code_refusal};
ghost use Rattle.code.specs.Shape.{mates, mates_number};
ghost use Rattle.code.specs.Answer.{Answers};
ghost use Rattle.code.specs.Laws.{Decodable};
ghost use Rattle.code.specs.Held.{columns_held};
ghost use Rattle.refusal.specs.Refusal.{number_of, answer_of};
ghost use Rattle.repair.specs.Mates.{strips_refusal, mates_refusal, RepairSays, RebuildSays};
ghost use Rattle.repair.specs.Promise.{Strips};

use code::{Code, Shape};
use refusal::{Refusal, require};

// What repair and strip rebuild ask before 9: how many mates there are; l is the length of each mate's strip.
#[tactic(auto, using(refusal::proofs::Refusals::chain), unfolding(code::specs::Question::ask, code::specs::Question::or_ask, crate::specs::Mates::strips_fit, crate::specs::Mates::strips_refusal))]
fn strips_asked(
    asked: Result<(), Refusal>,
    shape: Shape,
    slot: u32,
    strips: &[u8],
    l: usize,
) -> Result<u32, Refusal>
    requires { number_of asked ≡ 0 → Decodable shape }
    ensures { Answers (strips_refusal (number_of asked) shape slot l strips.now) (mates_number shape slot) (answer_of result) }
{
    asked?;
    require((1..=4096).contains(&l), Refusal::Buffers)?;
    let number = layout::mates_number(shape, slot);
    require(strips.len() == number as usize * l, Refusal::Buffers)?;
    require(slot < shape.n, Refusal::Slot)?;
    let below = questions::strips_below(strips, tables::order(shape.field));
    require(below, Refusal::Symbol)?;
    Ok(number)
}

// Question 9. The columns are tested only where there are checks.
fn columns_fit(shape: Shape, slot: u32, number: u32, strips: &[u8], l: usize) -> bool
    requires { Decodable shape × Strips shape slot l strips.now × (number ≡ length (mates shape slot)) }
    ensures { result ≡ columns_held shape slot l strips.now }
{
    let n = parity::checks_with(shape, number) as usize;
    n == 0 || strip_parity::columns_held(shape, slot, n, strips, l)
}

// All that repair and strip rebuild ask, and how many mates there are.
#[tactic(auto, using(refusal::proofs::Refusals::chain), unfolding(code::specs::Answer::Answers, code::specs::Question::ask, code::specs::Question::or_ask, crate::specs::Mates::mates_refusal))]
fn mates_asked(
    asked: Result<(), Refusal>,
    shape: Shape,
    slot: u32,
    strips: &[u8],
    l: usize,
) -> Result<u32, Refusal>
    requires { number_of asked ≡ 0 → Decodable shape }
    ensures { Answers (mates_refusal (number_of asked) shape slot l strips.now) (mates_number shape slot) (answer_of result) }
{
    let number = strips_asked(asked, shape, slot, strips, l)?;
    require(
        columns_fit(shape, slot, number, strips, l),
        Refusal::Foreign,
    )?;
    Ok(number)
}

// The repair call over any shape.
#[tactic(auto, using(refusal::proofs::Refusals::chain), unfolding(code::specs::Answer::Answers, crate::specs::Mates::RepairSays))]
pub fn repair_with(
    asked: Result<(), Refusal>,
    shape: Shape,
    slot: u32,
    mates: &[u8],
) -> Result<u32, Refusal>
    requires { number_of asked ≡ 0 → Decodable shape }
    ensures { RepairSays (number_of asked) shape slot mates.now (answer_of result) }
{
    mates_asked(asked, shape, slot, mates, 1)?;
    let weights = weights::weights_of(shape, slot);
    let symbol = columns::rebuild_column(shape.field, &weights, mates.len(), mates);
    Ok(symbol as u32)
}

// The symbol of a slot from its mates' symbols in slot order.
pub fn repair(code: Code, slot: u32, mates: &[u8]) -> Result<u32, Refusal>
    ensures { RepairSays (code_refusal code) (single code) slot mates.now (answer_of result) }
{
    repair_with(
        acceptance::accepted(code),
        acceptance::single(code),
        slot,
        mates,
    )
}

// The strip rebuild call over any shape: the weights are made once, and what rebuilds the columns is handed nothing else of the slot.
#[tactic(auto, using(refusal::proofs::Refusals::chain), unfolding(code::specs::Answer::Answers, crate::specs::Mates::RebuildSays))]
pub fn rebuild_with(
    asked: Result<(), Refusal>,
    shape: Shape,
    slot: u32,
    strips: &[u8],
    output: &mut [u8],
) -> Result<(), Refusal>
    requires { number_of asked ≡ 0 → Decodable shape }
    ensures { RebuildSays (number_of asked) shape slot strips.now (number_of result) output.old output.new }
{
    let number = mates_asked(asked, shape, slot, strips, output.len())? as usize;
    let weights = weights::weights_of(shape, slot);
    columns::rebuild_columns(shape.field, &weights, number, strips, output);
    Ok(())
}

// Rebuilds a strip from its mates' strips laid end to end.
pub fn rebuild(code: Code, slot: u32, strips: &[u8], output: &mut [u8]) -> Result<(), Refusal>
    ensures { RebuildSays (code_refusal code) (single code) slot strips.now (number_of result) output.old output.new }
{
    rebuild_with(
        acceptance::accepted(code),
        acceptance::single(code),
        slot,
        strips,
        output,
    )
}
