// Repair weights, of any shape whose groups stand one loss.
#![tactic(auto)]

ghost use Rattle.std.specs.Prelude.{◌≡◌, ◌<◌};
ghost use Rattle.code.specs.Family.{single, code_refusal};
ghost use Rattle.code.specs.Laws.{Mending};
ghost use Rattle.code.specs.Repair.{weights};
ghost use Rattle.refusal.specs.Refusal.{number_of};
ghost use Rattle.weights.specs.RepairWeights.{weights_answer};
ghost use Rattle.weights.specs.Weights.{sixteen, WeightsSay};

use code::{Code, Shape};
use refusal::{Refusal, require};

// The repair weights of a slot, with zeros after them: minus each mate's point by the slot's. That quotient is the point of group 0 as many
// members on as the mate is from the slot, round a whole group even where the slot's is short.
pub fn weights_of(shape: Shape, slot: u32) -> [u8; 16]
    requires { Mending shape × (slot < shape.n) }
    ensures { result ≡ sixteen (weights shape slot) }
{
    let field = shape.field;
    let size = layout::size_of(shape);
    let group = layout::group_of(shape, slot);
    let member = layout::member_of(shape, slot);
    let members = layout::members_of(shape, group);
    let width = layout::width_of(shape);
    let mut weights = [0u8; 16];
    for i in 0..members - 1 {
        let steps = layout::mate_steps(size, member, i);
        let y = layout::member_point(field, width, 0, steps);
        weights[i as usize] = arithmetic::sub(field, 0, y);
    }
    weights
}

// The weights call over any shape.
#[tactic(auto, using(refusal::proofs::Refusals::chain, crate::proofs::Sixteen::sixteen_none), unfolding(code::specs::Question::ask, code::specs::Question::or_ask, crate::specs::Weights::weights_refusal))]
pub fn weights_with(
    asked: Result<(), Refusal>,
    shape: Shape,
    slot: u32,
) -> Result<[u8; 16], Refusal>
    requires { number_of asked ≡ 0 → Mending shape }
    ensures { WeightsSay (number_of asked) shape slot (weights_answer result) }
{
    asked?;
    require(slot < shape.n, Refusal::Slot)?;
    Ok(weights_of(shape, slot))
}

// The repair weights of a slot, in slot order of its mates.
pub fn weights(code: Code, slot: u32) -> Result<[u8; 16], Refusal>
    ensures { WeightsSay (code_refusal code) (single code) slot (weights_answer result) }
{
    weights_with(acceptance::accepted(code), acceptance::single(code), slot)
}
