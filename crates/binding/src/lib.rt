// Answers in the forms that C takes: in one number, and in buffers in place of arrays and structs.
#![tactic(auto)]

ghost use Rattle.std.specs.Prelude.{◌≡◌, length};
ghost use Rattle.refusal.specs.Refusal.{number_of};
ghost use Rattle.binding.specs.Pack.{unpacked, code_row};
ghost use Rattle.binding.specs.Fill.{WeightsFill};

use code::{Answer, Code};
use refusal::{Refusal, require};

// An answer in one number: the refusal high, the value low.
pub fn packed(answer: Answer) -> u64
    ensures { unpacked result ≡ answer }
{
    answer.refusal as u64 * 0x1_0000_0000 + answer.value as u64
}

// Writes the five numbers of a code.
#[tactic(auto, unfolding(crate::specs::Pack::code_row))]
pub fn put_code(code: Code, numbers: &mut [u32])
    requires { length numbers.old ≡ 5 }
    ensures { numbers.new ≡ code_row code }
{
    let row = [code.field, code.r, code.n, code.k, code.wiring];
    numbers.copy_from_slice(&row);
}

// Writes the sixteen repair weights of a slot.
#[tactic(auto, using(refusal::proofs::Refusals::chain), unfolding(code::specs::Question::ask, code::specs::Question::or_ask, weights::specs::Weights::weights_refusal, crate::specs::Fill::weights_refusal, crate::specs::Fill::WeightsFill))]
pub fn weights_into(code: Code, slot: u32, weights: &mut [u8]) -> Result<(), Refusal>
    ensures { WeightsFill code slot (number_of result) weights.old weights.new }
{
    acceptance::accepted(code)?;
    require(weights.len() == 16, Refusal::Buffers)?;
    let sixteen = weights::weights_with(Ok(()), acceptance::single(code), slot)?;
    weights.copy_from_slice(&sixteen);
    Ok(())
}
