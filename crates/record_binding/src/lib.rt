// The record of a stripe as C takes it: ten numbers in a buffer.
#![tactic(auto)]

ghost use Rattle.std.specs.Prelude.{◌≡◌, length};
ghost use Rattle.refusal.specs.Refusal.{number_of};
ghost use Rattle.record_binding.specs.Record.{numbers_of, RecordFills};

use code::Code;
use recording::StripeRecord;
use refusal::{Refusal, require};

// Writes the ten numbers of a record.
#[tactic(auto, unfolding(binding::specs::Pack::code_row, crate::specs::Record::numbers_of))]
fn put_record(stripe: StripeRecord, numbers: &mut [u32])
    requires { length numbers.old ≡ 10 }
    ensures { numbers.new ≡ numbers_of stripe }
{
    let code = stripe.code;
    let outcome = stripe.outcome;
    let number = recording::outcome_number(outcome);
    let row = [
        code.field,
        code.r,
        code.n,
        code.k,
        code.wiring,
        stripe.lost,
        stripe.guarantee,
        stripe.grade,
        stripe.first,
        number,
    ];
    numbers.copy_from_slice(&row);
}

// Decodes a stripe and writes the ten numbers of its record.
#[tactic(auto, using(refusal::proofs::Refusals::chain), unfolding(code::specs::Question::ask, code::specs::Question::or_ask, decode::specs::Decode::decode_refusal, recording::specs::Recording::RecordSays, recording::specs::Recording::RecordAs, crate::specs::Record::record_refusal, crate::specs::Record::RecordFills, crate::specs::Record::RecordFillsAs))]
pub fn record_into(
    code: Code,
    word: &[u8],
    marks: &[u8],
    message: &mut [u8],
    work: &mut [u8],
    numbers: &mut [u32],
) -> Result<(), Refusal>
    ensures { RecordFills code word.now marks.now (number_of result) message.old message.new work.old work.new numbers.old numbers.new }
{
    acceptance::accepted(code)?;
    require(numbers.len() == 10, Refusal::Buffers)?;
    let shape = acceptance::single(code);
    let drawn = recording::record_with(Ok(()), code, shape, word, marks, message, work)?;
    put_record(drawn, numbers);
    Ok(())
}
