// The sheet reader as C takes it: the code is five numbers in a buffer.
#![tactic(auto)]

ghost use Rattle.refusal.specs.Refusal.{number_of};
ghost use Rattle.sheet_binding.specs.Sheet.{ReadFills};

use refusal::{Refusal, require};

// Reads a stripe sheet, and writes the five numbers of its code.
#[tactic(auto, unfolding(code::specs::Question::ask))]
pub fn read_into(
    sheet: &[u8],
    word: &mut [u8],
    marks: &mut [u8],
    code: &mut [u32],
) -> Result<(), Refusal>
    ensures { ReadFills sheet.now (number_of result) word.old word.new marks.old marks.new code.old code.new }
{
    require(code.len() == 5, Refusal::Buffers)?;
    let read = sheet::read_sheet(sheet, word, marks)?;
    binding::put_code(read, code);
    Ok(())
}
