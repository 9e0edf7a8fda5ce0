// Decoding within the guarantee, of whole groups or a short last one: a short code is decoded as a code of whole groups, whose missing places are
// kept and hold 0.
#![tactic(auto)]

ghost use Rattle.std.specs.Prelude.{◌≡◌, false, ℕ, ◌+◌, ◌≤◌, length};
ghost use Rattle.algebra.specs.Sequence.{at};
ghost use Rattle.code.specs.Shape.{room, missing, whole};
ghost use Rattle.code.specs.Codeword.{guarantee};
ghost use Rattle.code.specs.Erasure.{lost_number};
ghost use Rattle.code.specs.Laws.{Decodable};
ghost use Rattle.code.specs.Verdict.{Verdict};
ghost use Rattle.code.specs.Step.{Received};
ghost use Rattle.refusal.specs.Refusal.{number_of};
ghost use Rattle.shortening.specs.Mother.{mother};

use code::Shape;
use refusal::Refusal;

// Interpolation over all places, and the message of the short code in place of that of whole groups, which row is room for.
fn solve_long(
    shape: Shape,
    word: &[u8],
    marks: &[u8],
    row: &mut [u8],
    message: &mut [u8],
) -> Result<(), Refusal>
    requires { Decodable shape × (whole shape ≡ false) × Received (mother shape) word.now marks.now
        × ((p : ℕ) → shape.n ≤ p → (at word.now p ≡ 0) × (at marks.now p ≡ 0))
        × (length row.old ≡ shape.k + missing shape) × (length message.old ≡ shape.k)
        × (lost_number (mother shape) marks.now ≤ guarantee shape) }
    ensures { Verdict shape word.now marks.now message.old message.new (number_of result) }
{
    let mother = shortening::mother_of(shape);
    fitting::solve_within(mother, word, marks, row)?;
    shortening::shorten(shape, row, message);
    Ok(())
}

// The kept symbols and the marks with zeros behind them, for the missing places.
fn solve_short(shape: Shape, word: &[u8], marks: &[u8], message: &mut [u8]) -> Result<(), Refusal>
    requires { Decodable shape × (whole shape ≡ false) × Received shape word.now marks.now × (length message.old ≡ shape.k) × (lost_number shape marks.now ≤ guarantee shape) }
    ensures { Verdict shape word.now marks.now message.old message.new (number_of result) }
{
    let places = layout::room_of(shape) as usize;
    let number = (shape.k + layout::missing_of(shape)) as usize;
    let mut symbols = [0u8; 256];
    let mut left = [0u8; 256];
    let mut room = [0u8; 256];
    interpolation::load(word, marks, &mut symbols);
    left[..marks.len()].copy_from_slice(marks);
    solve_long(
        shape,
        &symbols[..places],
        &left[..places],
        &mut room[..number],
        message,
    )
}

// Interpolation, for losses within the guarantee: just one message fits, and is written; or none does, which is Foreign.
pub fn solve_within(
    shape: Shape,
    word: &[u8],
    marks: &[u8],
    message: &mut [u8],
) -> Result<(), Refusal>
    requires { Decodable shape × Received shape word.now marks.now × (length message.old ≡ shape.k) × (lost_number shape marks.now ≤ guarantee shape) }
    ensures { Verdict shape word.now marks.now message.old message.new (number_of result) }
{
    let short = layout::missing_of(shape) != 0;
    if short {
        return solve_short(shape, word, marks, message);
    }
    fitting::solve_within(shape, word, marks, message)
}
