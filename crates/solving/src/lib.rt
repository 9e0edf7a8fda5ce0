// Which messages fit the kept symbols: interpolation within the guarantee; beyond it local repair where that is enough, else elimination.
#![tactic(auto)]

ghost use Rattle.std.specs.Prelude.{◌≡◌, length, replicate};
ghost use Rattle.code.specs.Laws.{Decodable};
ghost use Rattle.code.specs.Verdict.{Verdict};
ghost use Rattle.code.specs.Step.{Received};
ghost use Rattle.refusal.specs.Refusal.{number_of};
ghost use Rattle.elimination.specs.Task.{Task};
ghost use Rattle.solving.specs.Step.{Tried};

use code::Shape;
use refusal::Refusal;

// Interpolation where the losses are within the guarantee; None, and nothing written, where they are beyond it.
pub fn solve_sure(
    shape: Shape,
    word: &[u8],
    marks: &[u8],
    message: &mut [u8],
) -> Option<Result<(), Refusal>>
    requires { Decodable shape × Received shape word.now marks.now × (length message.old ≡ shape.k) }
    ensures { Tried shape word.now marks.now message.old message.new result }
{
    let lost = losses::count_lost(shape, marks);
    let sure = losses::guarantee_of(shape);
    let beyond = lost > sure;
    if beyond {
        return None;
    }
    Some(short_fitting::solve_within(shape, word, marks, message))
}

// Local repair of a copy, which the last two lent buffers are room for, then interpolation of it; None, and nothing written to the message,
// where the losses left are beyond the guarantee.
fn solve_mended(
    shape: Shape,
    word: &[u8],
    marks: &[u8],
    message: &mut [u8],
    copy: &mut [u8],
    left: &mut [u8],
) -> Option<Result<(), Refusal>>
    requires { Decodable shape × Received shape word.now marks.now × (length message.old ≡ shape.k) × (length copy.old ≡ shape.n) × (length left.old ≡ shape.n) }
    ensures { Tried shape word.now marks.now message.old message.new result }
{
    copy_mending::mend_copy(shape, word, marks, copy, left);
    solve_sure(shape, copy, left, message)
}

// Local repair of a copy where that brings the losses within the guarantee, elimination else. All of work is left 0.
fn solve_broken(
    shape: Shape,
    word: &[u8],
    marks: &[u8],
    message: &mut [u8],
    work: &mut [u8],
) -> Result<(), Refusal>
    requires { Decodable shape × Task shape word.now marks.now message.old work.old }
    ensures { Verdict shape word.now marks.now message.old message.new (number_of result) × (work.new ≡ replicate (length work.old) 0) }
{
    let n = shape.n as usize;
    let mut copy = [0u8; 255];
    let mut left = [0u8; 255];
    let verdict = solve_mended(shape, word, marks, message, &mut copy[..n], &mut left[..n]);
    match verdict {
        Some(decided) => {
            work.fill(0);
            decided
        }
        None => elimination::solve_beyond(shape, word, marks, message, work),
    }
}

// Just one message fits, and is written; or none does, which is Foreign, or more than one, which is Undecided. All of work is left 0.
pub fn solve(
    shape: Shape,
    word: &[u8],
    marks: &[u8],
    message: &mut [u8],
    work: &mut [u8],
) -> Result<(), Refusal>
    requires { Decodable shape × Task shape word.now marks.now message.old work.old }
    ensures { Verdict shape word.now marks.now message.old message.new (number_of result) × (work.new ≡ replicate (length work.old) 0) }
{
    match solve_sure(shape, word, marks, message) {
        Some(decided) => {
            work.fill(0);
            decided
        }
        None => solve_broken(shape, word, marks, message, work),
    }
}
