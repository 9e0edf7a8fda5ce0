// Elimination: the equations of the kept slots, and the messages that solve them.
#![tactic(auto)]

ghost use Rattle.std.specs.Prelude.{◌≡◌, ◌<◌, ◌≤◌, length, replicate};
ghost use Rattle.code.specs.Laws.{Plain};
ghost use Rattle.code.specs.Step.{Received};
ghost use Rattle.code.specs.Verdict.{Verdict};
ghost use Rattle.refusal.specs.Refusal.{number_of};
ghost use Rattle.linear.specs.System.{Echelon};
ghost use Rattle.elimination.specs.Task.{work_size, Task};
ghost use Rattle.elimination.specs.Step.{Taken, Gathered};

use code::Shape;
use refusal::{Refusal, require};

// Takes in the equation of slot p, if it is kept: false where no message is left.
fn take_slot(shape: Shape, p: u32, word: &[u8], marks: &[u8], work: &mut [u8]) -> bool
    requires { Plain shape × (p < shape.n) × Received shape word.now marks.now × Echelon shape.field shape.k work.old }
    ensures { Taken shape p word.now marks.now work.old work.new result }
{
    let i = p as usize;
    let lost = marks[i] == 1;
    if lost {
        return true;
    }
    let k = shape.k as usize;
    let t = k * (k + 1);
    generator_matrix::fill_row(shape, p, &mut work[t..]);
    linear::insert(shape.field, k, word[i], work)
}

// Takes in the equations of all kept slots: false where no message agrees with them.
fn gather(shape: Shape, word: &[u8], marks: &[u8], work: &mut [u8]) -> bool
    requires { Plain shape × Received shape word.now marks.now × (work_size shape ≤ length work.old) }
    ensures { Gathered shape word.now marks.now work.new result }
{
    work.fill(0);
    for p in 0..shape.n {
        if !take_slot(shape, p, word, marks, work) {
            return false;
        }
    }
    true
}

// Elimination: just one message fits, and is written; or none does, which is Foreign, or more than one, which is Undecided. All of work is left 0.
pub fn solve_beyond(
    shape: Shape,
    word: &[u8],
    marks: &[u8],
    message: &mut [u8],
    work: &mut [u8],
) -> Result<(), Refusal>
    requires { Plain shape × Task shape word.now marks.now message.old work.old }
    ensures { Verdict shape word.now marks.now message.old message.new (number_of result) × (work.new ≡ replicate (length work.old) 0) }
{
    if !gather(shape, word, marks, work) {
        work.fill(0);
        return Err(Refusal::Foreign);
    }
    let k = shape.k as usize;
    let one = linear::finish(shape.field, work, k, message);
    work.fill(0);
    require(one, Refusal::Undecided)
}
