// A group's span of the word and of the marks, by members: which one is lost, and the symbols of its mates.
// A group's span is the stretch from its first member to its last; its members stand step apart in it.
#![tactic(auto)]

ghost use Rattle.std.specs.Prelude.{◌≡◌, ℕ, ◌*◌, ◌<◌, length};
ghost use Rattle.algebra.specs.Sequence.{at, count};
ghost use Rattle.code.specs.Shape.{groups, members};
ghost use Rattle.code.specs.Decoding.{lost};
ghost use Rattle.code.specs.Laws.{Mending};
ghost use Rattle.layout.specs.Step.{span};
ghost use Rattle.weights.specs.Weights.{sixteen};
ghost use Rattle.spans.specs.Span.{part_mates};

use code::Shape;

// Which of so many marks, step apart, is the only one that is 1.
pub fn lost_member(marks: &[u8], step: usize, number: usize) -> usize
    requires { ((i : ℕ) → i < number → i * step < length marks.now) × (count (λ i. lost marks.now (i * step)) number ≡ 1) }
    ensures { (result < number) × (at marks.now (result * step) ≡ 1) }
{
    for i in 0..number {
        if marks[i * step] == 1 {
            return i;
        }
    }
    number
}

// The symbols of a group's span at the mates of a member, with zeros after them.
pub fn mates_of(shape: Shape, group: u32, part: &[u8], member: u32) -> [u8; 16]
    requires { Mending shape × (group < groups shape) × (member < members shape group) × (length part.now ≡ span shape group) }
    ensures { result ≡ sixteen (part_mates shape group member part.now) }
{
    let number = layout::members_of(shape, group) - 1;
    let step = layout::step_of(shape);
    let mut symbols = [0u8; 16];
    for i in 0..number {
        let mate = layout::mate_member(member, i);
        symbols[i as usize] = part[(mate * step) as usize];
    }
    symbols
}
