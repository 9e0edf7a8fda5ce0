// Groups that have lost one slot mend themselves: the repair of one group in its span of a word, and of every group. A group is left as it
// is where no codeword has its kept symbols.
#![tactic(auto)]

ghost use Rattle.std.specs.Prelude.{◌≡◌, ◌<◌, length};
ghost use Rattle.code.specs.Shape.{groups};
ghost use Rattle.code.specs.Pass.{passed, marks_after, mended};
ghost use Rattle.code.specs.Laws.{Decodable};
ghost use Rattle.layout.specs.Step.{span};
ghost use Rattle.mending.specs.Step.{GroupMended};

use code::Shape;

// Repairs the lost symbol of a group with exactly one loss, where some codeword has its mates: 1 where it did.
fn mend_group(shape: Shape, group: u32, part: &mut [u8], marks: &mut [u8]) -> u32
    requires { Decodable shape × (group < groups shape) × (length part.old ≡ span shape group) × (length marks.old ≡ span shape group) }
    ensures { GroupMended shape group part.old marks.old result part.new marks.new }
{
    let members = layout::members_of(shape, group) as usize;
    let step = layout::step_of(shape) as usize;
    if questions::losses_from(marks, 0, step, members) != 1 {
        return 0;
    }
    let i = spans::lost_member(marks, step, members);
    let member = i as u32;
    let slot = layout::slot_at(shape, group, member);
    let weights = weights::weights_of(shape, slot);
    let number = members - 1;
    let mates = spans::mates_of(shape, group, part, member);
    let q = tables::order(shape.field);
    if !questions::strips_below(&mates[..number], q) {
        return 0;
    }
    let n = parity::checks_with(shape, number as u32) as usize;
    if n != 0 {
        if !parity::pass_checks(shape, slot, n, &mates) {
            return 0;
        }
    }
    let place = i * step;
    part[place] = arithmetic::dot(shape.field, &weights, &mates, number);
    marks[place] = 0;
    1
}

// Lends each group's span of the word and the marks to the repair of one group, and counts the groups repaired.
pub fn mend_groups(shape: Shape, word: &mut [u8], marks: &mut [u8]) -> u32
    requires { Decodable shape × (length word.old ≡ shape.n) × (length marks.old ≡ shape.n) }
    ensures { (word.new ≡ passed shape word.old marks.old) × (marks.new ≡ marks_after shape word.old marks.old) × (result ≡ mended shape word.old marks.old) }
{
    let all = layout::groups_of(shape);
    let mut number: u32 = 0;
    for j in 0..all {
        let start = layout::first_of(shape, j) as usize;
        let end = start + layout::span_of(shape, j) as usize;
        let one = mend_group(shape, j, &mut word[start..end], &mut marks[start..end]);
        number += one;
    }
    number
}
