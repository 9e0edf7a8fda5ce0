// The values of a row's polynomial at the points of the slots, group by group.
#![tactic(auto)]

ghost use Rattle.std.specs.Prelude.{◌≡◌, ◌<◌, length};
ghost use Rattle.code.specs.Shape.{groups};
ghost use Rattle.code.specs.Laws.{Placed};
ghost use Rattle.evaluation.specs.Step.{evaluated, GroupWritten};

use code::Shape;

// Writes the values of a row's polynomial to the slots of a group.
fn write_group(shape: Shape, row: &[u8], c: u8, group: u32, codeword: &mut [u8])
    requires { Placed shape × (group < groups shape) × (length codeword.old ≡ shape.n) }
    ensures { GroupWritten shape c row.now group codeword.old codeword.new }
{
    let members = layout::members_of(shape, group) as usize;
    let first = layout::first_of(shape, group) as usize;
    let step = layout::step_of(shape) as usize;
    let symbols = local_code::group_symbols(shape, row, c, group);
    for i in 0..members {
        codeword[first + i * step] = symbols[i];
    }
}

// Writes the values of a row's polynomial to all slots, group by group.
pub fn write_codeword(shape: Shape, row: &[u8], c: u8, codeword: &mut [u8])
    requires { Placed shape × (length codeword.old ≡ shape.n) }
    ensures { codeword.new ≡ evaluated shape c row.now }
{
    for group in 0..layout::groups_of(shape) {
        write_group(shape, row, c, group, codeword);
    }
}
