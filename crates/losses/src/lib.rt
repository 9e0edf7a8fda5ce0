// What marks say of a stripe: its losses and its first broken group; and how many losses it stands for certain.
#![tactic(auto)]

ghost use Rattle.std.specs.Prelude.{◌≡◌, length};
ghost use Rattle.code.specs.Codeword.{guarantee};
ghost use Rattle.code.specs.Erasure.{lost_number, first_broken};
ghost use Rattle.code.specs.Laws.{Placed, Family};

use code::Shape;

// How many slots are lost.
pub fn count_lost(shape: Shape, marks: &[u8]) -> u32
    requires { Placed shape × (length marks.now ≡ shape.n) }
    ensures { result ≡ lost_number shape marks.now }
{
    questions::losses_from(marks, 0, 1, shape.n as usize) as u32
}

// The first group with more losses than it stands, 255 if none.
pub fn first_group(shape: Shape, marks: &[u8]) -> u32
    requires { Placed shape × (length marks.now ≡ shape.n) }
    ensures { result ≡ first_broken shape marks.now }
{
    let step = layout::step_of(shape);
    let mut found: u32 = 255;
    'groups: for group in 0..layout::groups_of(shape) {
        let first = layout::first_of(shape, group);
        let mut lost: u32 = 0;
        for i in 0..layout::members_of(shape, group) {
            if marks[(first + i * step) as usize] == 1 {
                lost += 1;
            }
            if lost > shape.tolerance {
                found = group;
                break 'groups;
            }
        }
    }
    found
}

// n - k - tolerance × (⌈k'/r⌉ - 1), k' = k + missing: so many losses never lose a message.
pub fn guarantee_of(shape: Shape) -> u32
    requires { Family shape × (shape.second ≡ 0) }
    ensures { result ≡ guarantee shape }
{
    let n = shape.n;
    let k = shape.k;
    let r = shape.r;
    let tolerance = shape.tolerance;
    let whole = k + layout::missing_of(shape);
    let blocks = (whole + r - 1) / r;
    n - k - tolerance * (blocks - 1)
}
