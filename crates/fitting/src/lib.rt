// Decoding within the guarantee, of whole groups: the one message that fits is read off the interpolation polynomial of the kept symbols.
#![tactic(auto)]

ghost use Rattle.std.specs.Prelude.{◌≡◌, ◌+◌, ◌*◌, ◌≤◌, ◌<◌, length};
ghost use Rattle.code.specs.Shape.{size, groups, room};
ghost use Rattle.code.specs.Codeword.{guarantee};
ghost use Rattle.code.specs.Erasure.{lost_number};
ghost use Rattle.code.specs.Laws.{Whole};
ghost use Rattle.code.specs.Verdict.{Verdict};
ghost use Rattle.code.specs.Step.{Received};
ghost use Rattle.refusal.specs.Refusal.{number_of};
ghost use Rattle.fitting.specs.Step.{Pointed, gaps_zero, message_of};

use code::Shape;
use refusal::{Refusal, require};

// Writes the points of a group's slots; those of the groups before it are there.
fn fill_group(shape: Shape, group: u32, points: &mut [u8; 256])
    requires { Whole shape × (group < groups shape) × (length points.old ≡ 256) × Pointed shape (group * size shape) points.old }
    ensures { (length points.new ≡ 256) × Pointed shape ((group + 1) * size shape) points.new }
{
    let size = layout::size_of(shape);
    for i in 0..size {
        let slot = layout::slot_at(shape, group, i) as usize;
        points[slot] = layout::point_at(shape, group, i);
    }
}

// Writes the points of the slots.
pub fn fill_points(shape: Shape, points: &mut [u8; 256])
    requires { Whole shape × (length points.old ≡ 256) }
    ensures { Pointed shape (room shape) points.new }
{
    let groups = layout::groups_of(shape);
    for group in 0..groups {
        fill_group(shape, group, points);
    }
}

// Whether every coefficient at an exponent that no message symbol has is 0.
fn gaps_zero(shape: Shape, coefs: &[u8; 256]) -> bool
    requires { Whole shape }
    ensures { result ≡ gaps_zero shape coefs.now }
{
    let size = layout::size_of(shape) as usize;
    let r = shape.r as usize;
    let k = shape.k as usize;
    let gaps = (k - 1) / r;
    for j in 0..gaps {
        if coefs[j * size + r] != 0 {
            return false;
        }
    }
    true
}

// Reads the message symbols off the coefficients at their exponents.
fn read_message(shape: Shape, coefs: &[u8; 256], message: &mut [u8])
    requires { Whole shape × (length message.old ≡ shape.k) }
    ensures { message.new ≡ message_of shape coefs.now }
{
    let tolerance = shape.tolerance as usize;
    let r = shape.r as usize;
    for (m, symbol) in message.iter_mut().enumerate() {
        *symbol = coefs[m + tolerance * (m / r)];
    }
}

// Interpolation, for losses within the guarantee: just one message fits, and is written; or none does, which is Foreign.
pub fn solve_within(
    shape: Shape,
    word: &[u8],
    marks: &[u8],
    message: &mut [u8],
) -> Result<(), Refusal>
    requires { Whole shape × (shape.tolerance ≡ 1) × Received shape word.now marks.now × (length message.old ≡ shape.k) × (lost_number shape marks.now ≤ guarantee shape) }
    ensures { Verdict shape word.now marks.now message.old message.new (number_of result) }
{
    let n = shape.n as usize;
    let sure = losses::guarantee_of(shape) as usize;
    let mut points = [0u8; 256];
    let mut coefs = [0u8; 256];
    fill_points(shape, &mut points);
    let interpolated = interpolation::interpolate(
        shape.field,
        n - sure,
        &points,
        word,
        marks,
        &mut coefs,
    );
    require(interpolated, Refusal::Foreign)?;
    require(gaps_zero(shape, &coefs), Refusal::Foreign)?;
    read_message(shape, &coefs, message);
    Ok(())
}
