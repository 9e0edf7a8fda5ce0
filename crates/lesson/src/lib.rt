// The lines of the sheet that a class works on paper.
#![tactic(auto)]

ghost use Rattle.std.specs.Prelude.{◌<◌, ◌≤◌, length};
ghost use Rattle.code.specs.Laws.{Placed, Mending};
ghost use Rattle.code.specs.Shape.{size, groups};

use code::Shape;
use std::io::{Cursor, Result, Write};

// Bytes as numbers, each behind a space.
fn put_all<W: Write>(output: &mut W, bytes: &[u8]) -> Result<()> {
    for b in bytes {
        write!(output, " {b}")?;
    }
    Ok(())
}

// The twelve powers of 2.
fn put_powers<W: Write>(output: &mut W) -> Result<()> {
    for e in 0..12u32 {
        write!(output, " {}", tables::generator_power(0, e))?;
    }
    Ok(())
}

// The points of a group's members from one up to another.
fn put_points<W: Write>(output: &mut W, shape: Shape, group: u32, from: u32, to: u32) -> Result<()>
    requires { Placed shape × (group < groups shape) × (to ≤ size shape) }
{
    for i in from..to {
        write!(output, " {}", layout::point_at(shape, group, i))?;
    }
    Ok(())
}

// The slots of a group by name, under wiring 1 alone: under wiring 0 they are in order.
fn put_spread<W: Write>(output: &mut W, shape: Shape, group: u32) -> Result<()>
    requires { Placed shape × (group < groups shape) }
{
    if shape.wiring == 1 {
        output.write_all(b" slots")?;
        let members = layout::members_of(shape, group);
        for i in 0..members {
            write!(output, " {}", layout::slot_at(shape, group, i))?;
        }
    }
    Ok(())
}

// The line of the points along the slots, under wiring 1 alone: under wiring 0 the groups' lines have that order.
fn put_along<W: Write>(output: &mut W, shape: Shape) -> Result<()>
    requires { Placed shape }
{
    if shape.wiring == 1 {
        output.write_all(b"points")?;
        for slot in 0..shape.n {
            write!(output, " {}", layout::point_of(shape, slot))?;
        }
        output.write_all(b"\n")?;
    }
    Ok(())
}

// The points of a group's slots, and of a short group the word missing and its missing points.
fn put_group_points<W: Write>(output: &mut W, shape: Shape, group: u32) -> Result<()>
    requires { Placed shape × (group < groups shape) }
{
    let members = layout::members_of(shape, group);
    let size = layout::size_of(shape);
    output.write_all(b" points")?;
    put_points(output, shape, group, 0, members)?;
    if members < size {
        output.write_all(b" missing")?;
        put_points(output, shape, group, members, size)?;
    }
    Ok(())
}

// A line for each group.
fn put_groups<W: Write>(output: &mut W, shape: Shape) -> Result<()>
    requires { Placed shape }
{
    let groups = layout::groups_of(shape);
    for group in 0..groups {
        write!(output, "group {group}")?;
        put_spread(output, shape, group)?;
        put_group_points(output, shape, group)?;
        output.write_all(b"\n")?;
    }
    Ok(())
}

// The lines of g and h, of a code whose last group is short alone. The factors of h are one for each missing point.
fn put_g_and_h<W: Write>(output: &mut W, shape: Shape) -> Result<()>
    requires { Placed shape }
{
    if layout::missing_of(shape) == 0 {
        return Ok(());
    }
    let room = layout::room_of(shape);
    write!(
        output,
        "g x^{} - {}\nh",
        layout::size_of(shape),
        layout::constant_of(shape)
    )?;
    for place in shape.n..room {
        write!(output, " (x - {})", layout::point_of(shape, place))?;
    }
    output.write_all(b"\n")
}

// The exponent of message symbol m of a code of whole groups.
fn exponent(shape: Shape, m: u32) -> u32
    requires { Placed shape × (m < 16) }
{
    m + shape.tolerance * (m / shape.r)
}

// What message symbol m of a code whose last group is short goes with: for the first filled - r symbols a power of g and one of x, for the
// others h and a power of x. As many as filled are the message symbols and the missing points together.
fn put_short_basis<W: Write>(output: &mut W, r: u32, filled: u32, m: u32) -> Result<()>
    requires { (1 ≤ r) × (r ≤ 16) × (m < 16) }
{
    if m + r < filled {
        write!(output, " g^{} x^{}", 1 + m / r, m % r)
    } else {
        write!(output, " h x^{}", m + r - filled)
    }
}

// What message symbol m goes with.
fn put_basis<W: Write>(output: &mut W, shape: Shape, filled: u32, m: u32) -> Result<()>
    requires { Placed shape × (m < 16) }
{
    if layout::missing_of(shape) == 0 {
        write!(output, " x^{}", exponent(shape, m))
    } else {
        put_short_basis(output, shape.r, filled, m)
    }
}

// The encoding polynomial.
fn put_polynomial<W: Write>(output: &mut W, shape: Shape, message: &[u8]) -> Result<()>
    requires { Placed shape × (length message.now ≤ 16) }
{
    let filled = message.len() as u32 + layout::missing_of(shape);
    for (m, symbol) in message.iter().enumerate() {
        write!(output, " {symbol}")?;
        put_basis(output, shape, filled, m as u32)?;
    }
    Ok(())
}

// The mates of a slot.
fn put_mates<W: Write>(output: &mut W, shape: Shape, slot: u32) -> Result<()>
    requires { Mending shape × (slot < shape.n) }
{
    let number = layout::mates_number(shape, slot);
    for i in 0..number {
        write!(output, " {}", layout::mate_of(shape, slot, i))?;
    }
    Ok(())
}

// The repair weights of a slot.
fn put_weights<W: Write>(output: &mut W, shape: Shape, slot: u32) -> Result<()>
    requires { Mending shape × (slot < shape.n) }
{
    let weights = weights::weights_of(shape, slot);
    let number = layout::mates_number(shape, slot) as usize;
    put_all(output, &weights[..number])
}

// A line for each slot.
fn put_slots<W: Write>(output: &mut W, shape: Shape) -> Result<()>
    requires { Mending shape }
{
    for slot in 0..shape.n {
        write!(output, "slot {slot} mates")?;
        put_mates(output, shape, slot)?;
        output.write_all(b" weights")?;
        put_weights(output, shape, slot)?;
        output.write_all(b"\n")?;
    }
    Ok(())
}

// The lines of the powers, of the groups, of the points, and of g and h.
fn put_layout<W: Write>(output: &mut W, shape: Shape) -> Result<()>
    requires { Placed shape }
{
    output.write_all(b"powers")?;
    put_powers(output)?;
    output.write_all(b"\n")?;
    put_groups(output, shape)?;
    put_along(output, shape)?;
    put_g_and_h(output, shape)
}

// The lines of a message's encoding polynomial and of its codeword.
fn put_encoding<W: Write>(
    output: &mut W,
    shape: Shape,
    message: &[u8],
    codeword: &[u8],
) -> Result<()>
    requires { Placed shape × (length message.now ≤ 16) }
{
    output.write_all(b"polynomial")?;
    put_polynomial(output, shape, message)?;
    output.write_all(b"\ncodeword")?;
    put_all(output, codeword)?;
    output.write_all(b"\n")
}

// Writes the sheet of a shape, a message and its codeword.
pub fn write_sheet<W: Write>(
    output: &mut W,
    shape: Shape,
    message: &[u8],
    codeword: &[u8],
) -> Result<()>
    requires { Mending shape × (length message.now ≤ 16) }
{
    put_layout(output, shape)?;
    put_encoding(output, shape, message, codeword)?;
    put_slots(output, shape)
}

// Puts that sheet in front of a text, cut where it does not fit: how many bytes.
pub fn put_sheet(text: &mut [u8], shape: Shape, message: &[u8], codeword: &[u8]) -> usize
    requires { Mending shape × (length message.now ≤ 16) }
{
    let mut front = Cursor::new(text);
    let _ = write_sheet(&mut front, shape, message, codeword);
    front.position() as usize
}
