// Where the symbols of a code stand: repair groups, slots, mates and evaluation points. Crate acceptance alone divides by the group size besides.
#![tactic(auto)]

ghost use Rattle.std.specs.Prelude.{◌≡◌, ◌+◌, ◌*◌, ◌-◌, ◌/◌, ◌%◌, ◌≤◌, ◌<◌, length};
ghost use Rattle.algebra.specs.Sequence.{at};
ghost use Rattle.field.specs.Field.{q, γ, power};
ghost use Rattle.code.specs.Shape.{size, groups, room, missing, group, member, first, step, slot_at, members, point_at, point, mates, mates_number};
ghost use Rattle.code.specs.Basis.{constant};
ghost use Rattle.code.specs.Laws.{Placed, Mending};
ghost use Rattle.layout.specs.Step.{mate_member, mate_steps, span};

use code::Shape;

// The members of a whole group.
pub fn size_of(shape: Shape) -> u32
    requires { Placed shape }
    ensures { result ≡ size shape }
{
    shape.r + shape.tolerance
}

// The number of groups.
pub fn groups_of(shape: Shape) -> u32
    requires { Placed shape }
    ensures { result ≡ groups shape }
{
    let size = size_of(shape);
    (shape.n + size - 1) / size
}

// The places of whole groups that are no slots.
pub fn missing_of(shape: Shape) -> u32
    requires { Placed shape }
    ensures { result ≡ missing shape }
{
    let n = shape.n;
    room_of(shape) - n
}

// The places of whole groups.
pub fn room_of(shape: Shape) -> u32
    requires { Placed shape }
    ensures { (result ≡ room shape) × (result ≤ 255) }
{
    groups_of(shape) * size_of(shape)
}

// The power size of the points of a group.
pub fn group_power(shape: Shape, group: u32) -> u8
    requires { Placed shape × (group < groups shape) }
    ensures { result ≡ power shape.field γ (group * size shape) }
{
    let e = group * size_of(shape);
    tables::generator_power(shape.field, e)
}

// That power of the last group's points: the constant of a short code's good polynomial.
pub fn constant_of(shape: Shape) -> u8
    requires { Placed shape }
    ensures { result ≡ constant shape }
{
    group_power(shape, groups_of(shape) - 1)
}

// The first slot of a group.
pub fn first_of(shape: Shape, group: u32) -> u32
    requires { Placed shape × (group < groups shape) }
    ensures { result ≡ first shape group }
{
    if shape.wiring == 1 {
        return group;
    }
    group * size_of(shape)
}

// How far apart the members of a group stand.
pub fn step_of(shape: Shape) -> u32
    requires { Placed shape }
    ensures { result ≡ step shape }
{
    if shape.wiring == 1 {
        return groups_of(shape);
    }
    1
}

// How many members of a group are slots: fewer than the size in a short last group.
pub fn members_of(shape: Shape, group: u32) -> u32
    requires { Placed shape × (group < groups shape) }
    ensures { (result ≡ members shape group) × (1 ≤ result) × (result ≤ size shape) }
{
    let n = shape.n;
    let wiring = shape.wiring;
    let size = size_of(shape);
    if wiring == 1 {
        return size;
    }
    let left = n - group * size;
    if left < size {
        return left;
    }
    size
}

// How many slots there are from a group's first member to its last: the group's own, and under wiring 1 those of others between them.
pub fn span_of(shape: Shape, group: u32) -> u32
    requires { Placed shape × (group < groups shape) }
    ensures { result ≡ span shape group }
{
    (members_of(shape, group) - 1) * step_of(shape) + 1
}

// The place of a member of a group.
pub fn slot_at(shape: Shape, group: u32, member: u32) -> u32
    requires { Placed shape × (group < groups shape) × (member < size shape) }
    ensures { result ≡ slot_at shape group member }
{
    first_of(shape, group) + member * step_of(shape)
}

// The group of a place.
pub fn group_of(shape: Shape, place: u32) -> u32
    requires { Placed shape × (place < room shape) }
    ensures { (result ≡ group shape place) × (result < groups shape) }
{
    if shape.wiring == 1 {
        return place % groups_of(shape);
    }
    place / size_of(shape)
}

// The member of its group that a place is.
pub fn member_of(shape: Shape, place: u32) -> u32
    requires { Placed shape × (place < room shape) }
    ensures { (result ≡ member shape place) × (result < size shape) }
{
    if shape.wiring == 1 {
        return place / groups_of(shape);
    }
    place % size_of(shape)
}

// How far apart the exponents of the points of a group's members are: (q - 1) / size.
pub fn width_of(shape: Shape) -> u32
    requires { Placed shape }
    ensures { result ≡ (q shape.field - 1) / size shape }
{
    (tables::order(shape.field) - 1) / size_of(shape)
}

// The evaluation point of a member of a group, by that width and the table over bytes: for loops, which take the width once.
pub fn member_point(field: u32, width: u32, group: u32, member: u32) -> u8
    requires { (group + member * width < q field - 1) }
    ensures { result ≡ power field γ (group + member * width) }
{
    tables::generator_power(field, group + member * width)
}

// The evaluation point of a member of a group.
pub fn point_at(shape: Shape, group: u32, member: u32) -> u8
    requires { Placed shape × (group < groups shape) × (member < size shape) }
    ensures { result ≡ point_at shape group member }
{
    member_point(shape.field, width_of(shape), group, member)
}

// The evaluation point of a place: of a slot, or of a missing member of a short last group.
pub fn point_of(shape: Shape, place: u32) -> u8
    requires { Placed shape × (place < room shape) }
    ensures { result ≡ point shape place }
{
    point_at(shape, group_of(shape, place), member_of(shape, place))
}

// The member of a group of which member is one that is its mate i: members in order, but for member.
pub fn mate_member(member: u32, i: u32) -> u32
    requires { i < 255 }
    ensures { result ≡ mate_member member i }
{
    if i < member {
        return i;
    }
    i + 1
}

// How many members it is from member on to its mate i, round a group of that size.
pub fn mate_steps(size: u32, member: u32, i: u32) -> u32
    requires { (member < size) × (i < 255) × (size ≤ 255) }
    ensures { result ≡ mate_steps size member i }
{
    if i >= member {
        return i + 1 - member;
    }
    size - member + i
}

// The slot of mate i.
pub fn mate_of(shape: Shape, slot: u32, i: u32) -> u32
    requires { Placed shape × (slot < shape.n) × (i < length (mates shape slot)) }
    ensures { (result ≡ at (mates shape slot) i) × (result < shape.n) }
{
    let group = group_of(shape, slot);
    let member = member_of(shape, slot);
    slot_at(shape, group, mate_member(member, i))
}

// How many mates' symbols repair wants for a slot: r where there is no such slot.
pub fn mates_number(shape: Shape, slot: u32) -> u32
    requires { Mending shape }
    ensures { (result ≡ mates_number shape slot) × (result ≤ 16) }
{
    let n = shape.n;
    if slot >= n {
        return shape.r;
    }
    members_of(shape, group_of(shape, slot)) - 1
}
