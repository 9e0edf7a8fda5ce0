// The symbols of a repair group: the values of its local polynomial at its points.
#![tactic(auto)]

ghost use Rattle.std.specs.Prelude.{◌≡◌, ◌+◌, ◌-◌, ◌%◌, ◌≤◌, ◌<◌, length, take};
ghost use Rattle.code.specs.Shape.{groups};
ghost use Rattle.code.specs.Laws.{Placed};
ghost use Rattle.local_code.specs.Step.{local_coefs, GroupPoints, HornerStep, ValuesAt, GroupSymbols};

use code::Shape;

// The place in a block of r before place i; before the first is the last.
fn place_before(i: usize, r: usize) -> usize
    requires { i < r }
    ensures { result ≡ (i + (r - 1)) % r }
{
    if i == 0 {
        return r - 1;
    }
    i - 1
}

// The coefficients of the local polynomial at the level y, entries of the row from the last to the first.
fn local_polynomial(shape: Shape, row: &[u8], y: u8) -> [u8; 16]
    requires { Placed shape }
    ensures { (length result ≡ 16) × (take shape.r result ≡ local_coefs shape y row.now) }
{
    let field = shape.field;
    let r = shape.r as usize;
    let mut i = row.len() % r;
    let mut local = [0u8; 16];
    for m in (0..row.len()).rev() {
        i = place_before(i, r);
        local[i] = arithmetic::mul_add(field, row[m], y, local[i]);
    }
    local
}

// The points of a group's members.
fn points_of(shape: Shape, group: u32) -> [u8; 17]
    requires { Placed shape × (group < groups shape) }
    ensures { GroupPoints shape group result }
{
    let size = layout::size_of(shape);
    let mut points = [0u8; 17];
    for i in 0..size {
        points[i as usize] = layout::point_at(shape, group, i);
    }
    points
}

// Horner's step at points: each value times its point, plus a.
fn horner_step(field: u32, a: u8, points: &[u8], values: &mut [u8])
    requires { (length values.old ≡ length points.now) }
    ensures { HornerStep field a points.now (length points.now) values.old values.new }
{
    for (i, value) in values.iter_mut().enumerate() {
        *value = arithmetic::mul_add(field, a, points[i], *value);
    }
}

// The values at points of the polynomial with these coefficients.
fn values_at(field: u32, coefficients: &[u8], points: &[u8]) -> [u8; 17]
    requires { (length points.now ≤ 17) }
    ensures { ValuesAt field coefficients.now points.now (length points.now) result }
{
    let mut values = [0u8; 17];
    let size = points.len();
    for i in (0..coefficients.len()).rev() {
        horner_step(field, coefficients[i], points, &mut values[..size]);
    }
    values
}

// The symbols of a group: the local polynomial of a row, in powers of X to the power size less c, at the points of its members.
pub fn group_symbols(shape: Shape, row: &[u8], c: u8, group: u32) -> [u8; 17]
    requires { Placed shape × (group < groups shape) }
    ensures { GroupSymbols shape c row.now group result }
{
    let field = shape.field;
    let r = shape.r as usize;
    let size = layout::size_of(shape) as usize;
    let points = points_of(shape, group);
    let power = layout::group_power(shape, group);
    let y = arithmetic::sub(field, power, c);
    let local = local_polynomial(shape, row, y);
    values_at(field, &local[..r], &points[..size])
}
