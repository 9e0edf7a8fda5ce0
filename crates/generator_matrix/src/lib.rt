// The generator matrix, row by row: a slot's row has the values of the basis polynomials at its point.
#![tactic(auto)]

ghost use Rattle.std.specs.Prelude.{◌≡◌, ◌<◌, ◌≤◌, length};
ghost use Rattle.algebra.specs.Sequence.{tabulate};
ghost use Rattle.field.specs.Field.{q, power};
ghost use Rattle.code.specs.Basis.{vanishing};
ghost use Rattle.code.specs.Laws.{Placed, Plain};
ghost use Rattle.generator_matrix.specs.Row.{GeneratorRow};
ghost use Rattle.generator_matrix.specs.Step.{run, blocks};

use code::Shape;

// The value at x of the polynomial that vanishes at the missing points, from the last of them to the first.
pub fn vanishing_at(shape: Shape, x: u8) -> u8
    requires { Placed shape }
    ensures { result ≡ vanishing shape x }
{
    let field = shape.field;
    let mut product: u8 = 1;
    for i in (0..layout::missing_of(shape)).rev() {
        let factor = arithmetic::sub(field, x, layout::point_of(shape, shape.n + i));
        product = arithmetic::mul(field, factor, product);
    }
    product
}

// Writes head, head times x, head times x squared .. to the row.
pub fn fill_run(field: u32, x: u8, head: u8, row: &mut [u8])
    requires { (x < q field) × (head < q field) }
    ensures { row.new ≡ tabulate (run field x head 0) (length row.old) }
{
    let mut value = head;
    for entry in row.iter_mut() {
        *entry = value;
        value = arithmetic::mul(field, x, value);
    }
}

// Writes runs of r: the first has the power e of factor for its head, and each next head is factor times the one before.
fn fill_blocks(field: u32, x: u8, factor: u8, e: u32, r: usize, row: &mut [u8])
    requires { (x < q field) × (factor < q field) × (1 ≤ r) }
    ensures { row.new ≡ tabulate (blocks field x factor e r) (length row.old) }
{
    let mut head = arithmetic::power_of(field, factor, e);
    for m in (0..row.len()).step_by(r) {
        let end = m + r.min(row.len() - m);
        fill_run(field, x, head, &mut row[m..end]);
        head = arithmetic::mul(field, factor, head);
    }
}

// Writes slot's row of the generator matrix to the first k bytes of row.
#[tactic(auto, using(crate::proofs::Generators::lead_worked))]
pub fn fill_row(shape: Shape, slot: u32, row: &mut [u8])
    requires { Plain shape × (slot < shape.n) × (shape.k ≤ length row.old) }
    ensures { GeneratorRow shape slot row.old row.new }
{
    let field = shape.field;
    let r = shape.r as usize;
    let k = shape.k as usize;
    let x = layout::point_of(shape, slot);
    let power = layout::group_power(shape, layout::group_of(shape, slot));
    let missing = layout::missing_of(shape) as usize;
    if missing == 0 {
        fill_blocks(field, x, power, 0, r, &mut row[..k]);
        return;
    }
    let good = arithmetic::sub(field, power, layout::constant_of(shape));
    let vanishing = vanishing_at(shape, x);
    let lead = k + missing - r;
    fill_blocks(field, x, good, 1, r, &mut row[..lead]);
    fill_run(field, x, vanishing, &mut row[lead..k]);
}
