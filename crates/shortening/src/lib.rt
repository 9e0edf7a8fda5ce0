// A code with a short last group as a shortened code: from the message of the code of whole groups to its own message.
#![tactic(auto)]

ghost use Rattle.std.specs.Prelude.{◌≡◌, true, false, ℕ, ◌+◌, ◌-◌, ◌≤◌, ◌<◌, length, take};
ghost use Rattle.algebra.specs.Sequence.{at, all_below};
ghost use Rattle.algebra.specs.Writing.{Written};
ghost use Rattle.field.specs.Field.{q, plus, times};
ghost use Rattle.field.specs.Polynomial.{poly};
ghost use Rattle.code.specs.Shape.{room, whole, point};
ghost use Rattle.code.specs.Codeword.{is_message, symbol};
ghost use Rattle.code.specs.Laws.{Placed, Plain};
ghost use Rattle.shortening.specs.Mother.{mother, Shortens};
ghost use Rattle.shortening.specs.Step.{Moved, Divided, LastSymbols};

use code::Shape;

// The code of whole groups.
pub fn mother_of(shape: Shape) -> Shape
    requires { Plain shape }
    ensures { result ≡ mother shape }
{
    let room = layout::room_of(shape);
    let most = shape.k + layout::missing_of(shape);
    Shape {
        n: room,
        k: most,
        ..shape
    }
}

// The row plus c times what stands r places on, from place `start` on. What stands there is copied first, so that the compiler makes vectors.
fn add_block(field: u32, row: &mut [u8], start: usize, r: usize, c: u8)
    requires { (start + r ≤ length row.old) × (length row.old ≤ 256) }
    ensures { Written (λ p. plus field (at row.old p) (times field c (at row.old (p + r)))) start (length row.old - r)
        row.old row.new }
{
    let to = row.len() - r;
    let mut rest = [0u8; 256];
    copying::copy(row, start + r, to - start, &mut rest, start);
    arithmetic::add_scaled(field, row, &rest, start, to, c);
}

// The row in powers of g + c, for a row in powers of g: blocks from the last to the first.
fn move_base(shape: Shape, row: &mut [u8], c: u8)
    requires { Placed shape × (length row.old ≤ 256) × (all_below (q shape.field) row.old ≡ true) × (c < q shape.field) }
    ensures { Moved shape c row.old row.new }
{
    let field = shape.field;
    let r = shape.r as usize;
    for block in (0..row.len() / r).rev() {
        add_block(field, row, block * r, r, c);
    }
}

// The polynomial divided by X - y: Horner's rule, of which every sum is kept.
fn div_root(field: u32, coefs: &mut [u8; 16], y: u8)
    requires { (length coefs.old ≡ 16) }
    ensures { Divided field y coefs.old coefs.new }
{
    let mut value: u8 = 0;
    for i in (0..16).rev() {
        let own = coefs[i];
        coefs[i] = value;
        value = arithmetic::mul_add(field, own, y, value);
    }
}

// The first block of the row divided by h.
fn last_symbols(shape: Shape, row: &[u8]) -> [u8; 16]
    requires { Placed shape × (shape.r ≤ length row.now) × (all_below (q shape.field) row.now ≡ true)
        × ((p : ℕ) → shape.n ≤ p → p < room shape → poly shape.field (take shape.r row.now) (point shape p) ≡ 0) }
    ensures { LastSymbols shape (take shape.r row.now) result }
{
    let field = shape.field;
    let r = shape.r as usize;
    let mut coefs = [0u8; 16];
    copying::copy(row, 0, r, &mut coefs, 0);
    for i in (0..layout::missing_of(shape)).rev() {
        let y = layout::point_of(shape, shape.n + i);
        div_root(field, &mut coefs, y);
    }
    coefs
}

// The message of a code with a short last group, from the row that is the message of the code of whole groups: the row is worked in.
pub fn shorten(shape: Shape, row: &mut [u8], message: &mut [u8])
    requires { Plain shape × (whole shape ≡ false) × (is_message (mother shape) row.old ≡ true)
        × ((p : ℕ) → shape.n ≤ p → p < room shape → symbol (mother shape) row.old p ≡ 0) × (length message.old ≡ shape.k) }
    ensures { Shortens shape row.old message.new }
{
    let r = shape.r as usize;
    let c = layout::constant_of(shape);
    move_base(shape, row, c);
    let last = last_symbols(shape, row);
    let lead = row.len() - r;
    let rest = message.len() - lead;
    copying::copy(row, r, lead, message, 0);
    copying::copy(&last, 0, rest, message, lead);
}
