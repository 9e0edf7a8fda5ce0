// Messages of a code with a short last group as rows of coefficients in blocks of r: the polynomial that block j of a row goes with is g to the power j.
#![tactic(auto)]

ghost use Rattle.std.specs.Prelude.{◌≡◌, true, false, ◌+◌, ◌≤◌, ◌<◌, length, drop};
ghost use Rattle.algebra.specs.Sequence.{at, all_below};
ghost use Rattle.algebra.specs.Writing.{Written};
ghost use Rattle.field.specs.Field.{q, plus, minus, times};
ghost use Rattle.code.specs.Shape.{missing, whole};
ghost use Rattle.code.specs.Codeword.{is_message};
ghost use Rattle.code.specs.Laws.{Placed, Plain};
ghost use Rattle.lengthening.specs.Step.{lower, Tail, Row};

use code::Shape;

// The polynomial of the first `to` coefficients, the last of which is 0, times X - y.
fn mul_root(field: u32, coefs: &mut [u8; 16], to: usize, y: u8)
    requires { (length coefs.old ≡ 16) × (to ≤ 16) }
    ensures { Written (λ p. plus field (lower coefs.old p) (times field (minus field 0 y) (at coefs.old p))) 0 to coefs.old coefs.new }
{
    let k = arithmetic::sub(field, 0, y);
    let mut before: u8 = 0;
    for p in 0..to {
        let own = coefs[p];
        coefs[p] = arithmetic::mul_add(field, before, k, own);
        before = own;
    }
}

// The coefficients of h times the polynomial of the message symbols from number lead on, with zeros after them.
fn tail_of(shape: Shape, message: &[u8], lead: usize) -> [u8; 16]
    requires { Placed shape × (lead ≤ length message.now) × (length message.now + missing shape ≡ shape.r + lead) × (all_below (q shape.field) message.now ≡ true) }
    ensures { Tail shape (drop lead message.now) result }
{
    let field = shape.field;
    let mut coefs = [0u8; 16];
    copying::copy(message, lead, message.len() - lead, &mut coefs, 0);
    for i in (0..layout::missing_of(shape)).rev() {
        let y = layout::point_of(shape, shape.n + i);
        let to = (shape.r - i) as usize;
        mul_root(field, &mut coefs, to, y);
    }
    coefs
}

// The row of a message: the coefficients of h times its last symbols, and then its first symbols.
pub fn expand(shape: Shape, message: &[u8], row: &mut [u8])
    requires { Plain shape × (whole shape ≡ false) × (is_message shape message.now ≡ true) × (length row.old ≡ shape.k + missing shape) }
    ensures { Row shape message.now row.new }
{
    let r = shape.r as usize;
    let lead = row.len() - r;
    let tail = tail_of(shape, message, lead);
    copying::copy(&tail, 0, r, row, 0);
    copying::copy(message, 0, lead, row, r);
}
