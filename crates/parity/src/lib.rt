// Parity checks of the symbols at a slot's mates: their sums are 0 just where some codeword has these symbols.
#![tactic(auto)]

ghost use Rattle.std.specs.Prelude.{◌≡◌, ◌+◌, ◌≤◌, ◌<◌, length};
ghost use Rattle.algebra.specs.Sequence.{tabulate};
ghost use Rattle.code.specs.Shape.{room, point, mates};
ghost use Rattle.code.specs.Repair.{weights};
ghost use Rattle.code.specs.Laws.{Placed, Mending};
ghost use Rattle.weights.specs.Weights.{sixteen};
ghost use Rattle.parity.specs.Parity.{checks_with, checks, scale, term, check_weights, passes};
ghost use Rattle.parity.specs.Step.{Terms};

use code::Shape;

// How many checks a slot with so many mates has.
#[tactic(auto, unfolding(crate::specs::Parity::checks_with))]
pub fn checks_with(shape: Shape, number: u32) -> u32
    ensures { result ≡ checks_with shape number }
{
    if number != shape.r {
        return 0;
    }
    shape.r.saturating_sub(shape.k)
}

// The factor of every term at x.
fn scale_at(shape: Shape, x: u8) -> u8
    requires { Placed shape }
    ensures { result ≡ scale shape x }
{
    if layout::missing_of(shape) == 0 {
        return x;
    }
    let h = generator_matrix::vanishing_at(shape, x);
    arithmetic::inverse_of(shape.field, h)
}

// Writes the terms of the first checks at the point of a place.
fn put_terms(shape: Shape, place: u32, terms: &mut [u8])
    requires { Placed shape × (place < room shape) }
    ensures { terms.new ≡ tabulate (λ l. term shape l (point shape place)) (length terms.old) }
{
    let x = layout::point_of(shape, place);
    let scale = scale_at(shape, x);
    generator_matrix::fill_run(shape.field, x, scale, terms);
}

// The terms of the first n checks: those of mate i from 16 i on, the slot's own from 256 on.
pub fn terms_of(shape: Shape, slot: u32, n: usize) -> [u8; 272]
    requires { Mending shape × (slot < shape.n) × (n ≤ 16) }
    ensures { Terms shape slot n result }
{
    let number = layout::mates_number(shape, slot);
    let mut terms = [0u8; 272];
    for i in 0..number {
        let mate = layout::mate_of(shape, slot, i);
        let start = i as usize * 16;
        put_terms(shape, mate, &mut terms[start..start + n]);
    }
    put_terms(shape, slot, &mut terms[256..256 + n]);
    terms
}

// The weights of check l, with zeros after them, from the repair weights and the terms.
pub fn check_weights(
    shape: Shape,
    slot: u32,
    l: usize,
    factors: &[u8; 16],
    terms: &[u8; 272],
) -> [u8; 16]
    requires { Mending shape × (slot < shape.n) × (l < checks shape slot) × (factors.now ≡ sixteen (weights shape slot)) × Terms shape slot (checks shape slot) terms.now }
    ensures { result ≡ sixteen (check_weights shape slot l) }
{
    let number = layout::mates_number(shape, slot) as usize;
    let field = shape.field;
    let own = terms[256 + l];
    let mut row = [0u8; 16];
    for i in 0..number {
        let less = arithmetic::sub(field, terms[i * 16 + l], own);
        row[i] = arithmetic::mul(field, factors[i], less);
    }
    row
}

// Whether the symbols pass n checks, which are all.
pub fn pass_checks(shape: Shape, slot: u32, n: usize, symbols: &[u8]) -> bool
    requires { Mending shape × (slot < shape.n) × (n ≡ checks shape slot) × (length (mates shape slot) ≤ length symbols.now) }
    ensures { result ≡ passes shape slot symbols.now }
{
    let number = layout::mates_number(shape, slot) as usize;
    let weights = weights::weights_of(shape, slot);
    let terms = terms_of(shape, slot, n);
    for l in 0..n {
        let row = check_weights(shape, slot, l, &weights, &terms);
        if arithmetic::dot(shape.field, &row, symbols, number) != 0 {
            return false;
        }
    }
    true
}
