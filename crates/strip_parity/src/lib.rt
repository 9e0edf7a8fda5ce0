// Whether some codeword has the symbols of every column of mates' strips: the parity strips of the checks must be 0.
#![tactic(auto)]

ghost use Rattle.std.specs.Prelude.{◌≡◌, true, ◌*◌, ◌≤◌, ◌<◌, length};
ghost use Rattle.algebra.specs.Sequence.{all_below, every};
ghost use Rattle.field.specs.Field.{q};
ghost use Rattle.field.specs.Polynomial.{weighed};
ghost use Rattle.code.specs.Shape.{mates};
ghost use Rattle.code.specs.Held.{columns_held};
ghost use Rattle.code.specs.Laws.{Mending, Decodable};
ghost use Rattle.parity.specs.Parity.{checks};
ghost use Rattle.row_reduction.specs.Matrix.{Elements, Reduced};
ghost use Rattle.strip_parity.specs.Step.{columns_pass, zero_row, CheckRows};

use code::Shape;

// Whether the sum of weight times symbol is 0 in every column; sums is room for one strip.
fn sums_zero(field: u32, weights: &[u8; 16], r: usize, strips: &[u8], sums: &mut [u8]) -> bool
    requires { (r ≤ 16) × (r ≤ length weights.now) × (length sums.old ≤ 4096) × (length strips.now ≡ r * length sums.old) }
    ensures { (result ≡ all_below 1 (weighed field weights.now r (length sums.old) strips.now)) × (length sums.new ≡ length sums.old) }
{
    columns::weigh_columns(field, weights, r, strips, sums);
    questions::strips_below(sums, 1)
}

// The weights of the first n checks, those of check c from 16 c on.
fn check_rows(shape: Shape, slot: u32, n: usize) -> [u8; 256]
    requires { Mending shape × (slot < shape.n) × (n ≡ checks shape slot) }
    ensures { CheckRows shape slot n result }
{
    let weights = weights::weights_of(shape, slot);
    let terms = parity::terms_of(shape, slot, n);
    let mut rows = [0u8; 256];
    for c in 0..n {
        let row = parity::check_weights(shape, slot, c, &weights, &terms);
        rows[c * 16..c * 16 + 16].copy_from_slice(&row);
    }
    rows
}

// Reduces the rows for strips so long that it pays.
fn reduce_for(field: u32, n: usize, l: usize, rows: &mut [u8])
    requires { (n ≤ 16) × (n * 16 ≤ length rows.old) × Elements field rows.old }
    ensures { Reduced field n rows.old rows.new }
{
    if l >= 512 {
        row_reduction::reduce(field, n, rows);
    }
}

// Whether every column is annulled by the first n rows; sums is room for one strip.
fn annulled(field: u32, n: usize, rows: &[u8], r: usize, strips: &[u8], sums: &mut [u8]) -> bool
    requires { (n ≤ 16) × (256 ≤ length rows.now) × (r ≤ 16) × (length sums.old ≤ 4096) × (length strips.now ≡ r * length sums.old) }
    ensures { result ≡ every (zero_row field r (length sums.old) rows.now strips.now) n }
{
    for c in 0..n {
        let row = row_reduction::row_of(rows, c);
        if !sums_zero(field, &row, r, strips, sums) {
            return false;
        }
    }
    true
}

// Whether the columns pass n checks, which are all.
fn columns_pass(shape: Shape, slot: u32, n: usize, strips: &[u8], sums: &mut [u8]) -> bool
    requires { Mending shape × (slot < shape.n) × (n ≡ checks shape slot) × (length sums.old ≤ 4096) × (length strips.now ≡ length (mates shape slot) * length sums.old) × (all_below (q shape.field) strips.now ≡ true) }
    ensures { result ≡ columns_pass shape slot (length sums.old) strips.now }
{
    let number = layout::mates_number(shape, slot) as usize;
    let mut rows = check_rows(shape, slot, n);
    reduce_for(shape.field, n, sums.len(), &mut rows);
    annulled(shape.field, n, &rows, number, strips, sums)
}

// What `columns_held` tells, by sums of strips. It stays apart from its caller, so that a repair has no room for strips on its stack.
#[inline(never)]
fn columns_summed(shape: Shape, slot: u32, n: usize, strips: &[u8], l: usize) -> bool
    requires { Decodable shape × (slot < shape.n) × (n ≡ checks shape slot) × (1 ≤ l) × (l ≤ 4096) × (length strips.now ≡ length (mates shape slot) * l) × (all_below (q shape.field) strips.now ≡ true) }
    ensures { result ≡ columns_held shape slot l strips.now }
{
    let mut sums = [0u8; 4096];
    columns_pass(shape, slot, n, strips, &mut sums[..l])
}

// Whether some codeword has the symbols of every column at the slot's mates; n is the number of checks.
pub fn columns_held(shape: Shape, slot: u32, n: usize, strips: &[u8], l: usize) -> bool
    requires { Decodable shape × (slot < shape.n) × (n ≡ checks shape slot) × (1 ≤ l) × (l ≤ 4096) × (length strips.now ≡ length (mates shape slot) * l) × (all_below (q shape.field) strips.now ≡ true) }
    ensures { result ≡ columns_held shape slot l strips.now }
{
    if l == 1 {
        return parity::pass_checks(shape, slot, n, strips);
    }
    columns_summed(shape, slot, n, strips, l)
}
