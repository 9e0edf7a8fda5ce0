// Newton's interpolation: the polynomial through the places of a word that are not lost. Rows are worked on in whole blocks of 64 bytes.
// Each row is an array of its own, and not a field beside others: of loops over one row the compiler makes vectors.
#![tactic(auto)]

ghost use Rattle.std.specs.Prelude.{◌≡◌, ◌≢◌, List, ℕ, ◌+◌, ◌≤◌, ◌<◌, eqb, length};
ghost use Rattle.algebra.specs.Sequence.{at, count};
ghost use Rattle.algebra.specs.Writing.{Written};
ghost use Rattle.field.specs.Field.{q, plus, minus, times};
ghost use Rattle.interpolation.specs.Interpolated.{masked, Interpolated};
ghost use Rattle.interpolation.specs.Step.{Shifted, Multiplied, kept, Nodes, Rooms, Newton, Settled, Agreed};

// The end of the block that place n is in.
pub fn block_end(n: usize) -> usize
    requires { n < 256 }
    ensures { (n < result) × (result ≤ 256) }
{
    n / 64 * 64 + 64
}

// The start of the block that place n is in.
fn block_start(n: usize) -> usize
    ensures { result ≤ n }
{
    n / 64 * 64
}

// Each value times the difference of its point and y, at the places from `from` up to `to`.
fn mul_differences(
    field: u32,
    values: &mut [u8; 256],
    points: &[u8; 256],
    from: usize,
    to: usize,
    y: u8,
)
    requires { (length values.old ≡ 256) × (from ≤ to) × (to ≤ 256) }
    ensures { Written (λ p. times field (minus field (at points.now p) y) (at values.old p)) from to values.old values.new }
{
    for p in from..to {
        let d = arithmetic::sub(field, points[p], y);
        values[p] = arithmetic::product(field, d, values[p]);
    }
}

// X times the polynomial of the first `to` coefficients.
fn shift(source: &[u8; 256], target: &mut [u8; 257], to: usize)
    requires { (length target.old ≡ 257) × (to ≤ 256) }
    ensures { Shifted to source.now target.new }
{
    target[1..=to].copy_from_slice(&source[..to]);
    target[0] = 0;
}

// The polynomial of shifted plus k times the one that was shifted.
fn combine(field: u32, shifted: &[u8; 257], target: &mut [u8; 256], to: usize, k: u8)
    requires { (length target.old ≡ 256) × (to ≤ 256) }
    ensures { Written (λ p. plus field (at shifted.now p) (times field k (at shifted.now (p + 1)))) 0 to target.old target.new }
{
    for p in 0..to {
        let s = arithmetic::product(field, k, shifted[p + 1]);
        target[p] = arithmetic::add(field, shifted[p], s);
    }
}

// The polynomial times X - y, of which `to` coefficients hold all that are not 0.
pub fn mul_linear(field: u32, basis: &mut [u8; 256], to: usize, y: u8)
    requires { (length basis.old ≡ 256) × (to ≤ 256) }
    ensures { Multiplied field (minus field 0 y) to basis.old basis.new }
{
    let mut shifted = [0u8; 257];
    shift(basis, &mut shifted, to);
    let k = arithmetic::sub(field, 0, y);
    combine(field, &shifted, basis, to, k);
}

// The symbol of place p, 0 where it is lost: only a kept place need be in the word, so the mark is tested first.
fn symbol_at(word: &[u8], marks: &[u8], p: usize) -> u8
    requires { (p < length marks.now) × (at marks.now p ≢ 1 → p < length word.now) }
    ensures { result ≡ masked (at word.now p) (at marks.now p) }
{
    let lost = marks[p] == 1;
    if lost { 0 } else { word[p] }
}

// The symbols of the word, 0 where one is lost. A lost symbol is not read.
pub fn load(word: &[u8], marks: &[u8], rests: &mut [u8])
    requires { (length marks.now ≤ length rests.old) × (length word.now ≡ length marks.now) }
    ensures { Written (λ p. masked (at word.now p) (at marks.now p)) 0 (length marks.now) rests.old rests.new }
{
    for p in 0..marks.len() {
        rests[p] = symbol_at(word, marks, p);
    }
}

// Takes place i, unless it is lost; answers how many places are then taken.
fn advance(
    field: u32,
    i: usize,
    c: usize,
    points: &[u8; 256],
    marks: &[u8],
    coefs: &mut [u8; 256],
    basis: &mut [u8; 256],
    values: &mut [u8; 256],
    rests: &mut [u8; 256],
) -> usize
    requires { (length marks.now ≤ 255) × (i < length marks.now) × (c < 255) × Nodes field (length marks.now) points.now × Rooms coefs.old basis.old values.old rests.old }
    ensures { Rooms coefs.new basis.new values.new rests.new × ((wants : List ℕ)
        → Newton field (length marks.now) points.now wants marks.now i c coefs.old basis.old values.old rests.old
        → Newton field (length marks.now) points.now wants marks.now (i + 1) result coefs.new basis.new values.new rests.new) }
{
    if marks[i] == 1 {
        return c;
    }
    let y = points[i];
    let v = arithmetic::inverse_of(field, values[i]);
    let k = arithmetic::product(field, rests[i], v);
    let h = arithmetic::sub(field, 0, k);
    let m = block_end(c + 1);
    let start = block_start(i);
    let end = block_end(marks.len());
    arithmetic::add_scaled(field, coefs, basis, 0, m, k);
    arithmetic::add_scaled(field, rests, values, start, end, h);
    mul_differences(field, values, points, start, end, y);
    mul_linear(field, basis, m, y);
    c + 1
}

// The polynomial through the first `most` places that are not lost; answers the place behind them.
fn settle(
    field: u32,
    most: usize,
    points: &[u8; 256],
    marks: &[u8],
    coefs: &mut [u8; 256],
    rests: &mut [u8; 256],
) -> usize
    requires { (length coefs.old ≡ 256) × ((m : ℕ) → at coefs.old m ≡ 0) × (length rests.old ≡ 256) × (length marks.now ≤ 255) × Nodes field (length marks.now) points.now × ((p : ℕ) → p < length marks.now → at rests.old p < q field)
        × (most ≤ count (kept marks.now) (length marks.now)) }
    ensures { Settled field (length marks.now) most points.now rests.old marks.now result coefs.new rests.new }
{
    let mut basis = [0u8; 256];
    basis[0] = 1;
    let mut values = [1u8; 256];
    let mut c: usize = 0;
    for i in 0..marks.len() {
        if c == most {
            return i;
        }
        c = advance(
            field,
            i,
            c,
            points,
            marks,
            coefs,
            &mut basis,
            &mut values,
            rests,
        );
    }
    marks.len()
}

// Nothing is left at the places from `from` on that are not lost.
fn agree(marks: &[u8], rests: &[u8; 256], from: usize) -> bool
    requires { length marks.now ≤ 255 }
    ensures { Agreed (length marks.now) marks.now from rests.now result }
{
    (from..marks.len()).all(|i| symbol_at(rests, marks, i) == 0)
}

// The polynomial of `most` coefficients through the places that are not lost: false where there is none, and coefs then hold one through the first of them.
pub fn interpolate(
    field: u32,
    most: usize,
    points: &[u8; 256],
    word: &[u8],
    marks: &[u8],
    coefs: &mut [u8; 256],
) -> bool
    requires { (length marks.now ≤ 255) × (length word.now ≡ length marks.now)
        × ((p : ℕ) → p < length marks.now → at points.now p < q field)
        × ((i j : ℕ) → i < length marks.now → j < length marks.now → at points.now i ≡ at points.now j → i ≡ j)
        × ((p : ℕ) → p < length marks.now → at marks.now p ≢ 1 → at word.now p < q field)
        × (most + count (λ p. eqb (at marks.now p) 1) (length marks.now) ≤ length marks.now) }
    ensures { Interpolated field (length marks.now) most points.now word.now marks.now coefs.new result }
{
    let mut rests = [0u8; 256];
    load(word, marks, &mut rests);
    *coefs = [0; 256];
    let i = settle(field, most, points, marks, coefs, &mut rests);
    agree(marks, &rests, i)
}
