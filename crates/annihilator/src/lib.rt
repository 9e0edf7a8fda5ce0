// Polynomials that are 0 at the kept places of a word and have no coefficient at given exponents, the gaps. Knows no code.
#![tactic(auto)]

ghost use Rattle.std.specs.Prelude.{◌≡◌, not, ℕ, ◌+◌, ◌*◌, ◌≤◌, ◌<◌, eqb, length};
ghost use Rattle.algebra.specs.Sequence.{at, count};
ghost use Rattle.algebra.specs.Writing.{Written};
ghost use Rattle.field.specs.Field.{q};
ghost use Rattle.interpolation.specs.Step.{kept};
ghost use Rattle.annihilator.specs.Annihilator.{Annihilated};
ghost use Rattle.annihilator.specs.Step.{Vanishes, shifted, Gathered, Cofactors};

// How many places are kept.
fn count_kept(marks: &[u8]) -> usize
    ensures { result ≡ count (kept marks.now) (length marks.now) }
{
    marks.iter().filter(|mark| **mark != 1).count()
}

// The factor of place i, unless it is lost; answers how many factors there are then.
fn take_place(
    field: u32,
    i: usize,
    c: usize,
    points: &[u8; 256],
    marks: &[u8],
    row: &mut [u8; 256],
) -> usize
    requires { (length marks.now ≤ 255) × (i < length marks.now) × ((p : ℕ) → p < length marks.now → at points.now p < q field) × Vanishes field points.now marks.now i c row.old }
    ensures { Vanishes field points.now marks.now (i + 1) result row.new }
{
    let lost = marks[i] == 1;
    if lost {
        return c;
    }
    let to = interpolation::block_end(c + 1);
    interpolation::mul_linear(field, row, to, points[i]);
    c + 1
}

// The product of X - x over the points x of the kept places.
fn vanishing(field: u32, points: &[u8; 256], marks: &[u8], row: &mut [u8; 256])
    requires { (length row.old ≡ 256) × ((m : ℕ) → at row.old m ≡ 0) × (length marks.now ≤ 255) × ((p : ℕ) → p < length marks.now → at points.now p < q field) }
    ensures { Vanishes field points.now marks.now (length marks.now) (count (kept marks.now) (length marks.now)) row.new }
{
    row[0] = 1;
    let mut c = 0;
    for i in 0..marks.len() {
        c = take_place(field, i, c, points, marks, row);
    }
}

// Coefficient e of the row's polynomial times X to the power i.
fn shifted_at(row: &[u8; 256], e: usize, i: usize) -> u8
    requires { e < 256 }
    ensures { result ≡ shifted row.now e i }
{
    if e < i { 0 } else { row[e - i] }
}

// Coefficient e of the row's polynomial times each of the first t powers of X.
// The target is all the room behind the rows, not t bytes of it: linear's lemmas on a new row are of all of it.
fn fill_row(row: &[u8; 256], e: usize, t: usize, target: &mut [u8])
    requires { (e < 256) × (t ≤ length target.old) }
    ensures { Written (shifted row.now e) 0 t target.old target.new }
{
    for i in 0..t {
        target[i] = shifted_at(row, e, i);
    }
}

// Takes in the equation of gap j. It has no constant, so it contradicts no other.
fn take_gap(field: u32, t: usize, size: usize, r: usize, j: usize, row: &[u8; 256], work: &mut [u8])
    requires { (t ≤ 255) × (j * size + r < 256) × ((m : ℕ) → at row.now m < q field) × Gathered field t size r row.now j work.old }
    ensures { Gathered field t size r row.now (j + 1) work.new }
{
    let start = t * (t + 1);
    fill_row(row, j * size + r, t, &mut work[start..]);
    linear::insert(field, t, 0, work);
}

// Takes in the equations of all gaps.
fn take_gaps(
    field: u32,
    t: usize,
    size: usize,
    r: usize,
    gaps: usize,
    row: &[u8; 256],
    work: &mut [u8],
)
    requires { (t ≤ 255) × ((j : ℕ) → j < gaps → j * size + r < 256) × ((m : ℕ) → at row.now m < q field) × (t * (t + 1) + (t + 1) ≤ length work.old) }
    ensures { Gathered field t size r row.now gaps work.new }
{
    work.fill(0);
    for j in 0..gaps {
        take_gap(field, t, size, r, j, row, work);
    }
}

// Whether 0 is the only polynomial of t coefficients whose product with the row's has no coefficient at the gaps.
fn only_cofactor(
    field: u32,
    t: usize,
    size: usize,
    r: usize,
    gaps: usize,
    row: &[u8; 256],
    work: &mut [u8],
) -> bool
    requires { (t ≤ 255) × ((j : ℕ) → j < gaps → j * size + r < 256) × ((m : ℕ) → at row.now m < q field) × (t * (t + 1) + (t + 1) ≤ length work.old) }
    ensures { Cofactors field t size r gaps row.now result }
{
    take_gaps(field, t, size, r, gaps, row, work);
    let mut solution = [0u8; 256];
    linear::finish(field, work, t, &mut solution[..t])
}

// Whether 0 is the only polynomial of `most` coefficients that is 0 at the kept places and has no coefficient at the gaps. work may hold anything, before and after.
pub fn only_zero(
    field: u32,
    most: usize,
    size: usize,
    r: usize,
    gaps: usize,
    points: &[u8; 256],
    marks: &[u8],
    work: &mut [u8],
) -> bool
    requires { (length marks.now ≤ 255) × (most ≤ 255)
        × ((p : ℕ) → p < length marks.now → at points.now p < q field)
        × ((i j : ℕ) → i < length marks.now → j < length marks.now → at points.now i ≡ at points.now j → i ≡ j)
        × (count (λ p. not (eqb (at marks.now p) 1)) (length marks.now) < most)
        × ((j : ℕ) → j < gaps → j * size + r < most)
        × (gaps * (gaps + 1) + (gaps + 1) ≤ length work.old) }
    ensures { Annihilated field (length marks.now) size r gaps most points.now marks.now result }
{
    let t = most - count_kept(marks);
    if t > gaps {
        return false;
    }
    let mut row = [0u8; 256];
    vanishing(field, points, marks, &mut row);
    let used = t * (t + 1) + (t + 1);
    only_cofactor(field, t, size, r, gaps, &row, &mut work[..used])
}
