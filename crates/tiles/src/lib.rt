// The sum of weight times symbol over each column of strips of bytes, by Horner's rule over the bits of the weights, on tiles of columns.
#![tactic(auto)]

ghost use Rattle.std.specs.Prelude.{◌≡◌, ℕ, ◌+◌, ◌*◌, ◌≤◌, ◌<◌, length};
ghost use Rattle.algebra.specs.Sequence.{at, tabulate};
ghost use Rattle.field.specs.Field.{xor_from, doubled};
ghost use Rattle.tiles.specs.Columns.{Combined};
ghost use Rattle.tiles.specs.Step.{sum, row_symbol, Planned, Reach, Extended, Tiled, Rebuilt};

// Doubles every byte of t.
fn double(t: &mut [u8])
    ensures { t.new ≡ tabulate (λ i. doubled (at t.old i)) (length t.old) }
{
    for x in t.iter_mut() {
        *x = arithmetic::double(*x);
    }
}

// Adds to t the symbols from offset o on.
fn add(t: &mut [u8], strips: &[u8], o: usize)
    requires { o + length t.old ≤ length strips.now }
    ensures { t.new ≡ tabulate (λ i. xor_from 8 (at t.old i) (at strips.now (o + i))) (length t.old) }
{
    for i in 0..t.len() {
        t[i] ^= strips[o + i];
    }
}

// Adds to t the columns from c on of the strips in row m of the plan, from strip start of the row on.
fn add_row(
    t: &mut [u8],
    offsets: &[u16; 128],
    counts: &[u8; 8],
    m: usize,
    start: usize,
    strips: &[u8],
    c: usize,
)
    requires { (m < 8) × (start ≤ at counts.now m) × Reach (c + length t.old) (length strips.now) offsets.now counts.now }
    ensures { (length t.new ≡ length t.old) × ((b : ℕ → ℕ)
        → t.old ≡ tabulate (λ i. sum (b i) (row_symbol strips.now offsets.now m (c + i)) start) (length t.old)
        → t.new ≡ tabulate (λ i. sum (b i) (row_symbol strips.now offsets.now m (c + i)) (at counts.now m)) (length t.old)) }
{
    let n = counts[m] as usize;
    for k in start..n {
        add(t, strips, offsets[m * 16 + k] as usize + c);
    }
}

// Writes to t, which is 0, the sums of the columns from c on of the strips in row m of the plan.
fn set_row(t: &mut [u8], offsets: &[u16; 128], counts: &[u8; 8], m: usize, strips: &[u8], c: usize)
    requires { (m < 8) × ((i : ℕ) → at t.old i ≡ 0) × Reach (c + length t.old) (length strips.now) offsets.now counts.now }
    ensures { t.new ≡ tabulate (λ i. sum 0 (row_symbol strips.now offsets.now m (c + i)) (at counts.now m)) (length t.old) }
{
    if counts[m] == 0 {
        return;
    }
    copying::copy(strips, offsets[m * 16] as usize + c, t.len(), t, 0);
    add_row(t, offsets, counts, m, 1, strips, c);
}

// Writes the N columns from c on.
fn write_tile<const N: usize>(
    offsets: &[u16; 128],
    counts: &[u8; 8],
    strips: &[u8],
    output: &mut [u8],
    c: usize,
)
    requires { (c + N ≤ length output.old) × Reach (length output.old) (length strips.now) offsets.now counts.now }
    ensures { Tiled N strips.now offsets.now counts.now c output.old output.new }
{
    let mut t = [0u8; N];
    set_row(&mut t, offsets, counts, 0, strips, c);
    for m in 1..8usize {
        double(&mut t);
        add_row(&mut t, offsets, counts, m, 0, strips, c);
    }
    copying::copy(&t, 0, N, output, c);
}

// Writes every column of strips of N symbols or more; the last tile may overlap the one before.
fn write_tiles<const N: usize>(
    offsets: &[u16; 128],
    counts: &[u8; 8],
    strips: &[u8],
    output: &mut [u8],
)
    requires { (1 ≤ N) × (N ≤ length output.old) × (length output.old ≤ 4096) × Reach (length output.old) (length strips.now) offsets.now counts.now }
    ensures { Rebuilt strips.now offsets.now counts.now (length output.old) output.old output.new }
{
    let l = output.len();
    let last = l - N;
    for c in (0..l).step_by(N) {
        write_tile::<N>(offsets, counts, strips, output, c.min(last));
    }
}

// Writes every column of strips of 64 symbols or more.
fn all_tiles(offsets: &[u16; 128], counts: &[u8; 8], strips: &[u8], output: &mut [u8])
    requires { (64 ≤ length output.old) × (length output.old ≤ 4096) × Reach (length output.old) (length strips.now) offsets.now counts.now }
    ensures { Rebuilt strips.now offsets.now counts.now (length output.old) output.old output.new }
{
    if output.len() < 128 {
        write_tiles::<64>(offsets, counts, strips, output);
        return;
    }
    write_tiles::<128>(offsets, counts, strips, output);
}

// Puts a strip's offset into each row whose bit its weight w has: written in each, and counted where the bit is 1.
fn plan_strip(w: u8, o: u16, offsets: &mut [u16; 128], counts: &mut [u8; 8])
    requires { (128 ≤ length offsets.old) × (8 ≤ length counts.old) × ((m : ℕ) → m < 8 → at counts.old m < 16) }
    ensures { (w < 256) × (length offsets.new ≡ length offsets.old) × (length counts.new ≡ length counts.old) × Extended w o offsets.old offsets.new counts.old counts.new }
{
    for m in 0..8usize {
        let n = counts[m];
        offsets[m * 16 + n as usize] = o;
        counts[m] = n + (w >> (7 - m)) % 2;
    }
}

// Lists for each bit the offsets of the strips whose weights have it.
fn plan(weights: &[u8], l: usize, offsets: &mut [u16; 128], counts: &mut [u8; 8])
    requires { (128 ≤ length offsets.old) × (8 ≤ length counts.old) × (length weights.now ≤ 16) × (l ≤ 4096) × ((m : ℕ) → m < 8 → at counts.old m ≡ 0) }
    ensures { Planned weights.now l offsets.new counts.new (length weights.now) }
{
    for (j, &w) in weights.iter().enumerate() {
        plan_strip(w, (j * l) as u16, offsets, counts);
    }
}

// Writes to each place of output the sum of weight times symbol over its column of strips of 64 symbols or more, over bytes.
pub fn combine_long(weights: &[u8], strips: &[u8], output: &mut [u8])
    requires { (length weights.now ≤ 16) × (64 ≤ length output.old) × (length output.old ≤ 4096) × (length weights.now * length output.old ≤ length strips.now) }
    ensures { Combined weights.now (length weights.now) strips.now output.old output.new }
{
    let mut offsets = [0u16; 128];
    let mut counts = [0u8; 8];
    plan(weights, output.len(), &mut offsets, &mut counts);
    all_tiles(&offsets, &counts, strips, output);
}
