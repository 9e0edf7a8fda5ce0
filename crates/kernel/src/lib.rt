// The sum of weight times symbol over each column of strips of bytes: by tiles, and for the two weights of r = 2 by one product a column.
#![tactic(auto)]

ghost use Rattle.std.specs.Prelude.{◌≡◌, true, ℕ, ◌+◌, ◌*◌, ◌≤◌, ◌<◌, length};
ghost use Rattle.algebra.specs.Sequence.{at, tabulate};
ghost use Rattle.field.specs.Field.{times_from};
ghost use Rattle.tiles.specs.Columns.{Combined};
ghost use Rattle.kernel.specs.Step.{Roots, root_sum};

// 16 x
fn times_16(x: u8) -> u8
    ensures { result ≡ times_from 8 16 x }
{
    let high = x / 16;
    x % 16 * 16 ^ high * 16 ^ high * 8 ^ high * 4 ^ high
}

// 214 x, a cube root of unity times x: 214 is 16 * 13 and 6, and 13 is 2 * 6 and 1.
fn times_root(x: u8) -> u8
    ensures { result ≡ times_from 8 214 x }
{
    let six = arithmetic::double(arithmetic::double(x) ^ x);
    times_16(arithmetic::double(six) ^ x) ^ six
}

// Lays r strips of l symbols out at every 64th place.
fn widen(strips: &[u8], r: usize, l: usize, rows: &mut [u8])
    requires { (1024 ≤ length rows.old) × (r ≤ 16) × (l ≤ 64) × (r * l ≤ length strips.now) }
    ensures { (j i : ℕ) → j < r → i < l → at rows.new (j * 64 + i) ≡ at strips.now (j * l + i) }
{
    for j in 0..r {
        copying::copy(strips, j * l, l, rows, j * 64);
    }
}

// The sums over strips of up to 64 symbols: those of the strips laid out wider.
fn combine_short(weights: &[u8], strips: &[u8], output: &mut [u8])
    requires { (length weights.now ≤ 16) × (length output.old ≤ 64) × (length weights.now * length output.old ≤ length strips.now) }
    ensures { Combined weights.now (length weights.now) strips.now output.old output.new }
{
    let l = output.len();
    let mut rows = [0u8; 1024];
    let mut sums = [0u8; 64];
    widen(strips, weights.len(), l, &mut rows);
    tiles::combine_long(weights, &rows, &mut sums);
    copying::copy(&sums, 0, l, output, 0);
}

// The sums over strips with any weights.
fn combine_any(weights: &[u8], strips: &[u8], output: &mut [u8])
    requires { (length weights.now ≤ 16) × (length output.old ≤ 4096) × (length strips.now ≡ length weights.now * length output.old) }
    ensures { Combined weights.now (length weights.now) strips.now output.old output.new }
{
    if output.len() < 64 {
        combine_short(weights, strips, output);
        return;
    }
    tiles::combine_long(weights, strips, output);
}

// Whether two weights are 214 and 215, as the code's own weights of two mates are.
fn are_roots(first: u8, second: u8) -> bool
    ensures { result ≡ true → Roots first second }
{
    matches!((first, second), (214, 215) | (215, 214))
}

// Writes 214 (a + b) + c for each column: its symbols a and b of two strips, and c the one of them at offset o.
fn root_sums(strips: &[u8], o: usize, output: &mut [u8])
    requires { (2 * length output.old ≤ length strips.now) × (o ≤ length output.old) }
    ensures { output.new ≡ tabulate (root_sum strips.now (length output.old) o) (length output.old) }
{
    let l = output.len();
    for i in 0..l {
        output[i] = times_root(strips[i] ^ strips[l + i]) ^ strips[o + i];
    }
}

// The sums over two strips whose weights are 214 and 215: 214 (a + b), and the symbol whose weight is 215, since 214 + 1 is 215.
fn combine_roots(weights: &[u8], strips: &[u8], output: &mut [u8])
    requires { (2 ≤ length weights.now) × Roots (at weights.now 0) (at weights.now 1) × (2 * length output.old ≤ length strips.now) }
    ensures { Combined weights.now 2 strips.now output.old output.new }
{
    if weights[0] == 214 {
        root_sums(strips, output.len(), output);
        return;
    }
    root_sums(strips, 0, output);
}

// Writes to each place of output the sum of weight times symbol over its column of the strips, over bytes.
pub fn combine(weights: &[u8], strips: &[u8], output: &mut [u8])
    requires { (length weights.now ≤ 16) × (length output.old ≤ 4096) × (length strips.now ≡ length weights.now * length output.old) }
    ensures { Combined weights.now (length weights.now) strips.now output.old output.new }
{
    if weights.len() == 2 && are_roots(weights[0], weights[1]) {
        combine_roots(weights, strips, output);
        return;
    }
    combine_any(weights, strips, output);
}
