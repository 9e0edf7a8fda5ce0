// Columns rebuilt: weights and symbols in, sums of weight times symbol out. No slot and no point comes here, and no crate that knows them is named.
#![tactic(auto)]

ghost use Rattle.std.specs.Prelude.{◌≡◌, ◌+◌, ◌*◌, ◌≤◌, length, take};
ghost use Rattle.algebra.specs.Sequence.{at, tabulate};
ghost use Rattle.field.specs.Field.{plus, times};
ghost use Rattle.field.specs.Polynomial.{dotted, weighed};

// Rebuilds one column: the sum of weight times symbol over the first r mates.
pub fn rebuild_column(field: u32, weights: &[u8; 16], r: usize, mates: &[u8]) -> u8
    requires { (r ≤ length weights.now) × (r ≤ length mates.now) }
    ensures { result ≡ dotted field (take r weights.now) (take r mates.now) }
{
    arithmetic::dot(field, weights, mates, r)
}

// Adds w times the symbols from offset o on to the output.
fn add_strip(field: u32, w: u8, strips: &[u8], o: usize, output: &mut [u8])
    requires { o + length output.old ≤ length strips.now }
    ensures { output.new ≡ tabulate (λ i. plus field (at output.old i) (times field w (at strips.now (o + i)))) (length output.old) }
{
    for i in 0..output.len() {
        let s = arithmetic::product(field, w, strips[o + i]);
        output[i] = arithmetic::add(field, output[i], s);
    }
}

// Writes to each place of output the sum of weight times symbol over its column of the strips, strip by strip.
fn plain_columns(field: u32, weights: &[u8], strips: &[u8], output: &mut [u8])
    requires { (length weights.now ≤ 16) × (length output.old ≤ 4096) × (length strips.now ≡ length weights.now * length output.old) }
    ensures { output.new ≡ weighed field weights.now (length weights.now) (length output.old) strips.now }
{
    let l = output.len();
    copying::clear(output);
    for (j, &w) in weights.iter().enumerate() {
        add_strip(field, w, strips, j * l, output);
    }
}

// Writes to each place of output the sum of weight times symbol over its column of the strips; over bytes by the kernel.
pub fn weigh_columns(field: u32, weights: &[u8; 16], r: usize, strips: &[u8], output: &mut [u8])
    requires { (r ≤ 16) × (r ≤ length weights.now) × (length output.old ≤ 4096) × (length strips.now ≡ r * length output.old) }
    ensures { output.new ≡ weighed field weights.now r (length output.old) strips.now }
{
    if field == 0 {
        plain_columns(field, &weights[..r], strips, output);
        return;
    }
    kernel::combine(&weights[..r], strips, output);
}

// Rebuilds many columns: writes to each place of output the sum of weight times symbol over its column of the strips; one alone as repair does.
pub fn rebuild_columns(field: u32, weights: &[u8; 16], r: usize, strips: &[u8], output: &mut [u8])
    requires { (r ≤ 16) × (r ≤ length weights.now) × (length output.old ≤ 4096) × (length strips.now ≡ r * length output.old) }
    ensures { output.new ≡ weighed field weights.now r (length output.old) strips.now }
{
    if output.len() == 1 {
        output[0] = rebuild_column(field, weights, r, strips);
        return;
    }
    weigh_columns(field, weights, r, strips, output);
}
