// The operations on symbols, and on rows of them, in both fields.
#![tactic(auto)]

ghost use Rattle.std.specs.Prelude.{◌≡◌, ◌≤◌, length, take};
ghost use Rattle.algebra.specs.Sequence.{at};
ghost use Rattle.algebra.specs.Writing.{Written};
ghost use Rattle.field.specs.Field.{plus, minus, times, power, inverse, doubled};
ghost use Rattle.field.specs.Polynomial.{dotted};

// a + b
pub fn add(field: u32, a: u8, b: u8) -> u8
    ensures { result ≡ plus field a b }
{
    if field == 0 {
        return ((a as u32 + b as u32) % 13) as u8;
    }
    a ^ b
}

// a - b
pub fn sub(field: u32, a: u8, b: u8) -> u8
    ensures { result ≡ minus field a b }
{
    if field == 0 {
        return ((a as u32 + (13 - b as u32 % 13)) % 13) as u8;
    }
    a ^ b
}

// a * b, over bytes by logarithms.
pub fn mul(field: u32, a: u8, b: u8) -> u8
    ensures { result ≡ times field a b }
{
    if field == 0 {
        return ((a as u32 * b as u32) % 13) as u8;
    }
    if a == 0 {
        return 0;
    }
    if b == 0 {
        return 0;
    }
    let i = tables::logarithm(a);
    let j = tables::logarithm(b);
    tables::byte_power((i + j) % 255)
}

// a + c * b
pub fn mul_add(field: u32, a: u8, c: u8, b: u8) -> u8
    ensures { result ≡ plus field a (times field c b) }
{
    let p = mul(field, c, b);
    add(field, a, p)
}

// X times a byte, with no branch.
pub fn double(x: u8) -> u8
    ensures { result ≡ doubled x }
{
    (x % 128) * 2 ^ (x / 128) * 29
}

// a * b over bytes: the sum of a, doubled i times, over the bits i of b.
fn byte_product(a: u8, b: u8) -> u8
    ensures { result ≡ times 1 a b }
{
    let mut multiple = a;
    let mut sum: u8 = 0;
    for i in 0..8u32 {
        sum ^= (b >> i) % 2 * multiple;
        multiple = double(multiple);
    }
    sum
}

// a * b with no table: slower than mul for one product, faster in a loop, of which the compiler makes vectors.
pub fn product(field: u32, a: u8, b: u8) -> u8
    ensures { result ≡ times field a b }
{
    if field == 0 {
        return ((a as u32 * b as u32) % 13) as u8;
    }
    byte_product(a, b)
}

// a to the power e.
pub fn power_of(field: u32, a: u8, e: u32) -> u8
    ensures { result ≡ power field a e }
{
    let mut p: u8 = 1;
    for _ in 0..e {
        p = mul(field, a, p);
    }
    p
}

// 1 / a, and 0 of 0; over bytes by logarithms.
pub fn inverse_of(field: u32, a: u8) -> u8
    ensures { result ≡ inverse field a }
{
    if field == 0 {
        return power_of(field, a, 11);
    }
    if a == 0 {
        return 0;
    }
    let i = tables::logarithm(a);
    tables::byte_power((255 - i) % 255)
}

// The sum of a[i] * b[i] over the first n entries.
pub fn dot(field: u32, a: &[u8], b: &[u8], n: usize) -> u8
    requires { (n ≤ length a.now) × (n ≤ length b.now) }
    ensures { result ≡ dotted field (take n a.now) (take n b.now) }
{
    let mut sum: u8 = 0;
    for i in 0..n {
        sum = mul_add(field, sum, a[i], b[i]);
    }
    sum
}

// The target plus c times the source, at the places from `from` up to `to`: no table, so that the compiler makes vectors.
pub fn add_scaled(field: u32, target: &mut [u8], source: &[u8], from: usize, to: usize, c: u8)
    requires { (from ≤ to) × (to ≤ length target.old) × (to ≤ length source.now) }
    ensures { Written (λ p. plus field (at target.old p) (times field c (at source.now p))) from to target.old target.new }
{
    for p in from..to {
        let s = product(field, c, source[p]);
        target[p] = add(field, target[p], s);
    }
}
