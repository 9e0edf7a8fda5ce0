// Sums of weight times symbol over tiles of bit planes: tables of the sixteen sums of four tiles, and Horner's rule over the bits of the weights.
#![tactic(auto)]

ghost use Rattle.std.specs.Prelude.{◌≡◌, ℕ, ◌+◌, ◌*◌, ◌-◌, ◌%◌, ◌≤◌, ◌<◌, length};
ghost use Rattle.algebra.specs.Sequence.{at};
ghost use Rattle.algebra.specs.Writing.{Laid};
ghost use Rattle.field.specs.Field.{xor_from};
ghost use Rattle.tiles.specs.Step.{sum};
ghost use Rattle.lanes.specs.Lane.{bit, lane, symbol_at, shown};
ghost use Rattle.plane_sums.specs.Step.{QuadPlanned, SumsWritten, RowWritten};
ghost use Rattle.plane_sums.specs.Level.{Bytes, Added, Next, Levelled, Doubled};

use std::array;

// Bit 7 - l of four weights as a number below 16.
fn nibble(a: u8, b: u8, c: u8, d: u8, l: usize) -> u8
    requires { l < 8 }
    ensures { result ≡ bit (7 - l) a + 2 * bit (7 - l) b + 4 * bit (7 - l) c + 8 * bit (7 - l) d }
{
    (a >> (7 - l)) % 2 + (b >> (7 - l)) % 2 * 2 + (c >> (7 - l)) % 2 * 4 + (d >> (7 - l)) % 2 * 8
}

// Plans the four weights from place x on: their nibbles at the places m, m + d, .. m + 7 d.
pub fn plan_quad(weights: &[u8], x: usize, plan: &mut [u8], m: usize, d: usize)
    requires { (x + 4 ≤ length weights.now) × (1 ≤ d) × (m + 7 * d < length plan.old) }
    ensures { QuadPlanned (λ i. at weights.now (x + i)) m d plan.old plan.new }
{
    let a = weights[x];
    let b = weights[x + 1];
    let c = weights[x + 2];
    let e = weights[x + 3];
    for l in 0..8usize {
        plan[m + l * d] = nibble(a, b, c, e, l);
    }
}

// Writes to place o the tile at a, plus the tile of the table at b.
fn add_to(tiles: &[u8], a: usize, table: &mut [u8], b: usize, o: usize)
    requires { (a + 256 ≤ length tiles.now) × (b + 256 ≤ o) × (o + 256 ≤ length table.old) }
    ensures { Laid (λ i. xor_from 8 (at tiles.now (a + i)) (at table.old (b + i))) o 256 table.old table.new }
{
    for i in 0..256usize {
        table[o + i] = tiles[a + i] ^ table[b + i];
    }
}

// Writes the entries h to 2 h - 1 of the table at o: the entries below h, plus the tile at a.
fn double_sums(tiles: &[u8], a: usize, table: &mut [u8], o: usize, h: usize)
    requires { (a + 256 ≤ length tiles.now) × (h ≤ 8) × (o + (h + h) * 256 ≤ length table.old) }
    ensures { Doubled tiles.now a o h table.old table.new }
{
    for y in 0..h {
        add_to(tiles, a, table, o + y * 256, o + (h + y) * 256);
    }
}

// Writes 0 to the 256 places from o on. tile_strips' clear_tile promises what a tile shows, and is no crate below this one.
fn clear_tile(table: &mut [u8], o: usize)
    requires { o + 256 ≤ length table.old }
    ensures { Laid (λ i. 0) o 256 table.old table.new }
{
    table[o..o + 256].fill(0);
}

// Writes the table of the sixteen sums of the four tiles from place m on.
pub fn write_sums(tiles: &[u8], m: usize, table: &mut [u8], o: usize)
    requires { (m + 1024 ≤ length tiles.now) × (o + 4096 ≤ length table.old) }
    ensures { SumsWritten tiles.now m o table.old table.new }
{
    clear_tile(table, o);
    double_sums(tiles, m, table, o, 1);
    double_sums(tiles, m + 256, table, o, 2);
    double_sums(tiles, m + 512, table, o, 4);
    double_sums(tiles, m + 768, table, o, 8);
}

// The sum of two lanes.
fn added(v: &[u8; 8], w: &[u8; 8]) -> [u8; 8]
    requires { Bytes v.now × Bytes w.now }
    ensures { Added v.now w.now result }
{
    array::from_fn(|p| v[p] ^ w[p])
}

// Doubles every symbol of the lane v and adds those of e: a doubling is a change of names and three sums.
// Each byte is another sum, so the eight are written out.
fn level(v: &[u8; 8], e: &[u8; 8]) -> [u8; 8]
    requires { Bytes v.now × Bytes e.now }
    ensures { Next v.now e.now result }
{
    [
        v[7] ^ e[0],
        v[0] ^ e[1],
        v[1] ^ v[7] ^ e[2],
        v[2] ^ v[7] ^ e[3],
        v[3] ^ v[7] ^ e[4],
        v[4] ^ e[5],
        v[5] ^ e[6],
        v[6] ^ e[7],
    ]
}

// The sum of lane i of the entries that the plan has from place m on, one of each of G tables.
fn entry_lane<const G: usize>(table: &[u8], plan: &[u8], m: usize, i: usize) -> [u8; 8]
    requires { (m + G ≤ length plan.now) × ((h : ℕ) → h < G → at plan.now (m + h) < 16) × (G * 4096 ≤ length table.now) × (i < 32) }
    ensures { Bytes result × ((s : ℕ) → s < 8 → symbol_at result s ≡ sum 0 (λ h. shown table.now (at plan.now (m + h) * 256 + h * 4096) s i) G) }
{
    let mut z = [0u8; 8];
    for h in 0..G {
        let e = lanes::lane_of(table, plan[m + h] as usize * 256 + h * 4096 + i);
        z = added(&z, &e);
    }
    z
}

// N levels of the tile t: the sums of the entries of G tables that the plan has from place m on.
fn rise<const G: usize, const N: usize>(t: &mut [u8; 256], table: &[u8], plan: &[u8], m: usize)
    requires { (length t.old ≡ 256) × ((i : ℕ) → i < 32 → Bytes (lane t.old i)) × (m + N * G ≤ length plan.now) × ((l : ℕ) → l < N * G → at plan.now (m + l) < 16) × (G * 4096 ≤ length table.now) }
    ensures { Levelled G N plan.now m table.now t.old t.new }
{
    for i in 0..32usize {
        let mut v = lanes::lane_of(t, i);
        for k in 0..N {
            let e = entry_lane::<G>(table, plan, m + k * G, i);
            v = level(&v, &e);
        }
        lanes::put_lane(&v, t, i);
    }
}

// Writes to the tile at o the sums over 4 G inputs, N levels a turn: the plan has their weights from place m on.
pub fn write_row<const G: usize, const N: usize>(
    plan: &[u8],
    m: usize,
    table: &[u8],
    out: &mut [u8],
    o: usize,
)
    requires { (1 ≤ N) × (8 % N ≡ 0) × (m + 8 * G ≤ length plan.now) × ((l : ℕ) → l < 8 * G → at plan.now (m + l) < 16) × (G * 4096 ≤ length table.now) × (o + 256 ≤ length out.old) }
    ensures { RowWritten G plan.now m table.now o out.old out.new }
{
    let mut t = [0u8; 256];
    for l in 0..8 / N {
        rise::<G, N>(&mut t, table, plan, m + l * N * G);
    }
    copying::copy(&t, 0, 256, out, o);
}
