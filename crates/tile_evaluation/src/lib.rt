// Values of polynomials whose coefficients are tiles: plans of the powers of a point, tables of the coefficients, and the tile of the values.
#![tactic(auto)]

ghost use Rattle.std.specs.Prelude.{◌≡◌, ◌⊎◌, List, ℕ, ◌+◌, ◌*◌, ◌≤◌, ◌<◌, length};
ghost use Rattle.algebra.specs.Sequence.{at};
ghost use Rattle.lanes.specs.Lane.{shown};
ghost use Rattle.tile_evaluation.specs.Step.{weight, Nibbles, PlanAt, PowersPlanned, TablesAt, ValueWritten};

// The first n powers of x, then zeros.
fn power_weights(x: u8, n: usize) -> [u8; 16]
    requires { (n ≤ 16) }
    ensures { (e : ℕ) → e < 16 → at result e ≡ weight x n e }
{
    let mut weights = [0u8; 16];
    let mut power: u8 = 1;
    for e in 0..n {
        weights[e] = power;
        power = arithmetic::mul(1, x, power);
    }
    weights
}

// Plans the values at x of polynomials with n coefficients, from place m on: 8 g entries.
pub fn plan_powers(x: u8, n: usize, g: usize, plan: &mut [u8], m: usize)
    requires { (1 ≤ g) × (g ≤ 4) × (n ≤ g * 4) × (m + g * 8 ≤ length plan.old) }
    ensures { PowersPlanned x n g m plan.old plan.new }
{
    let weights = power_weights(x, n);
    for h in 0..g {
        plane_sums::plan_quad(&weights, h * 4, plan, m + h, g);
    }
}

// Writes the tables of the 4 g tiles from place m on.
pub fn write_tables(tiles: &[u8], m: usize, g: usize, table: &mut [u8])
    requires { (g ≤ 4) × (m + g * 1024 ≤ length tiles.now) × (g * 4096 ≤ length table.old) }
    ensures { (length table.new ≡ length table.old) × TablesAt tiles.now m g table.new }
{
    for h in 0..g {
        plane_sums::write_sums(tiles, m + h * 1024, table, h * 4096);
    }
}

// Writes the tile of the values at o: the plan from place p on has the powers of their point, the table the coefficients.
pub fn write_value(g: usize, plan: &[u8], p: usize, table: &[u8], out: &mut [u8], o: usize)
    requires { ((g ≡ 1) ⊎ (g ≡ 4)) × (p + g * 8 ≤ length plan.now) × Nibbles plan.now p (g * 8) × (g * 4096 ≤ length table.now) × (o + 256 ≤ length out.old) }
    ensures { (x n m : ℕ) (xs : List ℕ) → n ≤ g * 4 → PlanAt x n g plan.now p → TablesAt xs m g table.now
        → ValueWritten x n (λ e. shown xs (m + e * 256)) o out.old out.new }
{
    if g == 1 {
        plane_sums::write_row::<1, 4>(plan, p, table, out, o);
        return;
    }
    plane_sums::write_row::<4, 2>(plan, p, table, out, o);
}
