// Plans for the encode of strips by groups: the powers of each group's level and of each slot's point.
#![tactic(auto)]

ghost use Rattle.std.specs.Prelude.{◌≡◌, ◌⊎◌, ◌*◌, ◌≤◌, length};
ghost use Rattle.code.specs.Laws.{Placed};
ghost use Rattle.group_plans.specs.Plan.{blocks, tables_for, GroupsPlanned, SlotsPlanned, ByteCode};

use code::Shape;

// How many blocks of r message symbols there are; the last may be short.
pub fn blocks_of(shape: Shape) -> usize
    requires { Placed shape × (shape.k ≤ 255) }
    ensures { (result ≡ blocks shape) × (shape.k ≤ result * shape.r) }
{
    (shape.k as usize + shape.r as usize - 1) / shape.r as usize
}

// How many tables of four tiles n coefficients take: one or four.
pub fn tables_for(n: usize) -> usize
    ensures { (result ≡ tables_for n) × ((result ≡ 1) ⊎ (result ≡ 4)) × (n ≤ 16 → n ≤ result * 4) }
{
    if n > 4 { 4 } else { 1 }
}

// Plans the folds: for each group the powers of its level.
pub fn plan_groups(shape: Shape, plan: &mut [u8])
    requires { ByteCode shape × (length plan.old ≡ 8192) }
    ensures { (length plan.new ≡ 8192) × GroupsPlanned shape plan.new }
{
    let groups = layout::groups_of(shape);
    let blocks = blocks_of(shape);
    let g = tables_for(blocks);
    for j in 0..groups {
        let y = layout::group_power(shape, j);
        tile_evaluation::plan_powers(y, blocks, g, plan, j as usize * 32);
    }
}

// Plans the values: for each slot the powers of its point. One function for this and plan_groups would take the points as a closure
// and promise both plans: no plainer.
pub fn plan_slots(shape: Shape, plan: &mut [u8])
    requires { ByteCode shape × (length plan.old ≡ 8192) }
    ensures { (length plan.new ≡ 8192) × SlotsPlanned shape plan.new }
{
    let r = shape.r as usize;
    let g = tables_for(r);
    for p in 0..shape.n {
        let x = layout::point_of(shape, p);
        tile_evaluation::plan_powers(x, r, g, plan, p as usize * 32);
    }
}
