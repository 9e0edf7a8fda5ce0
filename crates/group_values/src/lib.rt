// The values of the groups' polynomials, written to the strips of their slots, 256 columns at a time.
#![tactic(auto)]

ghost use Rattle.std.specs.Prelude.{◌≡◌, List, ℕ, ◌+◌, ◌*◌, ◌≤◌, ◌<◌, length};
ghost use Rattle.code.specs.Shape.{size, groups};
ghost use Rattle.lanes.specs.Lane.{shown};
ghost use Rattle.tile_evaluation.specs.Step.{TablesAt};
ghost use Rattle.group_plans.specs.Plan.{tables_for, SlotsPlanned, ByteCode};
ghost use Rattle.group_values.specs.Value.{GroupStored, GroupsStored};

use code::Shape;

// Writes the columns from c on of the slots of a group: the table has its coefficients. tile is room.
fn write_group(
    shape: Shape,
    group: u32,
    plan: &[u8],
    table: &[u8],
    tile: &mut [u8],
    l: usize,
    c: usize,
    codewords: &mut [u8],
)
    requires { ByteCode shape × (group < groups shape) × (length plan.now ≡ 8192) × SlotsPlanned shape plan.now × (length table.now ≡ 16384) × (length tile.old ≡ 256) × (c < l) × (l ≤ 4096) × (length codewords.old ≡ shape.n * l) }
    ensures { (length tile.new ≡ 256) × ((xs : List ℕ) → TablesAt xs (group * shape.r * 256) (tables_for shape.r) table.now → GroupStored shape l c group (size shape) (λ m. shown xs (m * 256)) codewords.old codewords.new) × (length codewords.new ≡ shape.n * l) }
{
    let size = layout::size_of(shape);
    let g = group_plans::tables_for(shape.r as usize);
    for i in 0..size {
        let p = layout::slot_at(shape, group, i) as usize;
        tile_evaluation::write_value(g, plan, p * 32, table, tile, 0);
        tile_strips::store(tile, 0, codewords, l, p, c);
    }
}

// Writes the columns from c on of all slots, group by group. table and tile are room.
pub fn write_groups(
    shape: Shape,
    plan: &[u8],
    coefs: &[u8],
    table: &mut [u8],
    tile: &mut [u8],
    l: usize,
    c: usize,
    codewords: &mut [u8],
)
    requires { ByteCode shape × (length plan.now ≡ 8192) × SlotsPlanned shape plan.now × (length coefs.now ≡ 65536) × (length table.old ≡ 16384) × (length tile.old ≡ 256) × (c < l) × (l ≤ 4096) × (length codewords.old ≡ shape.n * l) }
    ensures { (length table.new ≡ 16384) × (length tile.new ≡ 256) × GroupsStored shape l c (groups shape) (λ m. shown coefs.now (m * 256)) codewords.old codewords.new }
{
    let groups = layout::groups_of(shape);
    let r = shape.r as usize;
    let g = group_plans::tables_for(r);
    for j in 0..groups {
        tile_evaluation::write_tables(coefs, j as usize * r * 256, g, table);
        write_group(shape, j, plan, table, tile, l, c, codewords);
    }
}
