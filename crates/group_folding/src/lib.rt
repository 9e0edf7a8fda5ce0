// The message strips folded into the coefficients of the groups, 256 columns at a time.
#![tactic(auto)]

ghost use Rattle.std.specs.Prelude.{◌≡◌, List, ℕ, ◌+◌, ◌*◌, ◌≤◌, ◌<◌, length};
ghost use Rattle.code.specs.Shape.{groups};
ghost use Rattle.lanes.specs.Lane.{shown};
ghost use Rattle.tile_strips.specs.Tile.{TileSet};
ghost use Rattle.tile_evaluation.specs.Step.{TablesAt};
ghost use Rattle.group_plans.specs.Plan.{blocks, tables_for, GroupsPlanned, ByteCode};
ghost use Rattle.group_folding.specs.Fold.{message_symbol, PlaceLoaded, PlaceFolded, Folded};

use code::Shape;

// Loads the columns from c on of message strip m; a strip past the message is 0.
fn load_strip(
    shape: Shape,
    messages: &[u8],
    l: usize,
    c: usize,
    m: usize,
    tiles: &mut [u8],
    o: usize,
)
    requires { (c < l) × (l ≤ 4096) × (length messages.now ≡ shape.k * l) × (o + 256 ≤ length tiles.old) }
    ensures { TileSet (λ t i. message_symbol shape l messages.now m (c + (t * 32 + i))) o tiles.old tiles.new }
{
    if m < shape.k as usize {
        tile_strips::load(messages, l, m, c, tiles, o);
        return;
    }
    tile_strips::clear_tile(tiles, o);
}

// Loads the columns from c on of the message strips at place b of their blocks.
fn load_place(shape: Shape, messages: &[u8], l: usize, c: usize, b: usize, tiles: &mut [u8])
    requires { ByteCode shape × (c < l) × (l ≤ 4096) × (length messages.now ≡ shape.k * l) × (b < shape.r) × (length tiles.old ≡ 4096) }
    ensures { (length tiles.new ≡ 4096) × PlaceLoaded shape l messages.now c b (blocks shape) tiles.new }
{
    let r = shape.r as usize;
    let blocks = group_plans::blocks_of(shape);
    for a in 0..blocks {
        load_strip(shape, messages, l, c, a * r + b, tiles, a * 256);
    }
}

// Writes coefficient b of every group: the table has the message strips at place b of their blocks.
fn fold_place(shape: Shape, b: usize, plan: &[u8], table: &[u8], coefs: &mut [u8])
    requires { ByteCode shape × (b < shape.r) × (length plan.now ≡ 8192) × GroupsPlanned shape plan.now × (length table.now ≡ 16384) × (length coefs.old ≡ 65536) }
    ensures { ((xs : List ℕ) → TablesAt xs 0 (tables_for (blocks shape)) table.now → PlaceFolded shape b (groups shape) (λ e. shown xs (e * 256)) coefs.old coefs.new) × (length coefs.new ≡ 65536) }
{
    let groups = layout::groups_of(shape) as usize;
    let g = group_plans::tables_for(group_plans::blocks_of(shape));
    for j in 0..groups {
        let o = (j * shape.r as usize + b) * 256;
        tile_evaluation::write_value(g, plan, j * 32, table, coefs, o);
    }
}

// Writes the coefficients of every group in the columns from c on; tiles and table are room.
pub fn fold(
    shape: Shape,
    messages: &[u8],
    l: usize,
    c: usize,
    plan: &[u8],
    tiles: &mut [u8],
    table: &mut [u8],
    coefs: &mut [u8],
)
    requires { ByteCode shape × (c < l) × (l ≤ 4096) × (length messages.now ≡ shape.k * l) × (length plan.now ≡ 8192) × GroupsPlanned shape plan.now × (length tiles.old ≡ 4096) × (length table.old ≡ 16384) × (length coefs.old ≡ 65536) }
    ensures { (length tiles.new ≡ 4096) × (length table.new ≡ 16384) × (length coefs.new ≡ 65536) × Folded shape l messages.now c shape.r coefs.new }
{
    let g = group_plans::tables_for(group_plans::blocks_of(shape));
    let r = shape.r as usize;
    for b in 0..r {
        load_place(shape, messages, l, c, b, tiles);
        tile_evaluation::write_tables(tiles, 0, g, table);
        fold_place(shape, b, plan, table, coefs);
    }
}
