// Encode of strips of bytes on tiles of 256 columns, group by group: the message strips are folded into each group's coefficients, and these give
// the values at its points.
#![tactic(auto)]

ghost use Rattle.std.specs.Prelude.{◌≡◌, true, ◌*◌, ◌≤◌, length};
ghost use Rattle.algebra.specs.Sequence.{all_below};
ghost use Rattle.field.specs.Field.{q};
ghost use Rattle.strip_columns.specs.Strips.{encoded_strips};
ghost use Rattle.group_plans.specs.Plan.{GroupsPlanned, SlotsPlanned, ByteCode};

use code::Shape;

// Writes the codewords' strips, 256 columns at a time; tiles, table, coefs and tile are room.
fn write_chunks(
    shape: Shape,
    messages: &[u8],
    l: usize,
    folds: &[u8],
    values: &[u8],
    tiles: &mut [u8],
    table: &mut [u8],
    coefs: &mut [u8],
    tile: &mut [u8],
    codewords: &mut [u8],
)
    requires { ByteCode shape × (1 ≤ l) × (l ≤ 4096) × (length messages.now ≡ shape.k * l) × (all_below (q shape.field) messages.now ≡ true) × (length folds.now ≡ 8192) × GroupsPlanned shape folds.now × (length values.now ≡ 8192) × SlotsPlanned shape values.now × (length tiles.old ≡ 4096) × (length table.old ≡ 16384) × (length coefs.old ≡ 65536) × (length tile.old ≡ 256) × (length codewords.old ≡ shape.n * l) }
    ensures { codewords.new ≡ encoded_strips shape l messages.now }
{
    for c in (0..l).step_by(256) {
        group_folding::fold(shape, messages, l, c, folds, tiles, table, coefs);
        group_values::write_groups(shape, values, coefs, table, tile, l, c, codewords);
    }
}

// Writes the codewords' strips.
pub fn write_tiles(shape: Shape, messages: &[u8], l: usize, codewords: &mut [u8])
    requires { ByteCode shape × (1 ≤ l) × (l ≤ 4096) × (length messages.now ≡ shape.k * l) × (all_below (q shape.field) messages.now ≡ true) × (length codewords.old ≡ shape.n * l) }
    ensures { codewords.new ≡ encoded_strips shape l messages.now }
{
    let mut folds = [0u8; 8192];
    let mut values = [0u8; 8192];
    let mut tiles = [0u8; 4096];
    let mut table = [0u8; 16384];
    let mut coefs = [0u8; 65536];
    let mut tile = [0u8; 256];
    group_plans::plan_groups(shape, &mut folds);
    group_plans::plan_slots(shape, &mut values);
    write_chunks(
        shape, messages, l, &folds, &values, &mut tiles, &mut table, &mut coefs, &mut tile,
        codewords,
    );
}
