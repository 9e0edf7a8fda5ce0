// Strips into tiles of bit planes and back. A last tile that a strip does not fill is filled up with 0.
#![tactic(auto)]

ghost use Rattle.std.specs.Prelude.{◌+◌, ◌*◌, ◌-◌, ◌≤◌, ◌<◌, length};
ghost use Rattle.tile_strips.specs.Tile.{padded, TileSet, Stored};

// Writes the last columns of strip m, fewer than 256, as the tile at o.
fn load_part(strips: &[u8], l: usize, m: usize, c: usize, tiles: &mut [u8], o: usize)
    requires { (c < l) × (l - c < 256) × (l ≤ 4096) × (m * l + l ≤ length strips.now) × (o + 256 ≤ length tiles.old) }
    ensures { TileSet (λ s i. padded strips.now l m (c + (s * 32 + i))) o tiles.old tiles.new }
{
    let mut columns = [0u8; 256];
    copying::copy(strips, m * l + c, l - c, &mut columns, 0);
    bit_planes::turn(&columns, 0, tiles, o);
}

// Writes the last columns of strip m, fewer than 256: those of the tile at o.
fn store_part(tiles: &[u8], o: usize, strips: &mut [u8], l: usize, m: usize, c: usize)
    requires { (c < l) × (l - c < 256) × (l ≤ 4096) × (m * l + l ≤ length strips.old) × (o + 256 ≤ length tiles.now) }
    ensures { Stored tiles.now o l m c strips.old strips.new }
{
    let mut columns = [0u8; 256];
    bit_planes::turn(tiles, o, &mut columns, 0);
    copying::copy(&columns, 0, l - c, strips, m * l + c);
}

// Writes the columns from c on of strip m of l symbols as the tile at o.
pub fn load(strips: &[u8], l: usize, m: usize, c: usize, tiles: &mut [u8], o: usize)
    requires { (c < l) × (l ≤ 4096) × (m * l + l ≤ length strips.now) × (o + 256 ≤ length tiles.old) }
    ensures { TileSet (λ s i. padded strips.now l m (c + (s * 32 + i))) o tiles.old tiles.new }
{
    if l - c < 256 {
        load_part(strips, l, m, c, tiles, o);
        return;
    }
    bit_planes::turn(strips, m * l + c, tiles, o);
}

// Writes 0 to the tile at o.
pub fn clear_tile(tiles: &mut [u8], o: usize)
    requires { o + 256 ≤ length tiles.old }
    ensures { TileSet (λ s i. 0) o tiles.old tiles.new }
{
    tiles[o..o + 256].fill(0);
}

// Writes the columns from c on of strip m of l symbols: those of the tile at o.
pub fn store(tiles: &[u8], o: usize, strips: &mut [u8], l: usize, m: usize, c: usize)
    requires { (c < l) × (l ≤ 4096) × (m * l + l ≤ length strips.old) × (o + 256 ≤ length tiles.now) }
    ensures { Stored tiles.now o l m c strips.old strips.new }
{
    if l - c < 256 {
        store_part(tiles, o, strips, l, m, c);
        return;
    }
    bit_planes::turn(tiles, o, strips, m * l + c);
}
