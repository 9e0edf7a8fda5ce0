// Row reduction of a matrix of up to sixteen rows: what the rows annul stays the same, and most of their first columns become 0.
#![tactic(auto)]

ghost use Rattle.std.specs.Prelude.{◌≡◌, ◌*◌, ◌≤◌, ◌<◌, length};
ghost use Rattle.row_reduction.specs.Matrix.{matrix_row, Elements, Reduced};

// Adds to row a the multiple of row b that makes column b of it 0; turn is -1 by row b's own entry there.
fn clear_entry(field: u32, n: usize, rows: &mut [u8], a: usize, b: usize, turn: u8)
    requires { (n ≤ 16) × (n * 16 ≤ length rows.old) × (a < n) × (b < n) × Elements field rows.old }
    ensures { Reduced field n rows.old rows.new }
{
    let own = a == b;
    if own {
        return;
    }
    let c = arithmetic::mul(field, rows[a * 16 + b], turn);
    linear::add_row(field, rows, a * 16, b * 16, 16, c);
}

// Makes column b of the rows 0 but for row b's, where that is not 0.
fn clear_column(field: u32, n: usize, rows: &mut [u8], b: usize)
    requires { (n ≤ 16) × (n * 16 ≤ length rows.old) × (b < n) × Elements field rows.old }
    ensures { Reduced field n rows.old rows.new }
{
    let inverse = arithmetic::inverse_of(field, rows[b * 16 + b]);
    let turn = arithmetic::sub(field, 0, inverse);
    for a in 0..n {
        clear_entry(field, n, rows, a, b, turn);
    }
}

// Reduces the first n rows, column by column.
pub fn reduce(field: u32, n: usize, rows: &mut [u8])
    requires { (n ≤ 16) × (n * 16 ≤ length rows.old) × Elements field rows.old }
    ensures { Reduced field n rows.old rows.new }
{
    for b in 0..n {
        clear_column(field, n, rows, b);
    }
}

// Row c.
pub fn row_of(rows: &[u8], c: usize) -> [u8; 16]
    requires { (c < 16) × (256 ≤ length rows.now) }
    ensures { result ≡ matrix_row rows.now c }
{
    let mut row = [0u8; 16];
    row.copy_from_slice(&rows[c * 16..c * 16 + 16]);
    row
}
