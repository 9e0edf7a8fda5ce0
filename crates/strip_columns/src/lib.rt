// Columns of strips that lie behind each other: read into a buffer, and written from one.
#![tactic(auto)]

ghost use Rattle.std.specs.Prelude.{◌≡◌, ◌*◌, ◌≤◌, ◌<◌, length};
ghost use Rattle.algebra.specs.Sequence.{column};
ghost use Rattle.strip_columns.specs.Strips.{strips_are};
ghost use Rattle.strip_columns.specs.Column.{ColumnPut};

// Whether so many symbols are n strips of l, with l from 1 to 4,096.
#[tactic(auto, unfolding(crate::specs::Strips::strips_are))]
pub fn strips_are(l: usize, n: usize, length: usize) -> bool
    requires { n * l ≤ length }
    ensures { result ≡ strips_are l n length }
{
    1 <= l && l <= 4096 && length == n * l
}

// Reads column c of strips of l symbols, as many as the buffer has places.
pub fn take_column(strips: &[u8], l: usize, c: usize, buffer: &mut [u8])
    requires { (c < l) × (length buffer.old * l ≤ length strips.now) }
    ensures { buffer.new ≡ column (length buffer.old) l c strips.now }
{
    for (m, x) in buffer.iter_mut().enumerate() {
        *x = strips[m * l + c];
    }
}

// Writes column c of strips of l symbols, as many as the buffer has places.
pub fn put_column(buffer: &[u8], strips: &mut [u8], l: usize, c: usize)
    requires { (c < l) × (length buffer.now * l ≤ length strips.old) }
    ensures { ColumnPut buffer.now l c strips.old strips.new }
{
    for (m, &x) in buffer.iter().enumerate() {
        strips[m * l + c] = x;
    }
}
