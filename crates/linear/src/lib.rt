// Linear equations over a field, solved in a lent buffer. Rows 0 to k - 1 are in echelon form; row k is the newcomer.
#![tactic(auto)]

ghost use Rattle.std.specs.Prelude.{◌≡◌, ℕ, ◌+◌, ◌*◌, ◌<◌, ◌≤◌, length, MatchOption};
ghost use Rattle.field.specs.Field.{q, minus, inverse};
ghost use Rattle.linear.specs.System.{entry, residue, Echelon, Inserted, Finished};
ghost use Rattle.linear.specs.Step.{Added, Apart, Ready, WentThrough, WentThroughAll, Backed, Bared};

// The row at dst plus c times the row at src, len columns.
pub fn add_row(field: u32, work: &mut [u8], dst: usize, src: usize, len: usize, c: u8)
    requires { (dst + len ≤ length work.old) × (src + len ≤ length work.old) × Apart dst src len }
    ensures { Added field work.old work.new dst src len c }
{
    for m in 0..len {
        let v = arithmetic::product(field, c, work[src + m]);
        work[dst + m] = arithmetic::add(field, work[dst + m], v);
    }
}

// The column up to j from which a row of w columns has a multiple of 32 left, or 0: vectors leave no rest.
fn start(j: usize, w: usize) -> usize
    requires { j ≤ w }
    ensures { result ≤ j }
{
    let rest = (32 - (w - j) % 32) % 32;
    j.saturating_sub(rest)
}

// The factor that makes a row which starts with h start with -1.
fn turn(field: u32, h: u8) -> u8
    ensures { result ≡ minus field 0 (inverse field h) }
{
    let i = arithmetic::inverse_of(field, h);
    arithmetic::sub(field, 0, i)
}

// Takes the newcomer through column j: true where it became row j.
fn step(field: u32, work: &mut [u8], k: usize, j: usize) -> bool
    requires { Ready field k j work.old × (j < k) }
    ensures { WentThrough field k j work.old work.new result }
{
    let w = k + 1;
    let h = work[k * w + j];
    if h == 0 {
        return false;
    }
    let s = start(j, w);
    let t = k * w + s;
    let b = j * w + s;
    if work[j * w + j] == 0 {
        let c = turn(field, h);
        add_row(field, work, b, t, w - s, c);
        return true;
    }
    add_row(field, work, t, b, w - s, h);
    false
}

// Takes the newcomer through all columns: false where it contradicts the rows.
fn place(field: u32, work: &mut [u8], k: usize) -> bool
    requires { Ready field k 0 work.old }
    ensures { WentThroughAll field k work.old work.new result }
{
    for j in 0..k {
        if step(field, work, k, j) {
            return true;
        }
    }
    work[k * (k + 1) + k] == 0
}

// Inserts the equation of the newcomer's coefficients and the right side v: false where no solution is left.
pub fn insert(field: u32, k: usize, v: u8, work: &mut [u8]) -> bool
    requires { Echelon field k work.old × ((m : ℕ) → m < k → entry k work.old k m < q field) × (v < q field) }
    ensures { Inserted field k v work.old work.new result }
{
    let c = arithmetic::sub(field, 0, v);
    work[k * (k + 1) + k] = c;
    place(field, work, k)
}

// The value of row i at ys.
fn value(field: u32, work: &[u8], i: usize, k: usize, ys: &[u8]) -> u8
    requires { (i * (k + 1) + (k + 1) ≤ length work.now) × (length ys.now ≡ k) }
    ensures { result ≡ residue field k work.now i ys.now }
{
    let base = i * (k + 1);
    let sum = arithmetic::dot(field, ys, &work[base..], k);
    arithmetic::add(field, sum, work[base + k])
}

// Back substitution: the unknowns from the last to the first.
fn back(field: u32, work: &[u8], k: usize, solution: &mut [u8])
    requires { Echelon field k work.now × (length solution.old ≡ k) }
    ensures { Backed field k work.now solution.new }
{
    solution.fill(0);
    for j in (0..k).rev() {
        let v = value(field, work, j, k, solution);
        solution[j] = v;
    }
}

// The first bare row, if there is one.
fn bare(work: &[u8], k: usize) -> Option<usize>
    requires { k * (k + 1) + (k + 1) ≤ length work.now }
    ensures { MatchOption result (Bared k work.now k) (λ j. (j < k) × Bared k work.now j) }
{
    for j in 0..k {
        if work[j * (k + 1) + j] == 0 {
            return Some(j);
        }
    }
    None
}

// True where there is just one solution, which is then written; else the solution stays as it was.
pub fn finish(field: u32, work: &[u8], k: usize, solution: &mut [u8]) -> bool
    requires { Echelon field k work.now × (length solution.old ≡ k) }
    ensures { Finished field k work.now solution.old solution.new result }
{
    match bare(work, k) {
        Some(_) => false,
        None => {
            back(field, work, k, solution);
            true
        }
    }
}
