// Whether the kept slots decide every message: whether no codeword but 0 is 0 at all of them. Groups that mend themselves are taken first.
#![tactic(auto)]

ghost use Rattle.std.specs.Prelude.{◌≡◌, not, ◌+◌, ◌*◌, ◌≤◌, ◌<◌, length, replicate};
ghost use Rattle.code.specs.Codeword.{guarantee};
ghost use Rattle.code.specs.Decoding.{undecided};
ghost use Rattle.code.specs.Erasure.{lost_number};
ghost use Rattle.code.specs.Laws.{Whole, Decodable};
ghost use Rattle.deciding.specs.Step.{system_size, Annulled};

use code::Shape;

// Of whole groups: the codewords are the values of polynomials with no coefficient at the gaps.
fn only_zero(shape: Shape, marks: &[u8], work: &mut [u8]) -> bool
    requires { Whole shape × (shape.tolerance ≡ 1) × (length marks.now ≡ shape.n) × (guarantee shape < lost_number shape marks.now) × (system_size shape ≤ length work.old) }
    ensures { Annulled shape marks.now result }
{
    let n = shape.n as usize;
    let k = shape.k as usize;
    let r = shape.r as usize;
    let size = layout::size_of(shape) as usize;
    let most = n - losses::guarantee_of(shape) as usize;
    let gaps = (k - 1) / r;
    let mut points = [0u8; 256];
    fitting::fill_points(shape, &mut points);
    annihilator::only_zero(shape.field, most, size, r, gaps, &points, marks, work)
}

// Of any code, as one of whole groups whose missing places are kept: whether the kept slots decide, for losses past the guarantee.
fn decided_past(shape: Shape, marks: &[u8], work: &mut [u8]) -> bool
    requires { Decodable shape × (length marks.now ≡ shape.n) × (guarantee shape < lost_number shape marks.now) × (shape.k * (shape.k + 1) + (shape.k + 1) ≤ length work.old) }
    ensures { result ≡ not (undecided shape marks.now) }
{
    let places = layout::room_of(shape) as usize;
    let mother = shortening::mother_of(shape);
    let mut all = [0u8; 256];
    all[..marks.len()].copy_from_slice(marks);
    only_zero(mother, &all[..places], work)
}

// After the groups that have lost one slot have repaired it: within the guarantee the rest is decided.
fn decided_left(shape: Shape, marks: &mut [u8], work: &mut [u8]) -> bool
    requires { Decodable shape × (length marks.old ≡ shape.n) × (shape.k * (shape.k + 1) + (shape.k + 1) ≤ length work.old) }
    ensures { result ≡ not (undecided shape marks.old) }
{
    let n = shape.n as usize;
    let mut word = [0u8; 256];
    mending::mend_groups(shape, &mut word[..n], marks);
    if losses::count_lost(shape, marks) <= losses::guarantee_of(shape) {
        return true;
    }
    decided_past(shape, marks, work)
}

// Whether the kept slots decide every message. All of work is left 0.
pub fn decided(shape: Shape, marks: &[u8], work: &mut [u8]) -> bool
    requires { Decodable shape × (length marks.now ≡ shape.n) × (shape.k * (shape.k + 1) + (shape.k + 1) ≤ length work.old) }
    ensures { (result ≡ not (undecided shape marks.now)) × (work.new ≡ replicate (length work.old) 0) }
{
    let mut room = [0u8; 256];
    let left = &mut room[..marks.len()];
    left.copy_from_slice(marks);
    let lone = decided_left(shape, left, work);
    work.fill(0);
    lone
}
