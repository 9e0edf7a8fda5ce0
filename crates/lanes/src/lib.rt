// Lanes of a tile of bit planes: a byte of each plane, 32 bytes apart.
#![tactic(auto)]

ghost use Rattle.std.specs.Prelude.{◌≡◌, ◌+◌, ◌<◌, length};
ghost use Rattle.lanes.specs.Lane.{lane, PutLane};

use std::array;

// The lane at o: a byte of each plane.
pub fn lane_of(t: &[u8], o: usize) -> [u8; 8]
    requires { o + 224 < length t.now }
    ensures { result ≡ lane t.now o }
{
    array::from_fn(|p| t[o + p * 32])
}

// Writes the lane at o.
pub fn put_lane(v: &[u8; 8], t: &mut [u8], o: usize)
    requires { o + 224 < length t.old }
    ensures { PutLane v.now o t.old t.new }
{
    for (p, x) in v.iter().enumerate() {
        t[o + p * 32] = *x;
    }
}
