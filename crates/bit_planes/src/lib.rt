// Bytes into bit planes and back: 256 columns of a strip as eight planes of 32 bytes.
#![tactic(auto)]

ghost use Rattle.std.specs.Prelude.{◌≡◌, ◌+◌, ◌≤◌, ◌<◌, length};
ghost use Rattle.algebra.specs.Sequence.{at};
ghost use Rattle.lanes.specs.Lane.{bit};
ghost use Rattle.bit_planes.specs.Exchange.{with_bit, Picked, Exchanged};
ghost use Rattle.bit_planes.specs.Plane.{Transposed, Turned};

// The bits of a byte whose places have bit 0, 1 or 2 clear.
const CLEAR: [u8; 3] = [0x55, 0x33, 0x0f];

// Entry p with bit J of its place and bit J of the places of its bits exchanged.
fn entry<const J: usize>(v: &[u8; 8], p: usize) -> u8
    requires { (J < 3) × (p < 8) }
    ensures { Picked (bit J p) J (at v.now (with_bit J 0 p)) (at v.now (with_bit J 1 p)) result }
{
    let d: usize = 1 << J;
    let low = CLEAR[J];
    if (p >> J) % 2 == 0 {
        v[p] & low ^ (v[p + d] & low) << d
    } else {
        (v[p - d] >> d & low) ^ v[p] & !low
    }
}

// Exchanges bit J of the place of each entry with bit J of the places of its bits.
fn exchange<const J: usize>(v: &[u8; 8]) -> [u8; 8]
    requires { J < 3 }
    ensures { (length result ≡ 8) × Exchanged J v.now result }
{
    let mut z = [0u8; 8];
    for p in 0..8usize {
        z[p] = entry::<J>(v, p);
    }
    z
}

// The bit transpose of eight bytes.
fn transposed(v: &[u8; 8]) -> [u8; 8]
    ensures { (length result ≡ 8) × Transposed v.now result }
{
    let a = exchange::<2>(v);
    let b = exchange::<1>(&a);
    exchange::<0>(&b)
}

// Writes the bit transpose of the 256 bytes from place m on to place o on: bytes into planes, and planes into bytes.
pub fn turn(from: &[u8], m: usize, to: &mut [u8], o: usize)
    requires { (m + 256 ≤ length from.now) × (o + 256 ≤ length to.old) }
    ensures { Turned from.now m o to.old to.new }
{
    for i in 0..32usize {
        let v = lanes::lane_of(from, m + i);
        let w = transposed(&v);
        lanes::put_lane(&w, to, o + i);
    }
}
