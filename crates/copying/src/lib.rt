// Copies between lent buffers, and clears them.
#![tactic(auto)]

ghost use Rattle.std.specs.Prelude.{◌≡◌, ◌+◌, ◌≤◌, length, replicate};
ghost use Rattle.algebra.specs.Sequence.{at};
ghost use Rattle.algebra.specs.Writing.{Laid};

// Writes n entries of source, from place start on, to target from place to on.
pub fn copy(source: &[u8], start: usize, n: usize, target: &mut [u8], to: usize)
    requires { (start + n ≤ length source.now) × (to + n ≤ length target.old) }
    ensures { Laid (λ i. at source.now (start + i)) to n target.old target.new }
{
    target[to..to + n].copy_from_slice(&source[start..start + n]);
}

// Copies numbers to a buffer of as many.
pub fn copy_numbers(from: &[u32], to: &mut [u32])
    requires { length to.old ≡ length from.now }
    ensures { to.new ≡ from.now }
{
    to.copy_from_slice(from);
}

// Writes 0 to every place.
pub fn clear(s: &mut [u8])
    ensures { s.new ≡ replicate (length s.old) 0 }
{
    s.fill(0);
}
