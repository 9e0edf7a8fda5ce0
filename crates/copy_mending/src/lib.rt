// The local pass on a copy: what a word and its marks become where each group that can mends itself, with the caller's left as they are.
#![tactic(auto)]

ghost use Rattle.std.specs.Prelude.{◌≡◌, length};
ghost use Rattle.code.specs.Laws.{Decodable};
ghost use Rattle.code.specs.Step.{Received};
ghost use Rattle.copy_mending.specs.Step.{MendedCopy};

use code::Shape;

// Copies the kept symbols and the marks, and mends the copy; answers how many groups were mended. Lost symbols are not read.
pub fn mend_copy(shape: Shape, word: &[u8], marks: &[u8], copy: &mut [u8], left: &mut [u8]) -> u32
    requires { Decodable shape × Received shape word.now marks.now × (length copy.old ≡ shape.n) × (length left.old ≡ shape.n) }
    ensures { MendedCopy shape word.now marks.now copy.new left.new result }
{
    interpolation::load(word, marks, copy);
    left.copy_from_slice(marks);
    mending::mend_groups(shape, copy, left)
}
