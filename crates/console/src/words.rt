// Decimal numbers separated by white space: the words of an input, parts of it without white space.
ghost use Rattle.std.specs.Prelude.{◌≡◌, ◌+◌, ◌*◌, ◌%◌, ◌<◌, ◌≤◌, ◌↔◌, EachIndex, IsTrue, fold, length, min, slice_index};
ghost use Rattle.std.specs.Iterator.{at_most};

// The words of an input from front to back.
#[derive(Clone, Copy)]
pub struct Words<'a>(pub &'a [u8]);

impl<'a> Iterator for Words<'a> {
    type Item = &'a [u8];

    ghost remaining = { λ s. at_most (length s.0.now) };

    fn next(&mut self) -> Option<&'a [u8]> {
        let rest = self.0;
        let start = rest.iter().position(|b| !is_space(*b))?;
        let behind = &rest[start + 1..];
        let end = match behind.iter().position(|b| is_space(*b)) {
            Some(n) => start + 1 + n,
            None => rest.len(),
        };
        self.0 = &rest[end..];
        Some(&rest[start..end])
    }
}

// A space, a tab, or an end of line or of page.
fn is_space(b: u8) -> bool {
    matches!(b, b' ' | b'\t'..=b'\r')
}

// Whether a word has digits only.
pub fn is_decimal(word: &[u8]) -> bool
    ensures { IsTrue result ↔ EachIndex word.now (λ k. (48 ≤ slice_index word.now k) × (slice_index word.now k < 58)) }
{
    word.iter().all(|b| b.is_ascii_digit())
}

// The number of a word of digits, 255 at the most.
pub fn value_of(word: &[u8]) -> u8
    ensures { result ≡ fold (λ value b. min (min (value * 10) 255 + b % 16) 255) 0 word.now }
{
    word.iter().fold(
        0u8,
        |value, b| value.saturating_mul(10).saturating_add(b % 16),
    )
}
