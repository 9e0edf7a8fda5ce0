// Questions that no named refusal stands for: a caller's own, or those of a later family of codes.
ghost use Rattle.std.specs.Prelude.{◌≢◌, ◌<◌};

// Such a question, by its number.
#[derive(Clone, Copy, Debug, PartialEq, Eq, Hash)]
pub struct Question {
    pub number: u32,
    pub ghost unnamed: { (15 < number) × (number ≢ 17) × (number ≢ 18) },
}
