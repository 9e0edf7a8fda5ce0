// Why a call refuses: a question of the specification that was answered no.
#![tactic(auto)]

ghost use Rattle.std.specs.Prelude.{◌≡◌};
ghost use Rattle.code.specs.Question.{ask};
ghost use Rattle.refusal.specs.Refusal.{number, number_of, answer_of};

use code::Answer;
use std::error::Error;
use std::fmt;

pub mod other;

use other::Question;

// A refusal by its question; the specification numbers the questions.
#[derive(Clone, Copy, Debug, PartialEq, Eq, Hash)]
pub enum Refusal {
    Field,
    Locality,
    Length,
    Dimension,
    Buffers,
    Symbol,
    Slot,
    Mark,
    Foreign,
    Undecided,
    SheetLength,
    FirstWord,
    WordCount,
    MiddleWord,
    LastWord,
    Wiring,
    View,
    Other(Question),
}

impl Refusal {
    // The question's number.
    pub fn number(self) -> u32
        ensures { result ≡ number self }
    {
        match self {
            Refusal::Field => 1,
            Refusal::Locality => 2,
            Refusal::Length => 3,
            Refusal::Dimension => 4,
            Refusal::Buffers => 5,
            Refusal::Symbol => 6,
            Refusal::Slot => 7,
            Refusal::Mark => 8,
            Refusal::Foreign => 9,
            Refusal::Undecided => 10,
            Refusal::SheetLength => 11,
            Refusal::FirstWord => 12,
            Refusal::WordCount => 13,
            Refusal::MiddleWord => 14,
            Refusal::LastWord => 15,
            Refusal::Wiring => 17,
            Refusal::View => 18,
            Refusal::Other(question) => question.number,
        }
    }
}

impl fmt::Display for Refusal {
    fn fmt<W: fmt::Write>(&self, f: &mut fmt::Formatter<W>) -> fmt::Result {
        let number = self.number();
        write!(f, "refused {number}")
    }
}

impl Error for Refusal {}

// Refuses where the answer to a question is no.
pub fn require(yes: bool, refusal: Refusal) -> Result<(), Refusal>
    ensures { number_of result ≡ ask yes (number refusal) 0 }
{
    if yes { Ok(()) } else { Err(refusal) }
}

// The number of what was refused, or 0: the form of C.
pub fn number_of(asked: Result<(), Refusal>) -> u32
    ensures { result ≡ number_of asked }
{
    match asked {
        Ok(()) => 0,
        Err(refusal) => refusal.number(),
    }
}

// What was answered in the form of C: the number of what was refused, or 0, and the value, 0 on a refusal.
pub fn answer_of(answer: Result<u32, Refusal>) -> Answer
    ensures { result ≡ answer_of answer }
{
    match answer {
        Ok(value) => Answer { refusal: 0, value },
        Err(refusal) => Answer {
            refusal: refusal.number(),
            value: 0,
        },
    }
}

// The refusal with a number, and none with 0: what a caller that has numbers hands on.
pub fn numbered(number: u32) -> Result<(), Refusal>
    ensures { number_of result ≡ number }
{
    Err(match number {
        0 => return Ok(()),
        1 => Refusal::Field,
        2 => Refusal::Locality,
        3 => Refusal::Length,
        4 => Refusal::Dimension,
        5 => Refusal::Buffers,
        6 => Refusal::Symbol,
        7 => Refusal::Slot,
        8 => Refusal::Mark,
        9 => Refusal::Foreign,
        10 => Refusal::Undecided,
        11 => Refusal::SheetLength,
        12 => Refusal::FirstWord,
        13 => Refusal::WordCount,
        14 => Refusal::MiddleWord,
        15 => Refusal::LastWord,
        17 => Refusal::Wiring,
        18 => Refusal::View,
        _ => Refusal::Other(Question { number }),
    })
}
