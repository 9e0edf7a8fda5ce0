// Counts of calls and of their mismatches, and the lines that print them.
#![tactic(auto)]

use std::fmt;
use std::io::{Result, Write};

// The calls that are counted. The record, the report, the previews and the encode of strips are not made here.
#[derive(Clone, Copy, PartialEq, Eq, Debug)]
pub enum Kind {
    Encode,
    Weights,
    Repair,
    Rebuild,
    View,
    LocalPass,
    Decode,
    Grade,
    ReadSheet,
    WriteSheet,
    DecodeNear,
}

// A number that no counted call has.
#[derive(Clone, Copy, PartialEq, Eq, Debug)]
pub struct NotCounted;

impl TryFrom<u32> for Kind {
    type Error = NotCounted;

    fn try_from(number: u32) -> std::result::Result<Kind, NotCounted> {
        match number {
            1 => Ok(Kind::Encode),
            2 => Ok(Kind::Weights),
            3 => Ok(Kind::Repair),
            4 => Ok(Kind::Rebuild),
            5 => Ok(Kind::View),
            6 => Ok(Kind::LocalPass),
            7 => Ok(Kind::Decode),
            8 => Ok(Kind::Grade),
            10 => Ok(Kind::ReadSheet),
            11 => Ok(Kind::WriteSheet),
            15 => Ok(Kind::DecodeNear),
            _ => Err(NotCounted),
        }
    }
}

// The name of a call.
impl fmt::Display for Kind {
    fn fmt<W: fmt::Write>(&self, f: &mut fmt::Formatter<W>) -> fmt::Result {
        f.write_str(match self {
            Kind::Encode => "encode",
            Kind::Weights => "weights",
            Kind::Repair => "repair",
            Kind::Rebuild => "rebuild",
            Kind::View => "view",
            Kind::LocalPass => "local_pass",
            Kind::Decode => "decode",
            Kind::Grade => "grade",
            Kind::ReadSheet => "read_sheet",
            Kind::WriteSheet => "write_sheet",
            Kind::DecodeNear => "decode_near",
        })
    }
}

// The kinds in the order of their lines.
const KINDS: [Kind; 11] = [
    Kind::Encode,
    Kind::Weights,
    Kind::Repair,
    Kind::Rebuild,
    Kind::View,
    Kind::LocalPass,
    Kind::Decode,
    Kind::Grade,
    Kind::ReadSheet,
    Kind::WriteSheet,
    Kind::DecodeNear,
];

// How often a call was made, and how often it mismatched.
#[derive(Clone, Copy, Default)]
struct Count {
    calls: u32,
    mismatches: u32,
}

// A count for each kind.
#[derive(Clone, Copy, Default)]
pub struct Tally {
    counts: [Count; 11],
}

impl Tally {
    // Counts a call, and a mismatch where it does not agree.
    pub fn count(&mut self, kind: Kind, agrees: bool) {
        let count = &mut self.counts[kind as usize];
        count.calls = count.calls.saturating_add(1);
        if !agrees {
            count.mismatches = count.mismatches.saturating_add(1);
        }
    }

    // A line for each kind: its name, how often it was made, and how often it mismatched.
    pub fn put_lines<W: Write>(&self, output: &mut W) -> Result<()> {
        for kind in KINDS {
            let count = self.counts[kind as usize];
            writeln!(
                output,
                "{kind} calls {} mismatches {}",
                count.calls, count.mismatches
            )?;
        }
        Ok(())
    }
}
