// Runs random calls with the answers of a separately written program (crate vectors), and counts the mismatches.
// The record, the report and the previews, which stand above the other calls, are compared with that program from outside alone.
#![tactic(auto)]

use code::Code;
use std::io::Result;
use tally::{Kind, Tally};
use vectors::{Call, Record, Records};

mod calls;

// The code of a call.
fn code_of(call: Call) -> Code {
    Code {
        field: call.field,
        r: call.r,
        n: call.n,
        k: call.k,
        wiring: call.wiring,
    }
}

// Makes a record's call: whether the answer and every buffer are the record's.
fn run(record: &Record, kind: Kind) -> bool {
    match kind {
        Kind::Encode => calls::run_encode(record),
        Kind::Weights => calls::run_weights(record),
        Kind::Repair => calls::run_repair(record),
        Kind::Rebuild => calls::run_rebuild(record),
        Kind::View => calls::run_view(record),
        Kind::LocalPass => calls::run_pass(record),
        Kind::Decode => calls::run_decode(record),
        Kind::Grade => calls::run_grade(record),
        Kind::ReadSheet => calls::run_sheet(record),
        Kind::WriteSheet => calls::run_write(record),
        Kind::DecodeNear => calls::run_near(record),
    }
}

// Makes the calls of all records, and counts them.
fn run_all(input: &[u8]) -> Tally {
    let mut tally = Tally::default();
    for bytes in Records(input) {
        let record = Record::read(bytes);
        if let Ok(kind) = Kind::try_from(record.call.number) {
            tally.count(kind, run(&record, kind));
        }
    }
    tally
}

fn main(rt: HostRuntime) -> Result<()> {
    let mut room = [0u8; 262144];
    let n = match console::read_input(&mut rt.stdin(), &mut room) {
        Ok(n) => n,
        Err(failed) => failed.len,
    };
    run_all(&room[..n]).put_lines(&mut rt.stdout())
}
