// The calls, each with a record's buffers, which are a to e in the order of the C function: whether the answer and the buffers are the
// record's after it.
use crate::code_of;
use binding::packed;
use refusal::{answer_of, number_of};
use vectors::{Call, Record, pair};

// Room for the longest buffer.
const ROOM: usize = 65600;

// A call that reads one buffer.
fn reads<F: Fn(Call, &[u8]) -> u64>(record: &Record, f: F) -> bool
    requires { F.IsAlwaysCallable f }
{
    let mut room = [0u8; ROOM];
    let a = record.buffer(0).fill(&mut room[..]);
    let answer = f(record.call, a);
    record.agrees(answer, &[a])
}

// A call that reads one buffer and writes another.
fn writes<F: Fn(Call, &[u8], &mut [u8]) -> u64>(record: &Record, f: F) -> bool
    requires { F.IsAlwaysCallable f }
{
    let mut room_a = [0u8; ROOM];
    let mut room_b = [0u8; ROOM];
    let a = record.buffer(0).fill(&mut room_a[..]);
    let b = record.buffer(1).fill(&mut room_b[..]);
    let answer = f(record.call, a, b);
    record.agrees(answer, &[a, b])
}

// A call that reads a word and its marks, and writes a message and its work.
fn decodes<F: Fn(Call, &[u8], &[u8], &mut [u8], &mut [u8]) -> u64>(record: &Record, f: F) -> bool
    requires { F.IsAlwaysCallable f }
{
    let mut room_a = [0u8; ROOM];
    let mut room_b = [0u8; ROOM];
    let mut room_c = [0u8; ROOM];
    let mut room_d = [0u8; ROOM];
    let a = record.buffer(0).fill(&mut room_a[..]);
    let b = record.buffer(1).fill(&mut room_b[..]);
    let c = record.buffer(2).fill(&mut room_c[..]);
    let d = record.buffer(3).fill(&mut room_d[..]);
    let answer = f(record.call, a, b, c, d);
    record.agrees(answer, &[a, b, c, d])
}

pub fn run_encode(record: &Record) -> bool {
    writes(
        record,
        |call, a, b| pair(number_of(encode::encode(code_of(call), a, b)), 0),
    )
}

pub fn run_weights(record: &Record) -> bool {
    let call = record.call;
    let mut room = [0u8; ROOM];
    let a = record.buffer(0).fill(&mut room[..]);
    let refusal = number_of(binding::weights_into(code_of(call), call.slot, a));
    record.agrees(pair(refusal, 0), &[a])
}

pub fn run_repair(record: &Record) -> bool {
    reads(
        record,
        |call, a| packed(answer_of(repair::repair(code_of(call), call.slot, a))),
    )
}

pub fn run_rebuild(record: &Record) -> bool {
    writes(
        record,
        |call, a, b| pair(
            number_of(repair::rebuild(code_of(call), call.slot, a, b)),
            0,
        ),
    )
}

pub fn run_view(record: &Record) -> bool {
    reads(
        record,
        |call, a| packed(answer_of(view::view_first(code_of(call), call.slot, a))),
    )
}

pub fn run_pass(record: &Record) -> bool {
    let mut room_a = [0u8; ROOM];
    let mut room_b = [0u8; ROOM];
    let a = record.buffer(0).fill(&mut room_a[..]);
    let b = record.buffer(1).fill(&mut room_b[..]);
    let answer = packed(answer_of(pass::local_pass(code_of(record.call), a, b)));
    record.agrees(answer, &[a, b])
}

pub fn run_decode(record: &Record) -> bool {
    decodes(
        record,
        |call, a, b, c, d| pair(number_of(decode::decode(code_of(call), a, b, c, d)), 0),
    )
}

pub fn run_near(record: &Record) -> bool {
    decodes(
        record,
        |call, a, b, c, d| packed(answer_of(decode_near::decode_near(code_of(call), a, b, c, d))),
    )
}

pub fn run_grade(record: &Record) -> bool {
    writes(
        record,
        |call, a, b| packed(answer_of(grading::grade(code_of(call), a, b))),
    )
}

pub fn run_write(record: &Record) -> bool {
    let mut room_a = [0u8; ROOM];
    let mut room_b = [0u8; ROOM];
    let mut room_c = [0u8; ROOM];
    let a = record.buffer(0).fill(&mut room_a[..]);
    let b = record.buffer(1).fill(&mut room_b[..]);
    let c = record.buffer(2).fill(&mut room_c[..]);
    let refusal = number_of(sheet::write_sheet(code_of(record.call), a, b, c));
    record.agrees(pair(refusal, 0), &[a, b, c])
}

// The buffer behind the bytes has numbers.
pub fn run_sheet(record: &Record) -> bool {
    let mut room_a = [0u8; ROOM];
    let mut room_b = [0u8; ROOM];
    let mut room_c = [0u8; ROOM];
    let mut room_d = [0u32; 32];
    let a = record.buffer(0).fill(&mut room_a[..]);
    let b = record.buffer(1).fill(&mut room_b[..]);
    let c = record.buffer(2).fill(&mut room_c[..]);
    let d = record.buffer(3).fill(&mut room_d[..]);
    let refusal = number_of(sheet_binding::read_into(a, b, c, d));
    record.agrees(pair(refusal, 0), &[a, b, c]) && record.leaves(3, d)
}
