// The C library: each call under its C name, with the code as five numbers.
#![tactic(auto)]

ghost use Rattle.std.specs.Prelude.{take};
ghost use Rattle.code.specs.Answer.{Answers};
ghost use Rattle.code.specs.Family.{code_of, single, code_refusal};
ghost use Rattle.encode.specs.Encode.{EncodeSays};
ghost use Rattle.encode_strips.specs.Strips.{EncodeStripsSays};
ghost use Rattle.repair.specs.Mates.{RepairSays, RebuildSays};
ghost use Rattle.view.specs.View.{view_refusal, first_slot};
ghost use Rattle.pass.specs.Pass.{PassSays};
ghost use Rattle.grading.specs.Grade.{GradeSays};
ghost use Rattle.decode.specs.Decode.{DecodeSays};
ghost use Rattle.decode_near.specs.Near.{NearSays};
ghost use Rattle.sheet.specs.Calls.{WriteSays};
ghost use Rattle.reporting.specs.Report.{ReportSays};
ghost use Rattle.preview_sheet.specs.Text.{SheetPreviewSays};
ghost use Rattle.binding.specs.Pack.{unpacked};
ghost use Rattle.binding.specs.Fill.{WeightsFill};
ghost use Rattle.record_binding.specs.Record.{RecordFills};
ghost use Rattle.preview_binding.specs.Preview.{PreviewFills};
ghost use Rattle.sheet_binding.specs.Sheet.{ReadFills};

use binding::packed;
use code::Code;
use refusal::{answer_of, number_of};

// Encodes a message.
#[unsafe(no_mangle)]
pub extern "C" fn latsefidy_encode(
    field: u32,
    r: u32,
    n: u32,
    k: u32,
    wiring: u32,
    message: &[u8],
    codeword: &mut [u8],
) -> u32
    ensures { EncodeSays (code_refusal (code_of field r n k wiring)) (single (code_of field r n k wiring)) message.now result codeword.old codeword.new }
{
    number_of(encode::encode(
        Code {
            field,
            r,
            n,
            k,
            wiring,
        },
        message,
        codeword,
    ))
}

// Encodes strips: column c of the codewords is encode of column c of the messages.
#[unsafe(no_mangle)]
pub extern "C" fn latsefidy_encode_strips(
    field: u32,
    r: u32,
    n: u32,
    k: u32,
    wiring: u32,
    messages: &[u8],
    codewords: &mut [u8],
) -> u32
    ensures { EncodeStripsSays (code_refusal (code_of field r n k wiring)) (single (code_of field r n k wiring)) messages.now result codewords.old codewords.new }
{
    number_of(encode_strips::encode_strips(
        Code {
            field,
            r,
            n,
            k,
            wiring,
        },
        messages,
        codewords,
    ))
}

// Writes the sixteen repair weights of a slot.
#[unsafe(no_mangle)]
pub extern "C" fn latsefidy_weights(
    field: u32,
    r: u32,
    n: u32,
    k: u32,
    wiring: u32,
    slot: u32,
    weights: &mut [u8],
) -> u32
    ensures { WeightsFill (code_of field r n k wiring) slot result weights.old weights.new }
{
    number_of(binding::weights_into(
        Code {
            field,
            r,
            n,
            k,
            wiring,
        },
        slot,
        weights,
    ))
}

// The symbol of a slot from its mates' symbols.
#[unsafe(no_mangle)]
pub extern "C" fn latsefidy_repair(
    field: u32,
    r: u32,
    n: u32,
    k: u32,
    wiring: u32,
    slot: u32,
    mates: &[u8],
) -> u64
    ensures { RepairSays (code_refusal (code_of field r n k wiring)) (single (code_of field r n k wiring)) slot mates.now (unpacked result) }
{
    packed(answer_of(repair::repair(
        Code {
            field,
            r,
            n,
            k,
            wiring,
        },
        slot,
        mates,
    )))
}

// Rebuilds a strip from its mates' strips.
#[unsafe(no_mangle)]
pub extern "C" fn latsefidy_rebuild(
    field: u32,
    r: u32,
    n: u32,
    k: u32,
    wiring: u32,
    slot: u32,
    strips: &[u8],
    out: &mut [u8],
) -> u32
    ensures { RebuildSays (code_refusal (code_of field r n k wiring)) (single (code_of field r n k wiring)) slot strips.now result out.old out.new }
{
    number_of(repair::rebuild(
        Code {
            field,
            r,
            n,
            k,
            wiring,
        },
        slot,
        strips,
        out,
    ))
}

// The first slot of a slot's group in a word.
#[unsafe(no_mangle)]
pub extern "C" fn latsefidy_view(
    field: u32,
    r: u32,
    n: u32,
    k: u32,
    wiring: u32,
    slot: u32,
    word: &[u8],
) -> u64
    ensures { Answers (view_refusal (code_refusal (code_of field r n k wiring)) (single (code_of field r n k wiring)) slot word.now) (first_slot (code_of field r n k wiring) slot) (unpacked result) }
{
    packed(answer_of(view::view_first(
        Code {
            field,
            r,
            n,
            k,
            wiring,
        },
        slot,
        word,
    )))
}

// Repairs each group with exactly one loss, and answers how many.
#[unsafe(no_mangle)]
pub extern "C" fn latsefidy_local_pass(
    field: u32,
    r: u32,
    n: u32,
    k: u32,
    wiring: u32,
    word: &mut [u8],
    marks: &mut [u8],
) -> u64
    ensures { PassSays (code_refusal (code_of field r n k wiring)) (single (code_of field r n k wiring)) word.old marks.old (unpacked result) word.new marks.new }
{
    packed(answer_of(pass::local_pass(
        Code {
            field,
            r,
            n,
            k,
            wiring,
        },
        word,
        marks,
    )))
}

// Decodes the kept symbols of a word.
#[unsafe(no_mangle)]
pub extern "C" fn latsefidy_decode(
    field: u32,
    r: u32,
    n: u32,
    k: u32,
    wiring: u32,
    word: &[u8],
    marks: &[u8],
    message: &mut [u8],
    work: &mut [u8],
) -> u32
    ensures { DecodeSays (code_refusal (code_of field r n k wiring)) (single (code_of field r n k wiring)) word.now marks.now result message.old message.new work.old work.new }
{
    number_of(decode::decode(
        Code {
            field,
            r,
            n,
            k,
            wiring,
        },
        word,
        marks,
        message,
        work,
    ))
}

// Decodes after the local pass on a copy, and counts the groups that it mended.
#[unsafe(no_mangle)]
pub extern "C" fn latsefidy_decode_near(
    field: u32,
    r: u32,
    n: u32,
    k: u32,
    wiring: u32,
    word: &[u8],
    marks: &[u8],
    message: &mut [u8],
    work: &mut [u8],
) -> u64
    ensures { NearSays (code_refusal (code_of field r n k wiring)) (single (code_of field r n k wiring)) word.now marks.now (unpacked result) message.old message.new work.old work.new }
{
    packed(answer_of(decode_near::decode_near(
        Code {
            field,
            r,
            n,
            k,
            wiring,
        },
        word,
        marks,
        message,
        work,
    )))
}

// Grades a stripe by its marks.
#[unsafe(no_mangle)]
pub extern "C" fn latsefidy_grade(
    field: u32,
    r: u32,
    n: u32,
    k: u32,
    wiring: u32,
    marks: &[u8],
    work: &mut [u8],
) -> u64
    ensures { GradeSays (code_refusal (code_of field r n k wiring)) (single (code_of field r n k wiring)) marks.now (unpacked result) work.old work.new }
{
    packed(answer_of(grading::grade(
        Code {
            field,
            r,
            n,
            k,
            wiring,
        },
        marks,
        work,
    )))
}

// Writes what would follow the loss of a slot.
#[unsafe(no_mangle)]
pub extern "C" fn latsefidy_preview(
    field: u32,
    r: u32,
    n: u32,
    k: u32,
    wiring: u32,
    slot: u32,
    marks: &[u8],
    work: &mut [u8],
    preview: &mut [u32],
) -> u32
    ensures { PreviewFills (code_of field r n k wiring) slot marks.now result work.old work.new preview.old preview.new }
{
    number_of(preview_binding::preview_into(
        Code {
            field,
            r,
            n,
            k,
            wiring,
        },
        slot,
        marks,
        work,
        preview,
    ))
}

// Decodes a stripe and writes its record.
#[unsafe(no_mangle)]
pub extern "C" fn latsefidy_record(
    field: u32,
    r: u32,
    n: u32,
    k: u32,
    wiring: u32,
    word: &[u8],
    marks: &[u8],
    message: &mut [u8],
    work: &mut [u8],
    numbers: &mut [u32],
) -> u32
    ensures { RecordFills (code_of field r n k wiring) word.now marks.now result message.old message.new work.old work.new numbers.old numbers.new }
{
    number_of(record_binding::record_into(
        Code {
            field,
            r,
            n,
            k,
            wiring,
        },
        word,
        marks,
        message,
        work,
        numbers,
    ))
}

// Reads a stripe sheet.
#[unsafe(no_mangle)]
pub extern "C" fn latsefidy_read_sheet(
    sheet: &[u8],
    word: &mut [u8],
    marks: &mut [u8],
    code: &mut [u32],
) -> u32
    ensures { ReadFills sheet.now result word.old word.new marks.old marks.new code.old code.new }
{
    number_of(sheet_binding::read_into(sheet, word, marks, code))
}

// Writes a stripe sheet.
#[unsafe(no_mangle)]
pub extern "C" fn latsefidy_write_sheet(
    field: u32,
    r: u32,
    n: u32,
    k: u32,
    wiring: u32,
    word: &[u8],
    marks: &[u8],
    sheet: &mut [u8],
) -> u32
    ensures { WriteSays (code_of field r n k wiring) word.now marks.now result sheet.old sheet.new }
{
    number_of(sheet::write_sheet(
        Code {
            field,
            r,
            n,
            k,
            wiring,
        },
        word,
        marks,
        sheet,
    ))
}

// Writes the report of a sheet, of which at most the first 1,032 bytes are judged.
#[unsafe(no_mangle)]
pub extern "C" fn latsefidy_report(input: &[u8], text: &mut [u8]) -> u64
    ensures { ReportSays (take 1032 input.now) text.old text.new (unpacked result) }
{
    packed(answer_of(reporting::report_front(input, text)))
}

// Writes the preview of a sheet, of which at most the first 1,032 bytes are judged.
#[unsafe(no_mangle)]
pub extern "C" fn latsefidy_preview_sheet(input: &[u8], text: &mut [u8]) -> u64
    ensures { SheetPreviewSays (take 1032 input.now) text.old text.new (unpacked result) }
{
    packed(answer_of(preview_sheet::preview_front(input, text)))
}
