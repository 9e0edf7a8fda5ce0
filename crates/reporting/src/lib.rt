// The report of a sheet: its stripe's code, its losses, and its message, or the refusal.
#![tactic(auto)]

ghost use Rattle.std.specs.Prelude.{◌≡◌, ◌≤◌, length, take};
ghost use Rattle.refusal.specs.Refusal.{answer_of};
ghost use Rattle.reporting.specs.Report.{ReportSays};
ghost use Rattle.reporting.specs.Step.{DrawSays, TextSays};

use recording::StripeRecord;
use refusal::{Refusal, require};
use text::Page;

// Reads a sheet and draws up its stripe's record; the message is the first k bytes of its buffer.
fn draw(
    input: &[u8],
    word: &mut [u8],
    marks: &mut [u8],
    message: &mut [u8],
    work: &mut [u8],
) -> Result<StripeRecord, Refusal>
    requires { (255 ≤ length word.old) × (255 ≤ length marks.old) × (240 ≤ length message.old) × (61455 ≤ length work.old) }
    ensures { DrawSays input.now message.new result }
{
    let code = sheet::read_sheet(input, word, marks)?;
    let n = code.n as usize;
    let k = code.k as usize;
    recording::record(code, &word[..n], &marks[..n], &mut message[..k], work)
}

// Puts the report of a sheet on an empty page.
// One function for this and the preview's would take the stripe's step as a closure over its buffers, which is no plainer.
fn put_report(
    input: &[u8],
    word: &mut [u8],
    marks: &mut [u8],
    message: &mut [u8],
    work: &mut [u8],
    page: &mut Page<'_>,
)
    requires { (255 ≤ length word.old) × (255 ≤ length marks.old) × (240 ≤ length message.old) × (61455 ≤ length work.old) × (page.old.end ≡ 0) × (1032 ≤ length page.old.text.now) }
    ensures same_text { page.new.text.ghost_name ≡ page.old.text.ghost_name }
    ensures says { TextSays input.now page.old.text.now page.new.text.now page.new.end }
{
    match draw(input, word, marks, message, work) {
        Ok(stripe) => {
            let code = stripe.code;
            let k = code.k as usize;
            page.put_lines(
                code,
                stripe.lost,
                stripe.guarantee,
                stripe.grade,
                stripe.first,
                recording::outcome_number(stripe.outcome),
                &message[..k],
            );
        }
        Err(refusal) => page.put_refused(refusal.number()),
    }
}

// Writes the report of a sheet in front of the text and answers its length; refuses a text of fewer than 1,032 bytes.
pub fn report(input: &[u8], text: &mut [u8]) -> Result<u32, Refusal>
    ensures { ReportSays input.now text.old text.new (answer_of result) }
{
    require(text.len() >= 1032, Refusal::Buffers)?;
    let mut word = [0u8; 255];
    let mut marks = [0u8; 255];
    let mut message = [0u8; 240];
    let mut work = [0u8; 61455];
    let mut page = Page::new(text);
    put_report(
        input,
        &mut word,
        &mut marks,
        &mut message,
        &mut work,
        &mut page,
    );
    Ok(page.end as u32)
}

// Writes the report of a sheet, of which at most the first 1,032 bytes are judged.
pub fn report_front(input: &[u8], text: &mut [u8]) -> Result<u32, Refusal>
    ensures { ReportSays (take 1032 input.now) text.old text.new (answer_of result) }
{
    report(&input[..input.len().min(1032)], text)
}
