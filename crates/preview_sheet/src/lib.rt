// The preview of a sheet: the lines of its stripe, or the refusal.
#![tactic(auto)]

ghost use Rattle.std.specs.Prelude.{◌≡◌, ◌≤◌, length, take};
ghost use Rattle.refusal.specs.Refusal.{answer_of};
ghost use Rattle.text.specs.Page.{Wrote};
ghost use Rattle.preview_sheet.specs.Text.{preview_text, SheetPreviewSays};

use refusal::{Refusal, require};
use text::Page;

// Puts the preview of a sheet on an empty page.
// One function for this and the report's would take the stripe's step as a closure over its buffers, which is no plainer.
fn put_preview(
    input: &[u8],
    word: &mut [u8],
    marks: &mut [u8],
    work: &mut [u8],
    page: &mut Page<'_>,
)
    requires { (255 ≤ length word.old) × (255 ≤ length marks.old) × (61455 ≤ length work.old) × (page.old.end ≡ 0) × (8420 ≤ length page.old.text.now) }
    ensures { Wrote (preview_text input.now) page.old page.new × (page.new.end ≤ 8420) }
{
    match sheet::read_sheet(input, word, marks) {
        Ok(code) => {
            let n = code.n as usize;
            preview_lines::put_stripe(acceptance::single(code), &mut marks[..n], work, page);
        }
        Err(refusal) => page.put_refused(refusal.number()),
    }
}

// Writes the preview of a sheet in front of the text and answers its length; refuses a text of fewer than 8,420 bytes.
pub fn preview_sheet(input: &[u8], text: &mut [u8]) -> Result<u32, Refusal>
    ensures { SheetPreviewSays input.now text.old text.new (answer_of result) }
{
    require(text.len() >= 8420, Refusal::Buffers)?;
    let mut word = [0u8; 255];
    let mut marks = [0u8; 255];
    let mut work = [0u8; 61455];
    let mut page = Page::new(text);
    put_preview(input, &mut word, &mut marks, &mut work, &mut page);
    Ok(page.end as u32)
}

// Writes the preview of a sheet, of which at most the first 1,032 bytes are judged.
pub fn preview_front(input: &[u8], text: &mut [u8]) -> Result<u32, Refusal>
    ensures { SheetPreviewSays (take 1032 input.now) text.old text.new (answer_of result) }
{
    preview_sheet(&input[..input.len().min(1032)], text)
}
