// The lines of a preview: for each kept slot what would follow its loss, and the slots whose loss leaves the message decided.
#![tactic(auto)]

ghost use Rattle.std.specs.Prelude.{cond, [], ◌+◌, ◌≤◌, ◌<◌, eqb, length};
ghost use Rattle.grading.specs.Step.{Marked};
ghost use Rattle.text.specs.Text.{spaced};
ghost use Rattle.text.specs.Page.{Wrote};
ghost use Rattle.preview_lines.specs.Lines.{slot_line, preview_lines};
ghost use Rattle.preview_lines.specs.Step.{SlotsPut};

use code::Shape;
use text::Page;

// Puts the line of a slot.
fn put_slot(page: &mut Page<'_>, slot: u32, grade: u32, first: u32)
    requires { (page.old.end + 29 ≤ length page.old.text.now) × (slot < 1000) × (grade < 1000) × (first < 1000) }
    ensures { Wrote (slot_line slot grade first) page.old page.new × (page.new.end ≤ page.old.end + 29) }
{
    page.put_named(b"slot", slot);
    page.put_grade(grade, first);
}

// Puts a slot whose loss is followed by this grade, where that is not 4.
fn put_safe(page: &mut Page<'_>, slot: u32, grade: u32)
    requires { (page.old.end + 4 ≤ length page.old.text.now) × (slot < 1000) }
    ensures { Wrote (cond (eqb grade 4) [] (spaced slot)) page.old page.new × (page.new.end ≤ page.old.end + 4) }
{
    let undecided = grade == 4;
    if undecided {
        return;
    }
    page.put_spaced(slot);
}

// Puts the lines of the kept slots to one page, and those that are safe to another.
fn put_slots(
    shape: Shape,
    marks: &mut [u8],
    work: &mut [u8],
    page: &mut Page<'_>,
    safe: &mut Page<'_>,
)
    requires { Marked shape marks.old (length work.old) × (page.old.end + 7395 ≤ length page.old.text.now) × (safe.old.end + 1020 ≤ length safe.old.text.now) }
    ensures { SlotsPut shape marks.old page.old page.new safe.old safe.new }
{
    for slot in 0..shape.n {
        let kept = marks[slot as usize] != 1;
        if kept {
            let seen = previewing::preview_in(shape, slot, marks, work);
            put_slot(page, slot, seen.grade, seen.first);
            put_safe(safe, slot, seen.grade);
        }
    }
}

// Puts the preview of a stripe by its marks.
pub fn put_stripe(shape: Shape, marks: &mut [u8], work: &mut [u8], page: &mut Page<'_>)
    requires { Marked shape marks.old (length work.old) × (page.old.end + 8420 ≤ length page.old.text.now) }
    ensures { Wrote (preview_lines shape marks.old) page.old page.new × (page.new.end ≤ page.old.end + 8420) }
{
    let mut slots = [0u8; 1020];
    let mut safe = Page::new(&mut slots);
    put_slots(shape, marks, work, page, &mut safe);
    page.put(b"safe");
    page.put(safe.written());
    page.put(b"\n");
}
