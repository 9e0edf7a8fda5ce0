// The stripe sheet: its reader and its writer.
#![tactic(auto)]

ghost use Rattle.std.specs.Prelude.{◌≡◌, ◌++◌, ◌+◌, ◌*◌, ◌≤◌, ◌<◌, ltb, length, drop};
ghost use Rattle.algebra.specs.Sequence.{every, tabulate};
ghost use Rattle.code.specs.Family.{code_refusal};
ghost use Rattle.refusal.specs.Refusal.{number_of};
ghost use Rattle.words.specs.Word.{slot_fits, word_symbol, word_mark};
ghost use Rattle.sheet.specs.Sheet.{middle_word, code_in, sheet_of};
ghost use Rattle.sheet.specs.Calls.{body_refusal, sheet_refusal, read_refusal, write_refusal, sheet_answer, ReadSays, WriteSays};
ghost use Rattle.sheet.specs.Step.{put_slots};

use code::Code;
use refusal::{Refusal, require};
use words::Kind;

// Does each of the n middle words stand for its slot?
fn slots_fit(sheet: &[u8], n: u32) -> bool
    requires { (n < 256) × (4 * (n + 2) ≤ length sheet.now) }
    ensures { result ≡ every (λ p. slot_fits p (middle_word sheet.now p)) n }
{
    for p in 0..n {
        let w = words::word_at(sheet, p as usize + 1);
        if !words::slot_fits(p, w) {
            return false;
        }
    }
    true
}

// Is the symbol of each of the n middle words below q?
fn symbols_fit(sheet: &[u8], n: u32, q: u32) -> bool
    requires { (n < 256) × (4 * (n + 2) ≤ length sheet.now) }
    ensures { result ≡ every (λ p. ltb (word_symbol (middle_word sheet.now p)) q) n }
{
    for p in 0..n {
        let s = words::word_symbol(words::word_at(sheet, p as usize + 1));
        if u32::from(s) >= q {
            return false;
        }
    }
    true
}

// Writes the symbols and the marks of the n middle words.
fn fill(sheet: &[u8], n: usize, word: &mut [u8], marks: &mut [u8])
    requires { (4 * (n + 2) ≤ length sheet.now) × (n ≤ length word.old) × (n ≤ length marks.old) }
    ensures word_after { word.new ≡ tabulate (λ p. word_symbol (middle_word sheet.now p)) n ++ drop n word.old }
    ensures marks_after { marks.new ≡ tabulate (λ p. word_mark (middle_word sheet.now p)) n ++ drop n marks.old }
{
    for p in 0..n {
        let w = words::word_at(sheet, p + 1);
        word[p] = words::word_symbol(w);
        marks[p] = words::word_mark(w);
    }
}

// Questions 13, 14, 6 and 15 of a sheet with this code.
#[tactic(auto, using(refusal::proofs::Refusals::chain), unfolding(code::specs::Question::ask, code::specs::Question::or_ask, crate::specs::Calls::body_refusal))]
fn body_asked(code: Code, sheet: &[u8]) -> Result<(), Refusal>
    requires { (code ≡ code_in sheet.now) × (code.n < 256) }
    ensures { number_of result ≡ body_refusal code sheet.now }
{
    let n = code.n;
    require(sheet.len() / 4 == n as usize + 2, Refusal::WordCount)?;
    require(slots_fit(sheet, n), Refusal::MiddleWord)?;
    let kept = symbols_fit(sheet, n, tables::order(code.field));
    require(kept, Refusal::Symbol)?;
    let last = words::word_at(sheet, n as usize + 1);
    require(last == words::end_word(n), Refusal::LastWord)
}

// The questions on a sheet's bytes.
#[tactic(auto, using(refusal::proofs::Refusals::chain, words::proofs::Words::code_test), unfolding(code::specs::Question::ask, code::specs::Question::or_ask, crate::specs::Sheet::code_in, crate::specs::Calls::sheet_refusal))]
fn sheet_asked(sheet: &[u8]) -> Result<(), Refusal>
    ensures { number_of result ≡ sheet_refusal sheet.now }
{
    require(sheet.len() % 4 == 0, Refusal::SheetLength)?;
    require(sheet.len() / 4 >= 1, Refusal::FirstWord)?;
    let w = words::word_at(sheet, 0);
    require(words::named_kind(w) == Some(Kind::Code), Refusal::FirstWord)?;
    let code = words::word_code(w);
    acceptance::accepted(code)?;
    body_asked(code, sheet)
}

// The reader's questions, for buffers of so many bytes.
#[tactic(auto, using(refusal::proofs::Refusals::chain), unfolding(code::specs::Question::ask, code::specs::Question::or_ask, crate::specs::Calls::read_refusal))]
fn read_asked(sheet: &[u8], word: usize, marks: usize) -> Result<(), Refusal>
    ensures { number_of result ≡ read_refusal sheet.now word marks }
{
    require(word >= 255 && marks >= 255, Refusal::Buffers)?;
    sheet_asked(sheet)
}

// Reads a sheet: its code, the first n symbols of word, 0 where lost, and the first n marks.
#[tactic(auto, using(refusal::proofs::Refusals::chain))]
pub fn read_sheet(sheet: &[u8], word: &mut [u8], marks: &mut [u8]) -> Result<Code, Refusal>
    ensures { ReadSays sheet.now word.old word.new marks.old marks.new (sheet_answer result) }
{
    let asked = read_asked(sheet, word.len(), marks.len());
    asked?;
    let code = words::word_code(words::word_at(sheet, 0));
    let n = code.n as usize;
    fill(sheet, n, word, marks);
    Ok(code)
}

// The writer's questions, for a sheet of so many bytes.
#[tactic(auto, using(refusal::proofs::Refusals::chain), unfolding(code::specs::Question::ask, code::specs::Question::or_ask, crate::specs::Calls::write_refusal))]
fn write_asked(code: Code, word: &[u8], marks: &[u8], bytes: usize) -> Result<(), Refusal>
    ensures { number_of result ≡ write_refusal code word.now marks.now bytes }
{
    acceptance::accepted(code)?;
    let n = code.n as usize;
    let sizes = word.len() == n && marks.len() == n && bytes == 4 * (n + 2);
    require(sizes, Refusal::Buffers)?;
    require(questions::all_below(marks, 2), Refusal::Mark)?;
    require(
        questions::kept_below(acceptance::single(code), word, marks),
        Refusal::Symbol,
    )
}

// Writes the words of the slots after the code word.
fn write_slots(word: &[u8], marks: &[u8], sheet: &mut [u8])
    requires { (length word.now < 256) × (length marks.now ≡ length word.now) × (4 * (length word.now + 1) ≤ length sheet.old) }
    ensures { sheet.new ≡ put_slots sheet.old word.now marks.now (length word.now) }
{
    for p in 0..word.len() {
        let w = words::slot_word(p as u32, word, marks);
        words::put_word(sheet, p + 1, w);
    }
}

// Writes the words of a sheet.
fn write_words(code: Code, word: &[u8], marks: &[u8], sheet: &mut [u8])
    requires { (code_refusal code ≡ 0) × (length word.now ≡ code.n) × (length marks.now ≡ code.n) × (length sheet.old ≡ 4 * (code.n + 2)) }
    ensures { sheet.new ≡ sheet_of code word.now marks.now }
{
    let n = code.n;
    words::put_word(sheet, 0, words::code_word(code));
    write_slots(word, marks, sheet);
    words::put_word(sheet, n as usize + 1, words::end_word(n));
}

// Writes the sheet of a code, a word and its marks: lost slots without their symbols.
#[tactic(auto, using(refusal::proofs::Refusals::chain, crate::proofs::Accepted::good_stripe), unfolding(crate::specs::Calls::WriteSays))]
pub fn write_sheet(code: Code, word: &[u8], marks: &[u8], sheet: &mut [u8]) -> Result<(), Refusal>
    ensures { WriteSays code word.now marks.now (number_of result) sheet.old sheet.new }
{
    write_asked(code, word, marks, sheet.len())?;
    write_words(code, word, marks, sheet);
    Ok(())
}
