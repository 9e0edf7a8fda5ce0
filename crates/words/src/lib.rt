// The words of a stripe sheet, 32 bits each: one word read and written, and what the words of each kind say.
#![tactic(auto)]

ghost use Rattle.std.specs.Prelude.{◌≡◌, false, ◌+◌, ◌*◌, ◌≤◌, ◌<◌, length};
ghost use Rattle.code.specs.Decoding.{lost};
ghost use Rattle.words.specs.Word.{word_at, kind, code_word, end_word, slot_word, word_code, slot_fits, word_symbol, word_mark};
ghost use Rattle.words.specs.Step.{Narrow, put_word};
ghost use Rattle.words.specs.Kind.{number, NumberSays, KindSays};

use code::Code;

// The kinds of words, by the number in a word's top four bits.
#[derive(Clone, Copy, PartialEq, Eq)]
pub enum Kind {
    Code = 1,
    Kept = 2,
    Lost = 3,
    End = 4,
}

// A number that names no kind.
#[derive(Clone, Copy, PartialEq, Eq)]
pub struct NoKind;

impl TryFrom<u32> for Kind {
    type Error = NoKind;

    ghost try_from_gives = { NumberSays };

    fn try_from(number: u32) -> Result<Self, NoKind> {
        match number {
            1 => Ok(Kind::Code),
            2 => Ok(Kind::Kept),
            3 => Ok(Kind::Lost),
            4 => Ok(Kind::End),
            _ => Err(NoKind),
        }
    }
}

// Word i of a sheet, its high byte first.
pub fn word_at(sheet: &[u8], i: usize) -> u32
    requires { 4 * i + 4 ≤ length sheet.now }
    ensures { result ≡ word_at sheet.now i }
{
    let at = 4 * i;
    u32::from_be_bytes([sheet[at], sheet[at + 1], sheet[at + 2], sheet[at + 3]])
}

// Writes a word's four bytes, the high byte first.
pub fn put_word(sheet: &mut [u8], i: usize, w: u32)
    requires { 4 * i + 4 ≤ length sheet.old }
    ensures { sheet.new ≡ put_word sheet.old i w }
{
    let at = 4 * i;
    sheet[at..at + 4].copy_from_slice(&w.to_be_bytes());
}

// The number of a word's kind: its top four bits.
pub fn kind_of(w: u32) -> u32
    ensures { result ≡ kind w }
{
    w / 0x1000_0000
}

// The kind of a word, where its number names one.
pub fn named_kind(w: u32) -> Option<Kind>
    ensures { KindSays (kind w) result }
{
    Kind::try_from(kind_of(w)).ok()
}

// A word of a kind with all its other bits 0.
fn word_start(kind: Kind) -> u32
    ensures { result ≡ 0x10000000 * number kind }
{
    0x1000_0000 * kind as u32
}

// The word of a code.
pub fn code_word(code: Code) -> u32
    requires { Narrow code }
    ensures { result ≡ code_word code }
{
    let wired = word_start(Kind::Code) + code.wiring * 0x800_0000;
    wired + code.field * 0x100_0000 + code.r * 0x1_0000 + code.n * 256 + code.k
}

// The word that ends a sheet.
pub fn end_word(number: u32) -> u32
    requires { number < 0x10000 }
    ensures { result ≡ end_word number }
{
    word_start(Kind::End) + number
}

// The word of slot p: a lost one without its symbol. Only a kept slot need be in the word, so the mark is tested first.
pub fn slot_word(p: u32, word: &[u8], marks: &[u8]) -> u32
    requires { (p < 256) × (p < length marks.now) × (lost marks.now p ≡ false → p < length word.now) }
    ensures { result ≡ slot_word word.now marks.now p }
{
    let slot = p as usize;
    let mark = marks[slot];
    match mark {
        1 => word_start(Kind::Lost) + p * 256,
        _ => word_start(Kind::Kept) + p * 256 + word[slot] as u32,
    }
}

// The code of a code word.
pub fn word_code(w: u32) -> Code
    ensures { result ≡ word_code w }
{
    Code {
        field: w / 0x100_0000 % 8,
        r: w / 0x1_0000 % 256,
        n: w / 256 % 256,
        k: w % 256,
        wiring: w / 0x800_0000 % 2,
    }
}

// Is w the word of slot p, kept or lost?
pub fn slot_fits(p: u32, w: u32) -> bool
    requires { p < 256 }
    ensures { result ≡ slot_fits p w }
{
    let Some(kind) = named_kind(w) else {
        return false;
    };
    match kind {
        Kind::Kept => w % 0x1000_0000 / 256 == p,
        Kind::Lost => w % 0x1000_0000 == p * 256,
        Kind::Code | Kind::End => false,
    }
}

// The symbol of a slot's word, 0 where it is lost.
pub fn word_symbol(w: u32) -> u8
    ensures { result ≡ word_symbol w }
{
    if named_kind(w) == Some(Kind::Lost) {
        0
    } else {
        (w % 256) as u8
    }
}

// The mark of a slot's word.
pub fn word_mark(w: u32) -> u8
    ensures { result ≡ word_mark w }
{
    u8::from(named_kind(w) == Some(Kind::Lost))
}
