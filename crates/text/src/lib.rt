// The report's text, written into a lent buffer piece by piece.
#![tactic(auto)]

ghost use Rattle.std.specs.Prelude.{[], ◌∷◌, ◌≡◌, ◌++◌, ◌+◌, ◌*◌, ◌≤◌, ◌<◌, length, take};
ghost use Rattle.text.specs.Text.{numeral, spaced, all_spaced, refused_line, wiring_mark, code_line, grade_end, losses_line, message_line, stripe_lines, Small};
ghost use Rattle.text.specs.Page.{Wrote};

use code::Code;

// A lent text that is written from its front on: `end` is the place behind what was put.
#[derive(Drop)]
pub struct Page<'a> {
    pub text: &'a mut [u8],
    pub end: usize,
}

impl<'a> Page<'a> {
    // A page with nothing put yet.
    pub fn new(text: &'a mut [u8]) -> Page<'a>
        ensures same_text { result.text.ghost_name ≡ text.entry.ghost_name }
        ensures empty { (result.text.now ≡ text.old) × (result.end ≡ 0) }
    {
        Page { text, end: 0 }
    }

    // What was put.
    pub fn written(&self) -> &[u8]
        requires { self.now.end ≤ length self.now.text.now }
        ensures { result.now ≡ take self.now.end self.now.text.now }
    {
        &self.text[..self.end]
    }

    // Puts bytes.
    pub fn put(&mut self, bytes: &[u8])
        requires { self.old.end + length bytes.now ≤ length self.old.text.now }
        ensures { Wrote bytes.now self.old self.new }
    {
        let end = self.end + bytes.len();
        self.text[self.end..end].copy_from_slice(bytes);
        self.end = end;
    }

    // Puts one digit.
    pub fn put_digit(&mut self, d: u32)
        requires { (self.old.end < length self.old.text.now) × (d < 10) }
        ensures { Wrote ((48 + d) ∷ []) self.old self.new }
    {
        self.put(&[(48 + d) as u8]);
    }

    // Puts a numeral of at most three digits.
    pub fn put_number(&mut self, n: u32)
        requires { (self.old.end + 3 ≤ length self.old.text.now) × (n < 1000) }
        ensures { Wrote (numeral n) self.old self.new × (self.new.end ≤ self.old.end + 3) }
    {
        if n < 10 {
            self.put_digit(n);
        } else if n < 100 {
            self.put_digit(n / 10);
            self.put_digit(n % 10);
        } else {
            self.put_digit(n / 100);
            self.put_digit(n / 10 % 10);
            self.put_digit(n % 10);
        }
    }

    // Puts a space and a numeral.
    pub fn put_spaced(&mut self, n: u32)
        requires { (self.old.end + 4 ≤ length self.old.text.now) × (n < 1000) }
        ensures { Wrote (spaced n) self.old self.new × (self.new.end ≤ self.old.end + 4) }
    {
        self.put(b" ");
        self.put_number(n);
    }

    // Puts a word, a space and a numeral.
    pub fn put_named(&mut self, name: &[u8], n: u32)
        requires { (self.old.end + length name.now + 4 ≤ length self.old.text.now) × (n < 1000) }
        ensures { Wrote (name.now ++ spaced n) self.old self.new × (self.new.end ≤ self.old.end + length name.now + 4) }
    {
        self.put(name);
        self.put_spaced(n);
    }

    // Puts the line of a refusal.
    pub fn put_refused(&mut self, refusal: u32)
        requires { (self.old.end + 12 ≤ length self.old.text.now) × (refusal < 1000) }
        ensures { Wrote (refused_line refusal) self.old self.new × (self.new.end ≤ self.old.end + 12) }
    {
        self.put_named(b"refused", refusal);
        self.put(b"\n");
    }

    // Puts the wiring, under wiring 1 alone.
    fn put_wiring(&mut self, wiring: u32)
        requires { self.old.end + 4 ≤ length self.old.text.now }
        ensures { Wrote (wiring_mark wiring) self.old self.new × (self.new.end ≤ self.old.end + 4) }
    {
        let unwired = wiring != 1;
        if unwired {
            return;
        }
        self.put_spaced(wiring);
    }

    // Puts the line of a code.
    pub fn put_code(&mut self, code: Code)
        requires { (self.old.end + 25 ≤ length self.old.text.now) × (code.field < 1000) × (code.r < 1000) × (code.n < 1000) × (code.k < 1000) }
        ensures { Wrote (code_line code) self.old self.new × (self.new.end ≤ self.old.end + 25) }
    {
        self.put_named(b"code", code.field);
        self.put_spaced(code.r);
        self.put_spaced(code.n);
        self.put_spaced(code.k);
        self.put_wiring(code.wiring);
        self.put(b"\n");
    }

    // Puts the end of a line: the grade and the first broken group.
    pub fn put_grade(&mut self, grade: u32, first: u32)
        requires { (self.old.end + 21 ≤ length self.old.text.now) × (grade < 1000) × (first < 1000) }
        ensures { Wrote (grade_end grade first) self.old self.new × (self.new.end ≤ self.old.end + 21) }
    {
        self.put_named(b" grade", grade);
        self.put_named(b" first", first);
        self.put(b"\n");
    }

    // Puts the line of the losses.
    pub fn put_losses(&mut self, lost: u32, sure: u32, grade: u32, first: u32)
        requires { (self.old.end + 38 ≤ length self.old.text.now) × (lost < 1000) × (sure < 1000) × (grade < 1000) × (first < 1000) }
        ensures { Wrote (losses_line lost sure grade first) self.old self.new × (self.new.end ≤ self.old.end + 38) }
    {
        self.put_named(b"lost", lost);
        self.put_named(b" sure", sure);
        self.put_grade(grade, first);
    }

    // Puts the symbols of a message, a space before each.
    pub fn put_symbols(&mut self, symbols: &[u8])
        requires { self.old.end + 4 * length symbols.now ≤ length self.old.text.now }
        ensures { Wrote (all_spaced symbols.now) self.old self.new × (self.new.end ≤ self.old.end + 4 * length symbols.now) }
    {
        for symbol in symbols {
            self.put_spaced(u32::from(*symbol));
        }
    }

    // Puts the line of a message.
    pub fn put_message(&mut self, message: &[u8])
        requires { self.old.end + 8 + 4 * length message.now ≤ length self.old.text.now }
        ensures { Wrote (message_line message.now) self.old self.new × (self.new.end ≤ self.old.end + 8 + 4 * length message.now) }
    {
        self.put(b"message");
        self.put_symbols(message);
        self.put(b"\n");
    }

    // Puts the lines of a stripe: its code, its losses, and its message or the outcome's number.
    pub fn put_lines(
        &mut self,
        code: Code,
        lost: u32,
        sure: u32,
        grade: u32,
        first: u32,
        outcome: u32,
        message: &[u8],
    )
        requires { (self.old.end + 1032 ≤ length self.old.text.now) × (length message.now ≤ 240) × Small code lost sure grade first outcome }
        ensures { Wrote (stripe_lines code lost sure grade first outcome message.now) self.old self.new × (self.new.end ≤ self.old.end + 1032) }
    {
        self.put_code(code);
        self.put_losses(lost, sure, grade, first);
        match outcome {
            0 => self.put_message(message),
            _ => self.put_refused(outcome),
        }
    }
}
