// Reports on a row of sheets, and previews them: each is its length in two bytes, the high byte first, and its bytes.
#![tactic(auto)]

ghost use Rattle.std.specs.Prelude.{length};
ghost use Rattle.std.specs.Iterator.{at_most};

use std::io::{Result, Write};

// The sheets of an input. They end where one is cut short.
#[derive(Clone, Copy)]
struct Sheets<'a>(&'a [u8]);

impl<'a> Iterator for Sheets<'a> {
    type Item = &'a [u8];

    ghost remaining = { λ s. at_most (length s.0.now) };

    fn next(&mut self) -> Option<&'a [u8]> {
        let (length, rest) = self.0.split_first_chunk::<2>()?;
        let (sheet, rest) = rest.split_at_checked(u16::from_be_bytes(*length) as usize)?;
        self.0 = rest;
        Some(sheet)
    }
}

// The report of one sheet.
fn put_report<W: Write>(output: &mut W, sheet: &[u8]) -> Result<()> {
    let mut text = [0u8; 1032];
    let length = reporting::report(sheet, &mut text).unwrap_or(0);
    show::put_front(output, &text, length as usize)
}

// The preview of one sheet.
fn put_preview<W: Write>(output: &mut W, sheet: &[u8]) -> Result<()> {
    let mut text = [0u8; 8420];
    let length = preview_sheet::preview_sheet(sheet, &mut text).unwrap_or(0);
    show::put_front(output, &text, length as usize)
}

// The reports and previews of the first 64 sheets.
fn put_sheets<W: Write>(output: &mut W, input: &[u8]) -> Result<()> {
    for sheet in Sheets(input).take(64) {
        put_report(output, sheet)?;
        put_preview(output, sheet)?;
    }
    Ok(())
}

fn main(rt: HostRuntime) -> Result<()> {
    let mut buffer = [0u8; 65536];
    let n = match console::read_input(&mut rt.stdin(), &mut buffer) {
        Ok(n) => n,
        Err(failed) => failed.len,
    };
    put_sheets(&mut rt.stdout(), &buffer[..n])
}
