// The order of a field, and its tables: powers of 2 in both fields, logarithms over bytes.
#![tactic(auto)]

ghost use Rattle.std.specs.Prelude.{◌≡◌, ◌≢◌, ◌-◌, ◌≤◌, ◌<◌};
ghost use Rattle.field.specs.Field.{q, γ, power};
ghost use Rattle.field.specs.Table.{Powers, Logs};

mod logarithms;
mod powers;

use logarithms::LOGS_256;
use powers::POWERS_256;

// The twelve powers of 2 modulo 13.
const POWERS_13: [u8; 12] = [1, 2, 4, 8, 3, 6, 12, 11, 9, 5, 10, 7];

// q: how many elements the field has.
pub fn order(field: u32) -> u32
    ensures { (result ≡ q field) × (13 ≤ result) × (result ≤ 256) }
{
    if field == 0 { 13 } else { 256 }
}

// The table of powers modulo 13.
fn power_table_13() -> &'static [u8; 12]
    ensures { Powers 0 result.now }
{
    &POWERS_13
}

// The table of powers over bytes.
pub fn power_table() -> &'static [u8; 255]
    ensures { Powers 1 result.now }
{
    &POWERS_256
}

// The table of logarithms.
pub fn log_table() -> &'static [u8; 256]
    ensures { Logs result.now }
{
    &LOGS_256
}

// The power e of 2 over bytes.
pub fn byte_power(e: usize) -> u8
    requires { e < 255 }
    ensures { result ≡ power 1 γ e }
{
    power_table()[e]
}

// The logarithm of a byte: the power of 2 that it is, and 0 for the byte 0.
pub fn logarithm(a: u8) -> usize
    ensures below { result < 255 }
    ensures entry { a ≢ 0 → power 1 γ result ≡ a }
{
    log_table()[a as usize] as usize
}

// The power e of 2.
pub fn generator_power(field: u32, e: u32) -> u8
    requires { e < q field - 1 }
    ensures { result ≡ power field γ e }
{
    if field == 0 {
        return power_table_13()[e as usize];
    }
    byte_power(e as usize)
}
