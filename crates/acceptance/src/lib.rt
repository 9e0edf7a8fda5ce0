// Which codes are accepted: questions 1 to 4 and 17 on the numbers of a code, and the shape that they mean.
#![tactic(auto)]

ghost use Rattle.std.specs.Prelude.{◌≡◌, ◌≢◌, ◌+◌, ◌-◌, ◌%◌, ◌≤◌, eqb};
ghost use Rattle.field.specs.Field.{q};
ghost use Rattle.code.specs.Family.{single, r_fits, n_fits, k_fits, wiring_fits, code_refusal};
ghost use Rattle.refusal.specs.Refusal.{number_of};

use code::{Code, Shape};
use refusal::{Refusal, require};

// The shape of a code of the paper: groups of r + 1 that stand one loss.
pub fn single(code: Code) -> Shape
    ensures { result ≡ single code }
{
    Shape {
        field: code.field,
        r: code.r,
        n: code.n,
        k: code.k,
        wiring: code.wiring,
        tolerance: 1,
        second: 0,
    }
}

// Whether all groups are whole, of any code, refused or not.
pub fn is_whole(code: Code) -> bool
    ensures { result ≡ eqb (code.n % (code.r + 1)) 0 }
{
    let size = code.r as u64 + 1;
    code.n as u64 % size == 0
}

// Questions 1 to 4 and 17, in order.
#[tactic(auto, using(refusal::proofs::Refusals::chain), unfolding(code::specs::Question::ask, code::specs::Family::field_known, code::specs::Family::code_refusal))]
pub fn accepted(code: Code) -> Result<(), Refusal>
    ensures { number_of result ≡ code_refusal code }
{
    require(code.field <= 1, Refusal::Field)?;
    let most = tables::order(code.field) - 1;
    require(locality_fits(code, most), Refusal::Locality)?;
    require(length_fits(code, most), Refusal::Length)?;
    require(dimension_fits(code), Refusal::Dimension)?;
    require(wiring_fits(code), Refusal::Wiring)
}

// Question 2; most is q - 1.
#[tactic(auto, unfolding(code::specs::Family::r_fits, code::specs::Shape::size))]
fn locality_fits(code: Code, most: u32) -> bool
    requires { most ≡ q code.field - 1 }
    ensures { result ≡ r_fits (single code) }
{
    let r = code.r;
    (1..=16).contains(&r) && most % (r + 1) == 0
}

// Question 3; most is q - 1.
fn length_fits(code: Code, most: u32) -> bool
    requires { (1 ≤ code.r) × (code.r ≤ 16) × (most ≡ q code.field - 1) × (most ≤ 255) }
    ensures { result ≡ n_fits (single code) }
{
    let n = code.n;
    let size = code.r + 1;
    let shared = n % size != 1;
    n >= 1 && n <= most && shared && (n + code.r) / size * size <= most
}

// Question 4.
fn dimension_fits(code: Code) -> bool
    requires { (1 ≤ code.r) × (code.r ≤ 16) × (1 ≤ code.n) × (code.n ≤ 255) × (code.n % (code.r + 1) ≢ 1) }
    ensures { result ≡ k_fits (single code) }
{
    let n = code.n;
    let k = code.k;
    let size = code.r + 1;
    let last = n % size;
    let number = (n + code.r) / size;
    let room = k <= n - number;
    k >= 1 && room && last <= k + 1
}

// Question 17.
#[tactic(auto, unfolding(code::specs::Family::wiring_fits, code::specs::Shape::size))]
fn wiring_fits(code: Code) -> bool
    requires { code.r ≤ 16 }
    ensures { result ≡ wiring_fits (single code) }
{
    let known = code.wiring <= 1;
    known && (code.wiring == 0 || code.n % (code.r + 1) == 0)
}
