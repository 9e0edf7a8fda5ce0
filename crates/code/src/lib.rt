// A code by its numbers: the public record, the shape that all families of codes share, and the answer of a call.
#![tactic(auto)]

// The code record of the paper: the field, the locality r, the length n, the dimension k, and the wiring, how the repair groups are
// placed: 0 one after the other, 1 interleaved.
#[derive(Clone, Copy)]
pub struct Code {
    pub field: u32,
    pub r: u32,
    pub n: u32,
    pub k: u32,
    pub wiring: u32,
}

// Every family in one struct: groups of r + tolerance members, which stand tolerance losses; second is another group size, or 0.
#[derive(Clone, Copy)]
pub struct Shape {
    pub field: u32,
    pub r: u32,
    pub n: u32,
    pub k: u32,
    pub wiring: u32,
    pub tolerance: u32,
    pub second: u32,
}

// A refusal number, and a value that is 0 on a refusal.
#[derive(Clone, Copy)]
pub struct Answer {
    pub refusal: u32,
    pub value: u32,
}
