// The grade of a stripe by its marks, in a lent work buffer, and the call that answers it.
#![tactic(auto)]

ghost use Rattle.std.specs.Prelude.{◌≡◌, ◌+◌, ◌*◌, ◌≤◌, length, replicate};
ghost use Rattle.code.specs.Erasure.{lost_number, first_broken, grade};
ghost use Rattle.code.specs.Family.{single, code_refusal};
ghost use Rattle.code.specs.Laws.{Placed, Plain, Decodable};
ghost use Rattle.code.specs.Work.{cleared};
ghost use Rattle.refusal.specs.Refusal.{number_of, answer_of};
ghost use Rattle.grading.specs.Grade.{grade_refusal, GradeSays};
ghost use Rattle.grading.specs.Step.{counted, graded, lengths_refusal, Marked};

use code::{Code, Shape};
use refusal::{Refusal, require};

// What marks say of a stripe: the number lost, the grade, and the first group with more losses than it stands, 255 if none.
#[derive(Clone, Copy)]
pub struct Graded {
    pub lost: u32,
    pub grade: u32,
    pub first: u32,
}

// 0: nothing lost; 1: every group mends itself; 2: within the guarantee; 3: beyond, where counts do not tell.
fn counted_grade(shape: Shape, lost: u32, first: u32) -> u32
    requires { Plain shape }
    ensures { result ≡ counted shape lost first }
{
    if lost == 0 {
        return 0;
    }
    if first == 255 {
        return 1;
    }
    let sure = losses::guarantee_of(shape);
    if lost <= sure {
        return 2;
    }
    3
}

// The grade: past the guarantee 3 where the kept slots decide every message, 4 where they do not. All of work is left 0.
fn grade_of(shape: Shape, lost: u32, first: u32, marks: &[u8], work: &mut [u8]) -> u32
    requires { Decodable shape × (length marks.now ≡ shape.n) × (lost ≡ lost_number shape marks.now) × (first ≡ first_broken shape marks.now) × (shape.k * (shape.k + 1) + (shape.k + 1) ≤ length work.old) }
    ensures { (result ≡ grade shape marks.now) × (work.new ≡ replicate (length work.old) 0) }
{
    let level = counted_grade(shape, lost, first);
    if level != 3 {
        copying::clear(work);
        return level;
    }
    if deciding::decided(shape, marks, work) {
        return 3;
    }
    4
}

// The first group with more losses than it stands, 255 if none: no group is looked at where nothing is lost.
fn first_of(shape: Shape, lost: u32, marks: &[u8]) -> u32
    requires { Placed shape × (length marks.now ≡ shape.n) × (lost ≡ lost_number shape marks.now) }
    ensures { result ≡ first_broken shape marks.now }
{
    if lost == 0 {
        return 255;
    }
    losses::first_group(shape, marks)
}

// Counts and grades by marks that no question refuses, in the front of work.
pub fn graded_in(shape: Shape, marks: &[u8], work: &mut [u8]) -> Graded
    requires { Marked shape marks.now (length work.old) }
    ensures { (result ≡ graded shape marks.now) × (work.new ≡ cleared shape work.old) }
{
    let n = shape.n as usize;
    let k = shape.k as usize;
    let used = n * (k + 1);
    let lost = losses::count_lost(shape, marks);
    let first = first_of(shape, lost, marks);
    let grade = grade_of(shape, lost, first, marks, &mut work[..used]);
    Graded { lost, grade, first }
}

// Questions 5 and those before: a mark for every slot, and work enough; marks and work are their lengths.
#[tactic(auto, using(refusal::proofs::Refusals::chain), unfolding(code::specs::Question::ask, code::specs::Question::or_ask, crate::specs::Step::lengths_refusal, code::specs::Work::used))]
pub fn lengths_asked(
    asked: Result<(), Refusal>,
    shape: Shape,
    marks: usize,
    work: usize,
) -> Result<(), Refusal>
    requires { number_of asked ≡ 0 → Decodable shape }
    ensures { number_of result ≡ lengths_refusal (number_of asked) shape marks work }
{
    asked?;
    let n = shape.n as usize;
    let k = shape.k as usize;
    let used = n * (k + 1);
    require(marks == n && used <= work, Refusal::Buffers)
}

// Questions 5 and 8 of grade, and those before.
#[tactic(auto, using(refusal::proofs::Refusals::chain), unfolding(code::specs::Question::ask, code::specs::Question::or_ask, crate::specs::Step::lengths_refusal, crate::specs::Grade::grade_refusal))]
fn grade_asked(
    asked: Result<(), Refusal>,
    shape: Shape,
    marks: &[u8],
    work: usize,
) -> Result<(), Refusal>
    requires { number_of asked ≡ 0 → Decodable shape }
    ensures { number_of result ≡ grade_refusal (number_of asked) shape marks.now work }
{
    lengths_asked(asked, shape, marks.len(), work)?;
    require(questions::all_below(marks, 2), Refusal::Mark)
}

// Grades a stripe by its marks.
#[tactic(auto, using(refusal::proofs::Refusals::chain, crate::proofs::Refusals::handed), unfolding(crate::specs::Grade::GradeSays, crate::specs::Grade::GradeAs, crate::specs::Step::graded))]
pub fn grade_with(
    asked: Result<(), Refusal>,
    shape: Shape,
    marks: &[u8],
    work: &mut [u8],
) -> Result<u32, Refusal>
    requires { number_of asked ≡ 0 → Decodable shape }
    ensures { GradeSays (number_of asked) shape marks.now (answer_of result) work.old work.new }
{
    grade_asked(asked, shape, marks, work.len())?;
    let seen = graded_in(shape, marks, work);
    Ok(seen.grade)
}

// The call on a code of the paper.
pub fn grade(code: Code, marks: &[u8], work: &mut [u8]) -> Result<u32, Refusal>
    ensures { GradeSays (code_refusal code) (single code) marks.now (answer_of result) work.old work.new }
{
    grade_with(
        acceptance::accepted(code),
        acceptance::single(code),
        marks,
        work,
    )
}
