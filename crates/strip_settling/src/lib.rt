// Strips with losses decoded into lent room: first what decode uses of work, then the strips of the messages.
#![tactic(auto)]

ghost use Rattle.std.specs.Prelude.{◌≡◌, ◌+◌, ◌*◌, ◌<◌, length, drop};
ghost use Rattle.strip_words.specs.Answer.{Answer};
ghost use Rattle.strip_settling.specs.Step.{Task, ColumnSettled};

use code::Shape;

// Decodes column c of the kept strips, which word is room for; a message goes to column c of the strips behind what decode uses.
fn settle_column(
    shape: Shape,
    words: &[u8],
    marks: &[u8],
    l: usize,
    c: usize,
    word: &mut [u8],
    message: &mut [u8],
    room: &mut [u8],
) -> u32
    requires { Task shape l words.now marks.now × (c < l) × (length word.old ≡ shape.n) × (length message.old ≡ shape.k) × (length room.old ≡ shape.n * (shape.k + 1 + l)) }
    ensures { ColumnSettled shape l words.now marks.now c result (drop (shape.n * (shape.k + 1)) room.old) (drop (shape.n * (shape.k + 1)) room.new) }
{
    strip_words::take_kept(words, marks, l, c, word);
    let answer = refusal::number_of(decode::settle(shape, word, marks, message, room));
    if answer != 0 {
        return answer;
    }
    let used = shape.n as usize * (shape.k as usize + 1);
    strip_columns::put_column(message, &mut room[used..], l, c);
    0
}

// Decodes the columns; word and message are room for one column of each.
fn settle_columns(
    shape: Shape,
    words: &[u8],
    marks: &[u8],
    l: usize,
    word: &mut [u8],
    message: &mut [u8],
    room: &mut [u8],
) -> u32
    requires { Task shape l words.now marks.now × (length word.old ≡ shape.n) × (length message.old ≡ shape.k) × (length room.old ≡ shape.n * (shape.k + 1 + l)) }
    ensures { Answer shape l words.now marks.now (drop (shape.n * (shape.k + 1)) room.new) result }
{
    let mut answer: u32 = 0;
    for c in 0..l {
        let next = settle_column(shape, words, marks, l, c, word, message, room);
        if next == 9 {
            return 9;
        }
        if next != 0 {
            answer = next;
        }
    }
    answer
}

// Decodes strips that no question refuses; the messages' strips lie behind what decode uses of the room.
#[tactic(auto, using(code::proofs::Bounds::n_most, strip_columns::proofs::Lengths::row_lent))]
pub fn settle_strips(shape: Shape, words: &[u8], marks: &[u8], l: usize, room: &mut [u8]) -> u32
    requires { Task shape l words.now marks.now × (length room.old ≡ shape.n * (shape.k + 1 + l)) }
    ensures { Answer shape l words.now marks.now (drop (shape.n * (shape.k + 1)) room.new) result }
{
    let n = shape.n as usize;
    let k = shape.k as usize;
    let mut word = [0u8; 255];
    let mut message = [0u8; 255];
    settle_columns(
        shape,
        words,
        marks,
        l,
        &mut word[..n],
        &mut message[..k],
        room,
    )
}
