// Records of calls, with the answers of a separately written program.
// A record is the call, six numbers, how many buffers there are, the buffers before, the answer and the buffers after. A number is four
// bytes, the high byte first. A buffer is its length, how many bytes are given, and these, which repeat; after the call it is as before
// past that length.
#![tactic(auto)]

ghost use Rattle.std.specs.Prelude.{◌≤◌, length};
ghost use Rattle.std.specs.Iterator.{at_most};

// The records of an input, each behind its size. They end where one is cut short.
#[derive(Clone, Copy)]
pub struct Records<'a>(pub &'a [u8]);

impl<'a> Iterator for Records<'a> {
    type Item = &'a [u8];

    ghost remaining = { λ s. at_most (length s.0.now) };

    fn next(&mut self) -> Option<&'a [u8]> {
        let (size, rest) = self.0.split_first_chunk::<4>()?;
        let (record, rest) = rest.split_at_checked(u32::from_be_bytes(*size) as usize)?;
        self.0 = rest;
        Some(record)
    }
}

// What is left of a record to read. What is not there reads as 0.
#[derive(Clone, Copy)]
struct Reader<'a>(&'a [u8]);

impl<'a> Reader<'a> {
    // The number in front.
    fn front(self) -> u32 {
        match self.0.first_chunk::<4>() {
            Some(number) => u32::from_be_bytes(*number),
            None => 0,
        }
    }

    // What stands behind so many bytes.
    fn behind(self, n: usize) -> Reader<'a> {
        Reader(self.0.get(n..).unwrap_or(&[]))
    }

    fn number(&mut self) -> u32 {
        let number = self.front();
        *self = self.behind(4);
        number
    }

    fn call(&mut self) -> Call {
        Call {
            number: self.number(),
            field: self.number(),
            r: self.number(),
            n: self.number(),
            k: self.number(),
            wiring: self.number(),
            slot: self.number(),
        }
    }

    fn buffer(&mut self) -> Buffer<'a> {
        let length = self.number() as usize;
        let number = self.number() as usize;
        let given = self.0;
        *self = self.behind(number);
        Buffer {
            length,
            number,
            given,
        }
    }

    // Buffer i from here on.
    fn buffer_at(mut self, i: usize) -> Buffer<'a> {
        for _ in 0..i {
            self.buffer();
        }
        self.buffer()
    }
}

// A buffer: its length in bytes, how many bytes it repeats, and the record from the first of these on.
#[derive(Clone, Copy)]
pub struct Buffer<'a> {
    length: usize,
    number: usize,
    given: &'a [u8],
}

// The bytes of a buffer, over and over.
#[derive(Clone, Copy)]
pub struct Bytes<'a> {
    number: usize,
    given: &'a [u8],
    at: usize,
}

impl<'a> Bytes<'a> {
    fn next_byte(&mut self) -> u8 {
        if self.at >= self.number {
            self.at = 0;
        }
        if self.number == 0 {
            return 0;
        }
        let at = self.at;
        self.at = at + 1;
        self.given.get(at).copied().unwrap_or(0)
    }
}

// What a buffer holds: bytes, or numbers of four bytes.
pub trait Element: Copy + PartialEq + Drop {
    // How many of them have so many bytes.
    fn number_in(length: usize) -> usize;

    fn next_of(bytes: &mut Bytes) -> Self;
}

impl Element for u8 {
    fn number_in(length: usize) -> usize {
        length
    }

    fn next_of(bytes: &mut Bytes) -> u8 {
        bytes.next_byte()
    }
}

impl Element for u32 {
    fn number_in(length: usize) -> usize {
        length / 4
    }

    fn next_of(bytes: &mut Bytes) -> u32 {
        let a = bytes.next_byte();
        let b = bytes.next_byte();
        let c = bytes.next_byte();
        let d = bytes.next_byte();
        u32::from_be_bytes([a, b, c, d])
    }
}

impl<'a> Buffer<'a> {
    fn bytes(self) -> Bytes<'a> {
        Bytes {
            number: self.number,
            given: self.given,
            at: 0,
        }
    }

    // The buffer, written in front of the room that holds it.
    pub fn fill<'r, T: Element>(self, room: &'r mut [T]) -> &'r mut [T] {
        let n = T::number_in(self.length).min(room.len());
        let front = &mut room[..n];
        let mut bytes = self.bytes();
        for x in front.iter_mut() {
            *x = T::next_of(&mut bytes);
        }
        front
    }
}

// The call, and the six numbers that it is made with.
#[derive(Clone, Copy)]
pub struct Call {
    pub number: u32,
    pub field: u32,
    pub r: u32,
    pub n: u32,
    pub k: u32,
    pub wiring: u32,
    pub slot: u32,
}

// A record.
#[derive(Clone, Copy)]
pub struct Record<'a> {
    pub call: Call,
    buffers: usize,
    before: Reader<'a>,
    answer: u64,
    after: Reader<'a>,
}

impl<'a> Record<'a> {
    pub fn read(bytes: &'a [u8]) -> Record<'a> {
        let mut reader = Reader(bytes);
        let call = reader.call();
        let buffers = reader.number() as usize;
        let before = reader;
        for _ in 0..buffers {
            reader.buffer();
        }
        let refusal = reader.number();
        let value = reader.number();
        Record {
            call,
            buffers,
            before,
            answer: pair(refusal, value),
            after: reader,
        }
    }

    // Buffer i before the call; an empty one behind the last. A read of a sheet, call 10, always has three of bytes.
    pub fn buffer(&self, i: usize) -> Buffer<'a> {
        let buffer = self.before.buffer_at(i);
        let least = if self.call.number == 10 { 3 } else { 0 };
        if i < self.buffers.max(least) {
            return buffer;
        }
        Buffer {
            length: 0,
            ..buffer
        }
    }

    // Whether the answer and the first buffers are what they should be after the call.
    pub fn agrees(&self, answer: u64, buffers: &[&[u8]]) -> bool {
        if answer != self.answer {
            return false;
        }
        for (i, buffer) in buffers.iter().enumerate() {
            if !self.leaves(i, *buffer) {
                return false;
            }
        }
        true
    }

    // Whether buffer i is what it should be after the call.
    pub fn leaves<T: Element>(&self, i: usize, buffer: &[T]) -> bool {
        let kept = self.before.buffer_at(i);
        let changed = self.after.buffer_at(i);
        let n = T::number_in(changed.length);
        let mut before = kept.bytes();
        let mut after = changed.bytes();
        for (j, x) in buffer.iter().enumerate() {
            let old = T::next_of(&mut before);
            let new = T::next_of(&mut after);
            if *x != (if j < n { new } else { old }) {
                return false;
            }
        }
        true
    }
}

// The refusal high, the value low.
pub fn pair(refusal: u32, value: u32) -> u64 {
    u64::from(refusal) * 0x1_0000_0000 + u64::from(value)
}
