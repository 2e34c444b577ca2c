// What a request leaves to the next one.
ghost use Rattle.std.specs.Prelude.{◌≤◌};

use crate::arguments::{Arguments, Fault};
use reader::{Form, Holder, Place, Reader, Step};

// The largest buffer and packet: a place's start and length are below 65,536 each.
const ROOM: usize = 131072;

// Bytes, as many as there is room for. (No Vec: where memory is out the program would end in another way.)
#[derive(Drop)]
pub struct Bytes {
    pub room: [u8; ROOM],
    pub size: usize,
    ghost within: { size ≤ 131072 },
}

impl Bytes {
    fn none() -> Bytes {
        Bytes {
            room: [0u8; ROOM],
            size: 0,
        }
    }

    pub fn as_slice(&self) -> &[u8] {
        &self.room[..self.size]
    }

    fn set_zeros(&mut self, count: usize)
        requires { count ≤ 131072 }
    {
        let room = &mut self.room[..];
        room[..count].fill(0);
        self.size = count;
    }

    // The bytes that stand there.
    pub fn read(&mut self, arguments: &mut Arguments) -> Result<(), Fault> {
        self.size = arguments.bytes(&mut self.room)?;
        Ok(())
    }
}

// The reader, the answer of the step that was worked last (a number: a request may give any) and its place, and the bytes that the next step is worked on.
#[derive(Drop)]
pub struct Kept {
    pub reader: Reader,
    pub answer: u8,
    pub place: Place,
    pub buffer: Bytes,
    pub packet: Bytes,
}

// Where nothing is delivered.
const NO_PLACE: Place = Place {
    holder: Holder::Nowhere,
    start: 0,
    len: 0,
};

impl Kept {
    // What is kept at first: a fresh reader of COMPACT, and no bytes.
    pub fn nothing() -> Kept {
        Kept {
            reader: Reader::fresh(Form::Compact),
            answer: 0,
            place: NO_PLACE,
            buffer: Bytes::none(),
            packet: Bytes::none(),
        }
    }

    // Keeps that again.
    pub fn clear(&mut self) {
        self.start(Form::Compact);
    }

    // Keeps a fresh reader of that form, and a buffer of zeros.
    pub fn begin(&mut self, form: Form) {
        self.start(form);
        self.buffer.set_zeros(Reader::BUFFER_SIZE);
    }

    fn start(&mut self, form: Form) {
        self.reader = Reader::fresh(form);
        self.answer = 0;
        self.place = NO_PLACE;
        self.buffer.size = 0;
        self.packet.size = 0;
    }

    // Keeps what a step leaves.
    pub fn keep(&mut self, step: Step) {
        self.reader = step.reader;
        self.answer = reader::number(step.answer);
        self.place = reader::place(step.answer);
    }
}
