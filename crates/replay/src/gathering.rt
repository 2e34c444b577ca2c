// The calls of a reader.
use crate::arguments::{Arguments, Fault};
use crate::kept::Kept;
use crate::line;
use crate::line::Page;
use answers::Answer;
use reader::{Form, Holder, Marks, Memory, Place, Reader};

#[derive(Clone, Copy, Debug, PartialEq, Eq)]
pub enum Call {
    Tail,
    Head,
    Fresh,
    None,
    Look,
}

impl TryFrom<&[u8]> for Call {
    type Error = Fault;

    fn try_from(name: &[u8]) -> Result<Call, Fault> {
        match name {
            b"tail" => Ok(Call::Tail),
            b"head" => Ok(Call::Head),
            b"fresh" => Ok(Call::Fresh),
            b"none" => Ok(Call::None),
            b"look" => Ok(Call::Look),
            _ => Err(Fault::NoCall),
        }
    }
}

impl Kept {
    // Reads what a request gives in the place of what is kept, and answers whether bytes are to be shown.
    pub fn read(&mut self, mut arguments: Arguments) -> Result<bool, Fault> {
        let mut shows_bytes = false;
        // Each turn reads a word: a `while let` wants a measure, and so a clause on each function that reads.
        for _ in 0..u64::MAX {
            let Some(name) = arguments.word() else {
                break;
            };
            match name {
                b"state" => self.reader = reader(&mut arguments)?,
                b"place" => self.read_place(&mut arguments)?,
                b"buffer" => self.buffer.read(&mut arguments)?,
                b"packet" => self.packet.read(&mut arguments)?,
                b"show" => shows_bytes = true,
                _ => return Err(Fault::NoArgument),
            }
        }
        Ok(shows_bytes)
    }

    // An answer, and its place.
    fn read_place(&mut self, arguments: &mut Arguments) -> Result<(), Fault> {
        self.answer = arguments.number()?;
        self.place = Place {
            holder: holder(arguments)?,
            start: arguments.number()?,
            len: arguments.number()?,
        };
        Ok(())
    }

    // Makes the call.
    pub fn work(&mut self, call: Call) {
        let reader = self.reader;
        let packet = self.packet.as_slice();
        // By its fields: a method that lends a part of the room to be written gets no proof beside the ghost field.
        let size = self.buffer.size;
        let room = &mut self.buffer.room[..];
        let buffer = &mut room[..size];
        match call {
            Call::Tail => {
                let step = reader.tail(packet, buffer);
                self.keep(step);
            }
            Call::Head => {
                let step = reader.head(packet, buffer);
                self.keep(step);
            }
            Call::Fresh => self.reader = Reader::fresh(reader.form),
            Call::None => self.reader.memory = Memory::none(),
            Call::Look => {}
        }
    }

    // The section that is delivered.
    fn section(&self) -> &[u8] {
        reader::section(
            self.packet.as_slice(),
            self.buffer.as_slice(),
            self.answer,
            self.place,
        )
    }

    // Puts all that is kept.
    pub fn put(&self, shows_bytes: bool, page: &mut Page) {
        self.put_reader(page);
        let section = self.section();
        let buffer = self.buffer.as_slice();
        page.put_digest(section);
        page.put_digest(buffer);
        if shows_bytes {
            page.put_bytes(section);
            page.put_bytes(buffer);
        }
    }

    // The answer, the state, whether it is sound, and the place.
    fn put_reader(&self, page: &mut Page) {
        let reader = self.reader;
        let memory = reader.memory;
        let marks = memory.marks;
        let place = self.place;
        page.put_number(self.answer as u64);
        page.put_values(&[
            reader.form as u64,
            memory.table_id as u64,
            memory.id as u64,
            memory.version as u64,
            memory.current_next_indicator as u64,
            marks.words[0],
            marks.words[1],
            marks.words[2],
            marks.words[3],
            reader.is_open as u64,
            reader.held as u64,
            reader.wanted as u64,
            reader.is_sound() as u64,
            place.holder as u64,
            place.start as u64,
            place.len as u64,
        ]);
    }

    // Works both steps on the packet. What the tail step delivers is put before the head step lays bytes into the buffer.
    pub fn feed(&mut self, page: &mut Page) {
        self.work(Call::Tail);
        self.put_shown(page);
        page.put_text(b" ");
        self.work(Call::Head);
        self.put_shown(page);
    }

    // What the Rust crate shows of a step: its answer, and where a section was delivered its place and its digest.
    fn put_shown(&self, page: &mut Page) {
        let answer = self.answer;
        page.put_number(answer as u64);
        if answer == Answer::DELIVERED {
            let place = self.place;
            page.put_values(&[
                place.holder as u64,
                place.start as u64,
                place.len as u64,
                line::adler32(self.section()),
            ]);
        }
    }
}

// The state that stands there.
fn reader(arguments: &mut Arguments) -> Result<Reader, Fault> {
    Ok(Reader {
        form: form(arguments)?,
        memory: memory(arguments)?,
        is_open: arguments.flag()?,
        held: arguments.number()?,
        wanted: arguments.number()?,
    })
}

fn memory(arguments: &mut Arguments) -> Result<Memory, Fault> {
    Ok(Memory {
        table_id: arguments.number()?,
        id: arguments.number()?,
        version: arguments.number()?,
        current_next_indicator: arguments.flag()?,
        marks: Marks {
            words: [
                arguments.number()?,
                arguments.number()?,
                arguments.number()?,
                arguments.number()?,
            ],
        },
    })
}

// (No TryFrom: it would be a public function of the form's own crate.)
pub fn form(arguments: &mut Arguments) -> Result<Form, Fault> {
    match arguments.number::<u64>()? {
        0 => Ok(Form::Compact),
        1 => Ok(Form::Full),
        2 => Ok(Form::Once),
        _ => Err(Fault::NumberTooLarge),
    }
}

fn holder(arguments: &mut Arguments) -> Result<Holder, Fault> {
    match arguments.number::<u64>()? {
        0 => Ok(Holder::Nowhere),
        1 => Ok(Holder::Packet),
        2 => Ok(Holder::Buffer),
        _ => Err(Fault::NumberTooLarge),
    }
}
