// Answers a line: what it asks, and what is wrong with it where it asks nothing.
use crate::arguments::{Arguments, Fault};
use crate::kept::Kept;
use crate::line::Page;
use crate::{calls, gathering, packets};
use std::io;

// What is kept from request to request, and the page that the answers are put on.
#[derive(Drop)]
pub struct Session<'a> {
    kept: Kept,
    page: Page<'a>,
}

impl<'a> Session<'a> {
    pub fn new(page: Page<'a>) -> Session<'a> {
        Session {
            kept: Kept::nothing(),
            page,
        }
    }

    // Writes the answers that have been put.
    pub fn write(&mut self) -> io::Result<()> {
        self.page.write()
    }

    // Puts the answer to a line, and its end.
    pub fn answer_line(&mut self, line: &[u8]) {
        if let Err(fault) = self.answer(line) {
            self.refuse(fault);
        }
        self.page.put_text(b"\n");
    }

    // Writes what is wrong with the last line, whose end has not come, and then the answer's own end.
    pub fn write_last(&mut self, fault: Fault) -> io::Result<()> {
        self.refuse(fault);
        self.write()?;
        self.page.put_text(b"\n");
        self.write()
    }

    // A line that is no request is answered with what is wrong with it, and nothing is kept behind it.
    fn refuse(&mut self, fault: Fault) {
        self.page.put_text(b"not a request: ");
        self.page.put_text(fault.text().as_bytes());
        self.kept.clear();
    }

    // Puts the answer to a request, and nothing where it is none. A comment is its own answer.
    fn answer(&mut self, line: &[u8]) -> Result<(), Fault> {
        if line.starts_with(b"#") {
            self.page.put_text(line);
            return Ok(());
        }
        let mut arguments = Arguments::of(line);
        let name = arguments.word().ok_or(Fault::NoCall)?;
        match name {
            b"feed" => self.answer_feed(arguments),
            b"begin" => self.answer_begin(arguments),
            b"counter_follows" => self.answer_follows(arguments),
            _ => match gathering::Call::try_from(name) {
                Ok(call) => self.answer_reader(call, arguments),
                Err(_) => self.answer_calls(name, arguments),
            },
        }
    }

    // A packet for the reader that is kept.
    fn answer_feed(&mut self, mut arguments: Arguments) -> Result<(), Fault> {
        self.kept.packet.read(&mut arguments)?;
        arguments.end()?;
        self.kept.feed(&mut self.page);
        Ok(())
    }

    // A fresh reader of a form, with a buffer of zeros.
    fn answer_begin(&mut self, mut arguments: Arguments) -> Result<(), Fault> {
        let form = gathering::form(&mut arguments)?;
        arguments.end()?;
        self.kept.begin(form);
        self.page.put_given(&[]);
        Ok(())
    }

    fn answer_follows(&mut self, mut arguments: Arguments) -> Result<(), Fault> {
        let counter = arguments.number()?;
        let other = arguments.number()?;
        arguments.end()?;
        packets::put_follows(counter, other, &mut self.page);
        Ok(())
    }

    // A call of the reader: what it gives takes the place of what is kept.
    fn answer_reader(&mut self, call: gathering::Call, arguments: Arguments) -> Result<(), Fault> {
        let shows_bytes = self.kept.read(arguments)?;
        self.kept.work(call);
        self.kept.put(shows_bytes, &mut self.page);
        Ok(())
    }

    // The calls that only read, on bytes that are the packet from here on.
    fn answer_calls(&mut self, list: &[u8], mut arguments: Arguments) -> Result<(), Fault> {
        let mut position = 0;
        if calls::take_a_position(list)? {
            position = arguments.number()?;
        }
        self.kept.packet.read(&mut arguments)?;
        arguments.end()?;
        calls::put_all(list, position, self.kept.packet.as_slice(), &mut self.page)
    }
}
