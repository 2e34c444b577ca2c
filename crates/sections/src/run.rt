// The work on a stream.
ghost use Rattle.std.specs.Prelude.{◌≤◌, length};

use crate::input;
use crate::input::Found;
use crate::report::Report;
use crate::totals::add;
use crate::words::Words;
use answers::{Answer, Refusal};
use packet::Packet;
use reader::{Progress, Reader, Step, section};
use std::io;
use std::io::{Read, Stdout};

// The bytes of the stream that are held at once.
const ROOM: usize = 65536;

// A stream as far as it is worked. Out of step, `skipped` counts the bytes since the last packet; in step it is 0. The rest are the
// bytes behind, too few to tell what they are.
#[derive(Drop)]
pub struct Run {
    reader: Reader,
    buffer: [u8; Reader::BUFFER_SIZE],
    skipped: u64,
    rest: usize,
    pub report: Report,
}

impl Run {
    // With how the report's heading was written.
    pub fn begun(out: Stdout, words: Words, written: io::Result<()>) -> Run {
        Run {
            reader: Reader::fresh(words.form),
            buffer: [0; Reader::BUFFER_SIZE],
            skipped: 0,
            rest: 0,
            report: Report::begun(out, words, written),
        }
    }

    // Until the input ends, or what is told cannot be written. A proved loop has to end, and nothing says that the input does: so it
    // counts its turns, to a number that no run reaches.
    pub fn work_all(&mut self, input: &mut impl Read) -> io::Result<()> {
        let mut room = [0u8; ROOM];
        let mut end = 0;
        for _ in 0..u64::MAX {
            let rest = self.work_bytes(&room[..end]);
            self.rest = rest;
            if self.report.written.is_err() {
                break;
            }
            room.copy_within(end - rest..end, 0);
            let count = input.read(&mut room[rest..])?;
            if count == 0 {
                break;
            }
            end = rest + count;
        }
        Ok(())
    }

    // Works what the bytes have, and answers how many are left.
    fn work_bytes(&mut self, mut bytes: &[u8]) -> usize
        ensures { result ≤ length bytes.entry.now }
    {
        while let Some((found, rest)) = input::split_first(self.skipped == 0, bytes) {
            self.work(found);
            bytes = rest;
        }
        bytes.len()
    }

    fn work(&mut self, found: Found<'_>) {
        match found {
            Found::Packet(packet) => {
                self.report.skip(self.skipped);
                self.skipped = 0;
                self.work_packet(packet);
                add(&mut self.report.totals.packets, 1);
            }
            Found::Damaged => {
                self.report.refuse(Refusal::NoSyncByte);
                add(&mut self.report.totals.packets, 1);
            }
            Found::NoPacket => add(&mut self.skipped, 1),
        }
    }

    // The reader is fed the packets of its PID.
    fn work_packet(&mut self, packet: &[u8]) {
        if let Ok(header) = Packet::header(packet)
            && header.pid == self.report.words.pid
        {
            add(&mut self.report.totals.of_pid, 1);
            self.both_steps(packet);
        }
    }

    fn both_steps(&mut self, packet: &[u8]) {
        let tail = self.reader.tail(packet, &mut self.buffer);
        self.tell(tail, packet);
        let head = tail.reader.head(packet, &mut self.buffer);
        if !both_refuse(head) {
            self.tell(head, packet);
        }
        self.reader = head.reader;
    }

    fn tell(&mut self, step: Step, packet: &[u8]) {
        match step.answer {
            Ok(Progress::Delivered(place)) => {
                let delivered = section(packet, &self.buffer, Answer::DELIVERED, place);
                self.report.deliver(delivered);
            }
            Ok(Progress::NothingForThisStep | Progress::BytesKept) => {}
            Err(refusal) => self.report.refuse(refusal),
        }
    }

    // Counts the bytes of which no packet or no section came, and writes the totals.
    pub fn put_totals(&mut self) -> io::Result<()> {
        if self.reader.is_open {
            self.report.totals.kept = u64::from(self.reader.held);
        }
        let rest = self.rest as u64;
        if self.skipped == 0 {
            self.report.totals.rest = rest;
        } else {
            add(&mut self.skipped, rest);
            self.report.skip(self.skipped);
        }
        self.report.put_totals()
    }
}

// What both steps refuse alike counts once, with the tail step: a packet's own refusals, a pointer beyond the rest, and a state
// that is not sound.
fn both_refuse(head: Step) -> bool {
    matches!(
        head.answer,
        Err(
            Refusal::PacketSize
                | Refusal::NoSyncByte
                | Refusal::BufferSize
                | Refusal::NoPayload
                | Refusal::PayloadEmpty
                | Refusal::PayloadBeyond
                | Refusal::PointerBeyondRest
                | Refusal::StateNotSound
        )
    )
}
