// What is printed of a stream as it comes, and counted.
use crate::lines;
use crate::totals::{Totals, add};
use crate::words::Words;
use answers::Refusal;
use std::io;
use std::io::Stdout;

// With how what was told so far was written: an output that fails goes on failing.
#[derive(Drop)]
pub struct Report {
    pub out: Stdout,
    pub words: Words,
    pub totals: Totals,
    pub written: io::Result<()>,
}

impl Report {
    // With how the heading was written.
    pub fn begun(out: Stdout, words: Words, written: io::Result<()>) -> Report {
        Report {
            out,
            words,
            totals: Totals::none(),
            written,
        }
    }

    // So many bytes were passed over, that are of no packet.
    pub fn skip(&mut self, bytes: u64) {
        if bytes != 0 {
            self.tell(lines::put_skipped(self.out, self.totals.packets, bytes));
            add(&mut self.totals.skipped, bytes);
        }
    }

    pub fn refuse(&mut self, refusal: Refusal) {
        self.totals.count_refused(refusal);
        if self.words.all {
            self.tell(lines::put_refused(self.out, self.totals.packets, refusal));
        }
    }

    pub fn deliver(&mut self, section: &[u8]) {
        let written = lines::put_section(self.out, self.totals.packets, self.words.form, section);
        if self.words.hex {
            let _ = lines::put_bytes(self.out, section);
        }
        self.tell(written);
        add(&mut self.totals.delivered, 1);
    }

    pub fn put_totals(&self) -> io::Result<()> {
        self.totals.put(self.out, self.words.pid)
    }

    // What was told was written, or failed to be.
    fn tell(&mut self, written: io::Result<()>) {
        if written.is_err() {
            self.written = written;
        }
    }
}
