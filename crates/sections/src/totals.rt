// The totals of a stream.
use crate::line::{Line, ROOM};
use crate::names;
use answers::Refusal;
use std::io;
use std::io::Stdout;

// How many of each there were. (Refusals by number alone, with no refusal beside each: the program begins with these on its stack, and that would be twice as many bytes.)
#[derive(Drop)]
pub struct Totals {
    pub packets: u64,
    pub of_pid: u64,
    pub delivered: u64,
    pub refused: u64,
    // By the refusal's number, with a place for every number of a byte.
    by_number: [u64; 256],
    pub skipped: u64,
    pub rest: u64,
    pub kept: u64,
}

impl Totals {
    pub fn none() -> Totals {
        Totals {
            packets: 0,
            of_pid: 0,
            delivered: 0,
            refused: 0,
            by_number: [0; 256],
            skipped: 0,
            rest: 0,
            kept: 0,
        }
    }

    pub fn count_refused(&mut self, refusal: Refusal) {
        add(&mut self.by_number[refusal.number() as usize], 1);
        add(&mut self.refused, 1);
    }

    // Answers how the first lines were written.
    pub fn put(&self, out: Stdout, pid: u16) -> io::Result<()> {
        let written = self.put_first(out, pid);
        self.put_refused(out);
        // What is there only in a stream that is damaged or cut.
        put_some(out, self.skipped, "bytes skipped that are no packet");
        put_some(out, self.rest, "bytes at the end that make no packet");
        put_some(out, self.kept, "bytes kept of a section that did not end");
        written
    }

    fn put_first(&self, out: Stdout, pid: u16) -> io::Result<()> {
        let mut room = [0u8; ROOM];
        let mut lines = Line::new(out, &mut room);
        lines.put_text("\n");
        lines.put_total(self.packets);
        lines.put_text("packets\n");
        lines.put_total(self.of_pid);
        lines.put_text("packets of PID ");
        lines.put_pid(pid, 1);
        lines.put_text("\n");
        lines.put_total(self.delivered);
        lines.put_text("sections delivered\n");
        lines.put_total(self.refused);
        lines.put_text("refused\n");
        lines.write()
    }

    fn put_refused(&self, out: Stdout) {
        for &refusal in &names::REFUSALS {
            let count = self.by_number[refusal.number() as usize];
            if count != 0 {
                let _ = put_count(out, refusal, count);
            }
        }
    }
}

fn put_count(out: Stdout, refusal: Refusal, count: u64) -> io::Result<()> {
    let mut room = [0u8; ROOM];
    let mut line = Line::new(out, &mut room);
    line.put_total(count);
    line.put_text("refused, ");
    line.put_refusal(refusal);
    line.write()
}

// A total that is full stays so.
pub fn add(total: &mut u64, n: u64) {
    *total = total.saturating_add(n);
}

fn put_some(out: Stdout, total: u64, what: &str) {
    if total != 0 {
        let _ = put_total(out, total, what);
    }
}

fn put_total(out: Stdout, total: u64, what: &str) -> io::Result<()> {
    let mut room = [0u8; ROOM];
    let mut line = Line::new(out, &mut room);
    line.put_total(total);
    line.put_text(what);
    line.put_text("\n");
    line.write()
}
