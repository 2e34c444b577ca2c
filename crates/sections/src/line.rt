// A line of the report while it is put together, and what stands in several of them.
use crate::names;
use answers::Refusal;
use std::io;
use std::io::{Print, Stdout};
use text::Page;

// Room for a line; what is longer is written in parts.
pub const ROOM: usize = 256;

// (Numbers go by `text`, whose contracts say what they put: of the library's formatting nothing is stated once it is printed. These methods say nothing, so that
// each call is proved in less time.)
#[derive(Drop)]
pub struct Line<'a> {
    page: Page<'a>,
}

impl<'a> Line<'a> {
    pub fn new(out: Stdout, bytes: &'a mut [u8]) -> Line<'a> {
        Line {
            page: Page { out, bytes, end: 0 },
        }
    }

    pub fn write(&self) -> io::Result<()> {
        let out = self.page.out;
        out.write_all(self.page.front())
    }

    pub fn put_text(&mut self, text: &str) {
        self.page.put_text(text.as_bytes());
    }

    // A name, and blanks up to the width.
    pub fn put_name(&mut self, name: &str, width: usize) {
        self.put_text(name);
        self.page
            .put_repeated(b' ', width.saturating_sub(name.len()));
    }

    pub fn put_number(&mut self, number: u64, width: usize) {
        self.page.put_decimal(number, width);
    }

    pub fn put_number_left(&mut self, number: u64, width: usize) {
        self.page.put_decimal_left(number, width);
    }

    pub fn put_hexadecimal(&mut self, number: u64, width: usize) {
        self.page.put_hexadecimal(number, width);
    }

    pub fn put_pid(&mut self, pid: u16, width: usize) {
        self.put_number(u64::from(pid), width);
        self.put_text(" (0x");
        self.put_hexadecimal(u64::from(pid), 4);
        self.put_text(")");
    }

    pub fn put_info(&mut self, size: usize) {
        self.put_text("  info ");
        self.put_number(size as u64, 4);
        self.put_text(" bytes");
    }

    // What the line of a section begins with.
    pub fn put_table(&mut self, packet: u64, table_id: u8) {
        self.put_text("section ");
        self.put_number(packet, 10);
        self.put_text("  0x");
        self.put_hexadecimal(u64::from(table_id), 2);
        self.put_text(" ");
        self.put_name(names::of_table(table_id), 4);
    }

    // Where the entries of a body end early, and the number of why.
    pub fn put_stop(&mut self, offset: usize, number: u8) {
        self.put_text("  stopped at byte ");
        self.put_number(offset as u64, 1);
        self.put_text(" of the body, ");
        self.put_number(u64::from(number), 1);
        self.put_text(": ");
    }

    // Why a step refused, and the line's end.
    pub fn put_refusal(&mut self, refusal: Refusal) {
        self.put_number(u64::from(refusal.number()), 1);
        self.put_text(": ");
        self.put_text(names::of_refusal(refusal));
        self.put_text("\n");
    }

    // What a total begins with.
    pub fn put_total(&mut self, total: u64) {
        self.put_text("total   ");
        self.put_number(total, 10);
        self.put_text("  ");
    }
}
