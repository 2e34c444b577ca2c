// What an answer is made of. It is put on a page, which is written when it is full and before more requests are read.
use answers::Refusal;
use fields::word;
use std::io;
use std::io::{Print, Stdout};

// How many bytes the page has.
pub const PAGE: usize = 65536;

// The page. (Its methods say less than those of `text`: nothing here is proved of what is written, and each call is then proved in
// less time.)
#[derive(Drop)]
pub struct Page<'a> {
    page: text::Page<'a>,
}

impl<'a> Page<'a> {
    pub fn new(out: Stdout, bytes: &'a mut [u8]) -> Page<'a> {
        Page {
            page: text::Page { out, bytes, end: 0 },
        }
    }

    // Writes what it has, and begins it anew.
    pub fn write(&mut self) -> io::Result<()> {
        let out = self.page.out;
        out.write_all(self.page.front())?;
        self.page.end = 0;
        Ok(())
    }

    pub fn put_text(&mut self, text: &[u8]) {
        self.page.put_text(text);
    }

    pub fn put_number(&mut self, number: u64) {
        self.page.put_decimal(number, 1);
    }

    // Numbers, each behind a blank.
    pub fn put_values(&mut self, values: &[u64]) {
        for value in values {
            self.put_text(b" ");
            self.put_number(*value);
        }
    }

    // An answer that refuses nothing, and its values.
    pub fn put_given(&mut self, values: &[u64]) {
        self.put_text(b"0");
        self.put_values(values);
    }

    // A call's answer. A refusal has no values.
    pub fn put_answer<const N: usize>(&mut self, answer: Result<[u64; N], Refusal>) {
        match answer {
            Ok(values) => self.put_given(&values),
            Err(refusal) => self.put_number(u64::from(refusal.number())),
        }
    }

    // How many bytes there are, and their digest.
    pub fn put_digest(&mut self, bytes: &[u8]) {
        self.put_values(&[bytes.len() as u64, adler32(bytes)]);
    }

    // The bytes in hexadecimal, - where there are none.
    pub fn put_bytes(&mut self, bytes: &[u8]) {
        self.put_text(b" ");
        if bytes.is_empty() {
            self.put_text(b"-");
        }
        for part in bytes.chunks(8) {
            self.page
                .put_hexadecimal(word(part, 0, part.len()), 2 * part.len());
        }
    }
}

// Adler-32's two sums are counted modulo this number, the largest prime below 65,536.
const BASE: u64 = 65521;

// Of so many bytes the sums fit into their words: they are divided once for all of these, no fewer than a room has.
const SUMMED: usize = 1048576;

// The digest of RFC 1950.
pub fn adler32(bytes: &[u8]) -> u64 {
    let mut low = 1;
    let mut high = 0;
    for part in bytes.chunks(SUMMED) {
        for byte in part {
            low += u64::from(*byte);
            high += low;
        }
        low %= BASE;
        high %= BASE;
    }
    high * 65536 + low
}
