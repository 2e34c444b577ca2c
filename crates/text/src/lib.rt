// Text as programs write it: bytes, and numbers in decimal and hexadecimal, put on a page.
#![tactic(auto)]

ghost use Rattle.std.specs.Prelude.{◌≡◌, [], ◌∷◌, replicate};
ghost use Rattle.text.specs.Page.{lent, with_text_put, paged, paged_of, text_on};
ghost use Rattle.text.specs.Digits.{blank, zero_character, digits};
ghost use Rattle.text.specs.Padded.{filled_before, filled_behind};

use std::io::{Print, Stdout};

// A page that text is put on. Its first `end` bytes are text, and each `put_..` puts more behind them. A page that is full is
// written to standard output and begun anew, also where it could not be written. What it has at the end, its `front`, is for the
// program to write. (The bytes are lent, with any count beside them: a page of its own could not be a part of what the caller has.)
#[derive(Drop)]
pub struct Page<'a> {
    pub out: Stdout,
    pub bytes: &'a mut [u8],
    pub end: usize,
}

// The text that a page has: its first `end` bytes, all where it has fewer. (Page and end, since the page need not be lent to write.)
pub fn front(page: &[u8], end: usize) -> &[u8]
    ensures { result.now ≡ text_on (paged end page.now) }
{
    &page[..end.min(page.len())]
}

impl Page<'_> {
    #[tactic(auto, using(crate::proofs::Pages::one_more), unfolding(crate::specs::Page::with_text))]
    pub fn put_text(&mut self, text: &[u8])
        ensures { lent self.new ≡ with_text_put (lent self.old) text.now }
    {
        for &byte in text {
            self.put_byte(byte);
        }
    }

    #[tactic(auto, using(crate::proofs::Pages::one_more_repeated), unfolding(crate::specs::Page::with_text))]
    pub fn put_repeated(&mut self, byte: u8, count: usize)
        ensures { lent self.new ≡ with_text_put (lent self.old) (replicate count byte) }
    {
        for _ in 0..count {
            self.put_byte(byte);
        }
    }

    // The number's digits, with blanks before them where they are fewer than the width.
    #[tactic(auto, using(crate::proofs::Spelling::spelled))]
    pub fn put_decimal(&mut self, n: u64, width: usize)
        ensures { lent self.new ≡ with_text_put (lent self.old) (filled_before blank width (digits 10 n)) }
    {
        let mut digits = [0u8; 20];
        let count = io::decimal(n, &mut digits);
        self.put_filled_before(b' ', width, &digits[..count]);
    }

    // The same, with the blanks behind them.
    #[tactic(auto, using(crate::proofs::Pages::text_append, crate::proofs::Spelling::spelled))]
    pub fn put_decimal_left(&mut self, n: u64, width: usize)
        ensures { lent self.new ≡ with_text_put (lent self.old) (filled_behind blank width (digits 10 n)) }
    {
        let mut digits = [0u8; 20];
        let count = io::decimal(n, &mut digits);
        self.put_text(&digits[..count]);
        self.put_repeated(b' ', width.saturating_sub(count));
    }

    // The number's hexadecimal digits, in lower case, with zeros before them where they are fewer than the width.
    #[tactic(auto, using(crate::proofs::Spelling::spelled))]
    pub fn put_hexadecimal(&mut self, n: u64, width: usize)
        ensures { lent self.new ≡ with_text_put (lent self.old) (filled_before zero_character width (digits 16 n)) }
    {
        let mut digits = [0u8; 16];
        let count = io::hex(n, 1, &mut digits);
        self.put_filled_before(b'0', width, &digits[..count]);
    }

    pub fn front(&self) -> &[u8]
        ensures { result.now ≡ text_on (paged_of self.now) }
    {
        front(self.bytes, self.end)
    }

    #[tactic(auto, using(crate::proofs::Pages::text_append))]
    fn put_filled_before(&mut self, filler: u8, width: usize, text: &[u8])
        ensures { lent self.new ≡ with_text_put (lent self.old) (filled_before filler width text.now) }
    {
        self.put_repeated(filler, width.saturating_sub(text.len()));
        self.put_text(text);
    }

    // A page of no bytes takes none.
    #[tactic(auto, using(crate::proofs::Pages::byte_put), unfolding(crate::specs::Page::with_text))]
    fn put_byte(&mut self, byte: u8)
        ensures { lent self.new ≡ with_text_put (lent self.old) (byte ∷ []) }
    {
        if self.end >= self.bytes.len() {
            let out = self.out;
            let _ = out.write_all(self.front());
            self.end = 0;
        }
        if self.end < self.bytes.len() {
            self.bytes[self.end] = byte;
            self.end += 1;
        }
    }
}
