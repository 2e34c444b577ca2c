// The input, line by line.
ghost use Rattle.std.specs.Prelude.{◌≤◌};

use std::io;
use std::io::{Read, Stdin};

// The longest line with its end: the largest buffer and packet, two digits for a byte, and room for the words and numbers.
pub const LINE: usize = 524800;

// (An array, no Vec: where memory is out the program would end in another way.)
// How far the input is read: the bytes room[from..to] have come and are no line that was handed out.
#[derive(Drop)]
pub struct Input {
    stdin: Stdin,
    room: [u8; LINE],
    from: usize,
    to: usize,
    ghost ordered: { from ≤ to },
    ghost within: { to ≤ 524800 },
}

impl Input {
    pub fn new(stdin: Stdin) -> Input {
        Input {
            stdin,
            room: [0u8; LINE],
            from: 0,
            to: 0,
        }
    }

    // The next line, where its end has come.
    pub fn next_line(&mut self) -> Option<&[u8]> {
        let from = self.from;
        let length = self.room[from..self.to]
            .iter()
            .position(|letter| *letter == b'\n')?;
        let end = from + length;
        self.from = end + 1;
        Some(&self.room[from..end])
    }

    // How many bytes of a line have come whose end has not.
    pub fn left(&self) -> usize {
        self.to - self.from
    }

    // Reads more behind the bytes that have come, and answers how many came: none where the input is over, or where there is no room.
    pub fn read_on(&mut self) -> io::Result<usize> {
        self.room.copy_within(self.from..self.to, 0);
        self.to -= self.from;
        self.from = 0;
        let count = self.stdin.read(&mut self.room[self.to..])?;
        self.to += count;
        Ok(count)
    }
}
