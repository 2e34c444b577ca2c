// Compares sum32 with the values of a list that tests/crc/make-values made, and says how many were compared and which differ.
// The list is vector after vector: the number of bytes, the bytes, their CRC. Numbers have four bytes, most significant first.
#![tactic(auto)]

ghost use Rattle.std.specs.Prelude.{◌≤◌, ◌<◌, length, IfOk, IfSome};

use std::io;
use std::io::{Print, Read, Stdin, Stdout};
use text::Page;

const ROOM: usize = 131072;

// Room for a line.
const LINE: usize = 128;

// A vector of the list.
#[derive(Clone, Copy)]
struct Vector<'a> {
    bytes: &'a [u8],
    crc: u32,
}

fn main(rt: HostRuntime) -> io::Result<()> {
    let out = rt.stdout();
    let mut list = [0u8; ROOM];
    let size = read_full(rt.stdin(), &mut list)?;
    if size == ROOM {
        return out.write_all(b"The list is too long for this program.\n");
    }
    compare_all(out, &list[..size])
}

// Reads until the room is full or the input ends, and answers how many bytes came. (The library's calls that read to the end take the heap.)
fn read_full(mut input: Stdin, room: &mut [u8]) -> io::Result<usize>
    ensures { IfOk result (λ count. count ≤ length room.new) }
{
    let mut count = 0;
    while count < room.len() {
        let more = input.read(&mut room[count..])?;
        if more == 0 {
            break;
        }
        count += more;
    }
    Ok(count)
}

fn compare_all(out: Stdout, mut list: &[u8]) -> io::Result<()> {
    let mut compared = 0u64;
    let mut differ = 0u64;
    while let Some((vector, rest)) = split_first(list) {
        compared += 1;
        if !agrees(out, compared, vector) {
            differ += 1;
        }
        list = rest;
    }
    if !list.is_empty() {
        out.write_all(b"The list is cut short.\n")?;
    }
    say_counts(out, compared, differ)
}

fn line_on(out: Stdout, bytes: &mut [u8]) -> Page<'_> {
    Page { out, bytes, end: 0 }
}

fn say_counts(out: Stdout, compared: u64, differ: u64) -> io::Result<()> {
    let mut room = [0u8; LINE];
    let mut line = line_on(out, &mut room);
    line.put_decimal(compared, 1);
    line.put_text(b" compared, ");
    line.put_decimal(differ, 1);
    line.put_text(b" differ.\n");
    out.write_all(line.front())
}

// The list's first vector, and what is behind it; none where the list ends before the vector does.
fn split_first(list: &[u8]) -> Option<(Vector<'_>, &[u8])>
    ensures { IfSome result (λ p. length p.1.now < length list.now) }
{
    let (count, rest) = list.split_first_chunk()?;
    let (bytes, rest) = rest.split_at_checked(u32::from_be_bytes(*count) as usize)?;
    let (crc, rest) = rest.split_first_chunk()?;
    let vector = Vector {
        bytes,
        crc: u32::from_be_bytes(*crc),
    };
    Some((vector, rest))
}

// Whether sum32 gives what the list has; it says so where not. A write that fails goes on failing, so that of the last line tells of it.
fn agrees(out: Stdout, number: u64, vector: Vector<'_>) -> bool {
    let found = mpegts_crc::sum32(vector.bytes);
    let listed = vector.crc;
    if found != listed {
        let _ = say_difference(out, number, found, listed);
    }
    found == listed
}

fn say_difference(out: Stdout, number: u64, found: u32, listed: u32) -> io::Result<()> {
    let mut room = [0u8; LINE];
    let mut line = line_on(out, &mut room);
    line.put_text(b"Vector ");
    line.put_decimal(number, 1);
    line.put_text(b": ");
    line.put_hexadecimal(u64::from(found), 8);
    line.put_text(b", and the list has ");
    line.put_hexadecimal(u64::from(listed), 8);
    line.put_text(b".\n");
    out.write_all(line.front())
}
