// How the program is asked, and what it says on standard error. What cannot be said there is not said.
use crate::words::{WORD, Wrong, word_at};
use std::alloc::Global;
use std::env::Env;
use std::io;
use std::io::{Print, Stderr, Stdout};

const HELP: &str = "\
sections [--pid N] [--form compact|full|once] [--all] [--hex] [FILE|-]

Prints the sections that a reader of one PID delivers, as they come, from a
transport stream in FILE, or on standard input where that is - or missing.

--pid N     the PID, 0 to 8191, or 0x0 to 0x1fff; 0, the PAT's, if not given
--form F    full: sections with table header, the CRC tested (if not given)
            once: as full, but a section that was already delivered is refused
            compact: sections without table header, no CRC
--all       print refusals as they come
--hex       print the bytes of each section

The first word of a line says what it is:

section     the packet that ended it (from 0 on), its table, id and version,
            whether that holds now (current) or later (next), its number of the
            last number (both from 0), its length; - for what it lacks
network     in a PAT: 0, and the PID of the network's table
program     in a PAT: a program, and the PID of its PMT
PCR         in a PMT: the PID of the clock, and the bytes of program info
stream      in a PMT: a stream's PID, the bytes of its info, its type
stopped     where (the body begins at byte 8) and why the entries end early
bytes       of the section (--hex), with the place of the first
refused     (--all) the packet, the number of the answer and its meaning
skipped     the number of the next packet, and the bytes skipped before it
total       at the end: how many, and of what

PIDs are in decimal and hexadecimal, tables and types in hexadecimal only.
A packet without its 0x47 is refused (4) where the next one has its own; else
bytes are skipped up to where 0x47 stands twice, 188 bytes apart.
Errors go to standard error. The exit status is 0 whatever happens.
";

pub fn say(err: Stderr, what: &[u8], why: &str) {
    let _ = err.write_all(b"sections: ");
    let _ = err.write_all(what);
    let _ = err.write_all(why.as_bytes());
}

// What the system says of it.
pub fn fail(err: Stderr, alloc: Global, what: &[u8], error: io::Error) {
    say(err, what, ": ");
    let _ = match format!(in alloc; "{error}") {
        Ok(text) => err.write_all(without_number(text.as_str()).as_bytes()),
        Err(_) => err.write_all(b"out of memory"),
    };
    let _ = err.write_all(b"\n");
}

// An error is printed with its number behind it.
fn without_number(text: &str) -> &str {
    match text.split_once(" (os error ") {
        Some((meaning, _)) => meaning,
        None => text,
    }
}

// What is wrong with which word.
pub fn complain(env: &impl Env, err: Stderr, wrong: Wrong) {
    let mut room = [0u8; WORD];
    say(
        err,
        word_at(env, wrong.at, &mut room),
        wrong.fault.meaning(),
    );
    let _ = err.write_all(
        b"\nusage: sections [--pid N] [--form compact|full|once] [--all] [--hex] [FILE|-]\n",
    );
}

pub fn help(out: Stdout) {
    let _ = out.write_all(HELP.as_bytes());
}
