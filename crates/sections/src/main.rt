// Prints the sections of one PID of a transport stream, as they come.
// `sections --help` says how it is asked and what it prints.
#![tactic(auto)]

mod input;
mod line;
mod lines;
mod names;
mod report;
mod run;
mod totals;
mod usage;
mod words;

use run::Run;
use std::alloc::Global;
use std::env::Env;
use std::fs::{File, Files};
use std::io;
use std::io::{ErrorKind, Read, Stderr, Stdin, Stdout};
use words::{Task, WORD, Words};

// Where the program reads and writes when no file is named, and what tells of its errors.
#[derive(Clone, Copy)]
struct Streams {
    input: Stdin,
    out: Stdout,
    err: Stderr,
    alloc: Global,
}

fn main(rt: HostRuntime) {
    let streams = Streams {
        input: rt.stdin(),
        out: rt.stdout(),
        err: rt.stderr(),
        alloc: rt.alloc(),
    };
    match words::asked(&rt) {
        Ok(Task::Sections(words)) => read(&rt, streams, words),
        Ok(Task::Help) => usage::help(streams.out),
        Err(wrong) => usage::complain(&rt, streams.err, wrong),
    }
}

fn read(rt: &(impl Env + Files), streams: Streams, words: Words) {
    let mut room = [0u8; WORD];
    read_path(rt, streams, words, words.path(rt, &mut room));
}

fn read_path(files: &impl Files, streams: Streams, words: Words, path: &[u8]) {
    match path {
        b"-" => {
            let mut input = streams.input;
            work(&mut input, streams, words, b"standard input");
        }
        _ => read_file(files, streams, words, path),
    }
}

fn read_file(files: &impl Files, streams: Streams, words: Words, path: &[u8]) {
    match open(files, path) {
        Ok(mut file) => work(&mut file, streams, words, path),
        Err(error) => streams.fail(path, error),
    }
}

// The library opens no file whose name is not UTF-8.
fn open<R: Files>(files: &R, path: &[u8]) -> io::Result<R::File> {
    match str::from_utf8(path) {
        Ok(path) => File::open(files, path),
        Err(_) => Err(io::Error::new(ErrorKind::InvalidFilename, "The name is not UTF-8")),
    }
}

fn work(input: &mut impl Read, streams: Streams, words: Words, name: &[u8]) {
    if let Err(error) = is_readable(input) {
        streams.fail(name, error);
        return;
    }
    let written = lines::put_heading(streams.out, words.pid, words.form);
    let mut run = Run::begun(streams.out, words, written);
    let read = run.work_all(input);
    finish(&mut run, read, streams, name);
}

// A read of no bytes finds a directory, before anything is printed.
fn is_readable(input: &mut impl Read) -> io::Result<()> {
    input.read(&mut [])?;
    Ok(())
}

// The input is over, or could not be read on: writes the totals, and says on standard error what was wrong.
fn finish(run: &mut Run, read: io::Result<()>, streams: Streams, name: &[u8]) {
    if let Err(error) = run.report.written {
        streams.fail(b"standard output", error);
        return;
    }
    if let Err(error) = read {
        streams.fail(name, error);
    }
    if let Err(error) = run.put_totals() {
        streams.fail(b"standard output", error);
    }
    if run.report.totals.packets == 0 {
        usage::say(streams.err, name, ": no packet found\n");
    }
}

impl Streams {
    // Says on standard error what the system says of it.
    fn fail(self, what: &[u8], error: io::Error) {
        usage::fail(self.err, self.alloc, what, error);
    }
}
