// The bodies of a PAT and a PMT: single entries, and walks from entry to entry until one is refused.
use crate::line::Page;
use answers::Answer;
use pat::{PatSection, ProgramDescriptor, ProgramRefusal};
use pmt::{PmtSection, StreamRefusal};

// What is put: all, or what the Rust crate shows, which has no positions but those of the parts.
#[derive(Clone, Copy, Debug, PartialEq, Eq)]
enum Detail {
    All,
    Shown,
}

pub fn put_program_at(position: usize, body: &[u8], page: &mut Page) {
    put_program(Detail::All, position, body, page);
}

pub fn put_programs(position: usize, body: &[u8], page: &mut Page) {
    put_program_walk(Detail::All, position, body, page);
}

pub fn put_pat(body: &[u8], page: &mut Page) {
    put_program_walk(Detail::Shown, 0, body, page);
}

pub fn put_stream_at(position: usize, body: &[u8], page: &mut Page) {
    put_stream(Detail::All, position, body, page);
}

pub fn put_streams(position: usize, body: &[u8], page: &mut Page) {
    put_stream_walk(Detail::All, position, body, page);
}

pub fn put_pmt_start(body: &[u8], page: &mut Page) {
    put_map(Detail::All, body, page);
}

pub fn put_pmt_streams(body: &[u8], page: &mut Page) {
    put_map_and_streams(Detail::All, body, page);
}

pub fn put_pmt(body: &[u8], page: &mut Page) {
    put_map_and_streams(Detail::Shown, body, page);
}

fn put_map_and_streams(detail: Detail, body: &[u8], page: &mut Page) {
    if let Some(position) = put_map(detail, body, page) {
        page.put_text(b" ");
        put_stream_walk(detail, position, body, page);
    }
}

fn put_program_walk(detail: Detail, position: usize, body: &[u8], page: &mut Page) {
    put_walk(
        |at, page| put_program(detail, at, body, page),
        position,
        body.len(),
        page,
    );
}

fn put_stream_walk(detail: Detail, position: usize, body: &[u8], page: &mut Page) {
    put_walk(
        |at, page| put_stream(detail, at, body, page),
        position,
        body.len(),
        page,
    );
}

// The walk of a host: from the position on, each next position handed back, until a refusal. One call more than the body has
// bytes is enough.
fn put_walk<F: Fn(usize, &mut Page) -> Option<usize>>(
    put_entry: F,
    position: usize,
    most: usize,
    page: &mut Page,
)
    requires { F.IsAlwaysCallable put_entry }
{
    let mut next = put_entry(position, page);
    for _ in 0..most {
        let Some(position) = next else {
            return;
        };
        page.put_text(b" ");
        next = put_entry(position, page);
    }
}

// Puts the entry at the position, and answers the next position. Where none fits, it puts why.
fn put_program(detail: Detail, position: usize, body: &[u8], page: &mut Page) -> Option<usize> {
    match PatSection::program_at(body, position) {
        Ok((program, next)) => {
            match detail {
                Detail::All => put_whole_program(program, next, page),
                Detail::Shown => put_shown_program(program, page),
            }
            Some(next)
        }
        Err(refusal) => {
            page.put_number(u64::from(refusal.number()));
            if let ProgramRefusal::Tail { offset } = refusal {
                put_position(detail, offset, page);
            }
            None
        }
    }
}

fn put_whole_program(program: ProgramDescriptor, next: usize, page: &mut Page) {
    match program {
        ProgramDescriptor::Network { pid } => {
            page.put_text(b"0 network");
            page.put_values(&[pid as u64, next as u64]);
        }
        ProgramDescriptor::Program {
            program_number,
            pid,
        } => {
            page.put_text(b"0 program");
            page.put_values(&[program_number as u64, pid as u64, next as u64]);
        }
    }
}

fn put_shown_program(program: ProgramDescriptor, page: &mut Page) {
    match program {
        ProgramDescriptor::Network { pid } => page.put_given(&[0, pid as u64]),
        ProgramDescriptor::Program {
            program_number,
            pid,
        } => page.put_given(&[program_number as u64, pid as u64]),
    }
}

fn put_stream(detail: Detail, position: usize, body: &[u8], page: &mut Page) -> Option<usize> {
    match PmtSection::stream_at(body, position) {
        Ok((stream, next)) => {
            page.put_given(&[
                stream.stream_type as u64,
                stream.elementary_pid as u64,
                stream.info.start as u64,
                stream.info.len as u64,
            ]);
            put_position(detail, next, page);
            Some(next)
        }
        Err(refusal) => {
            page.put_number(u64::from(refusal.number()));
            if let StreamRefusal::Under5 { offset }
            | StreamRefusal::InfoPastEnd { offset } = refusal
            {
                put_position(detail, offset, page);
            }
            None
        }
    }
}

// Puts the PMT's start, and answers where its streams start.
fn put_map(detail: Detail, body: &[u8], page: &mut Page) -> Option<usize> {
    match PmtSection::start(body) {
        Ok(map) => {
            page.put_given(&[map.pcr_pid as u64]);
            put_position(detail, map.descriptors.start, page);
            page.put_values(&[map.descriptors.len as u64, map.streams as u64]);
            Some(map.streams)
        }
        Err(short) => {
            page.put_number(u64::from(Answer::PMT_TOO_SHORT));
            page.put_values(&[short.needed as u64, short.actual as u64]);
            None
        }
    }
}

// A position that the Rust crate does not show.
fn put_position(detail: Detail, position: usize, page: &mut Page) {
    if detail == Detail::All {
        page.put_values(&[position as u64]);
    }
}
