// The lines of the report. The first word of a line says what it is; the number behind `section`, `refused` and `skipped` is the
// packet's, counted from 0. What puts several lines answers how the first was written: an output that fails goes on failing. (Output
// and packet's number are handed on as they are: two words, in six functions.)
use crate::line::{Line, ROOM};
use crate::names;
use answers::{Answer, Refusal};
use pat::{PatSection, ProgramDescriptor, ProgramRefusal};
use pmt::{PmtSection, StreamInfo, StreamRefusal, TooShort};
use psi::{Section, TableSyntaxHeader};
use reader::Form;
use std::io;
use std::io::Stdout;

const PAT: u8 = 0x00;

const PMT: u8 = 0x02;

// How many bytes stand in a line of bytes.
const ROW: usize = 16;

pub fn put_heading(out: Stdout, pid: u16, form: Form) -> io::Result<()> {
    let mut room = [0u8; ROOM];
    let mut line = Line::new(out, &mut room);
    line.put_text("sections of PID ");
    line.put_pid(pid, 1);
    line.put_text(", form ");
    line.put_text(names::of_form(form));
    line.put_text(
        "\n\n            packet  table         id  version  when     section     bytes\n",
    );
    line.write()
}

pub fn put_refused(out: Stdout, packet: u64, refusal: Refusal) -> io::Result<()> {
    let mut room = [0u8; ROOM];
    let mut line = Line::new(out, &mut room);
    line.put_text("refused ");
    line.put_number(packet, 10);
    line.put_text("  ");
    line.put_refusal(refusal);
    line.write()
}

pub fn put_skipped(out: Stdout, packet: u64, bytes: u64) -> io::Result<()> {
    let mut room = [0u8; ROOM];
    let mut line = Line::new(out, &mut room);
    line.put_text("skipped ");
    line.put_number(packet, 10);
    line.put_text("  ");
    line.put_number(bytes, 1);
    line.put_text(" bytes that are no packet\n");
    line.write()
}

// A delivered section: its line, and the entries of a PAT or PMT below it.
pub fn put_section(out: Stdout, packet: u64, form: Form, section: &[u8]) -> io::Result<()> {
    match Section::header(section) {
        Err(refusal) => put_refused(out, packet, refusal),
        Ok(header) => match form {
            Form::Compact => put_compact(out, packet, header.table_id, section.len()),
            Form::Full | Form::Once => put_full(out, packet, header.table_id, section),
        },
    }
}

// A COMPACT section has no table header.
fn put_compact(out: Stdout, packet: u64, table_id: u8, size: usize) -> io::Result<()> {
    let mut room = [0u8; ROOM];
    let mut line = Line::new(out, &mut room);
    line.put_table(packet, table_id);
    line.put_text("      -        -  -          -          ");
    line.put_number(size as u64, 5);
    line.put_text("\n");
    line.write()
}

fn put_full(out: Stdout, packet: u64, table_id: u8, section: &[u8]) -> io::Result<()> {
    match Section::table_header(section) {
        Err(refusal) => put_refused(out, packet, refusal),
        Ok(header) => {
            let written = put_table_header(out, packet, table_id, header, section.len());
            put_entries(out, table_id, section);
            written
        }
    }
}

fn put_table_header(
    out: Stdout,
    packet: u64,
    table_id: u8,
    header: TableSyntaxHeader,
    size: usize,
) -> io::Result<()> {
    let TableSyntaxHeader {
        id,
        version,
        current_next_indicator,
        section_number,
        last_section_number,
    } = header;
    let mut room = [0u8; ROOM];
    let mut line = Line::new(out, &mut room);
    line.put_table(packet, table_id);
    line.put_text("  ");
    line.put_number(u64::from(id), 5);
    line.put_text("  ");
    line.put_number(u64::from(version), 7);
    line.put_text("  ");
    line.put_name(names::of_current_next(current_next_indicator), 7);
    line.put_text("  ");
    line.put_number(u64::from(section_number), 3);
    line.put_text(" of ");
    line.put_number_left(u64::from(last_section_number), 3);
    line.put_text("  ");
    line.put_number(size as u64, 5);
    line.put_text("\n");
    line.write()
}

// A body lies within its section.
fn put_entries(out: Stdout, table_id: u8, section: &[u8]) {
    if let Ok(place) = Section::body(section)
        && let Some((_, behind)) = section.split_at_checked(place.start)
        && let Some((body, _)) = behind.split_at_checked(place.len)
    {
        put_body(out, table_id, body);
    }
}

fn put_body(out: Stdout, table_id: u8, body: &[u8]) {
    match table_id {
        PAT => put_programs(out, body),
        PMT => put_map(out, body),
        _ => {}
    }
}

fn put_map(out: Stdout, body: &[u8]) {
    match PmtSection::start(body) {
        Ok(map) => {
            let _ = put_clock(out, map);
            put_streams(out, body, map.streams);
        }
        Err(too_short) => {
            let _ = put_too_short(out, too_short);
        }
    }
}

fn put_too_short(out: Stdout, TooShort { needed, actual }: TooShort) -> io::Result<()> {
    let mut room = [0u8; ROOM];
    let mut line = Line::new(out, &mut room);
    line.put_stop(0, Answer::PMT_TOO_SHORT);
    line.put_text("PMT body too short, ");
    line.put_number(actual as u64, 1);
    line.put_text(" bytes of ");
    line.put_number(needed as u64, 1);
    line.put_text("\n");
    line.write()
}

fn put_clock(out: Stdout, map: PmtSection) -> io::Result<()> {
    let mut room = [0u8; ROOM];
    let mut line = Line::new(out, &mut room);
    line.put_text("  PCR     PID ");
    line.put_pid(map.pcr_pid, 4);
    line.put_info(map.descriptors.len);
    line.put_text("\n");
    line.write()
}

fn put_programs(out: Stdout, body: &[u8]) {
    put_walk(body, 0, |position| put_program_at(out, body, position));
}

fn put_streams(out: Stdout, body: &[u8], start: usize) {
    put_walk(body, start, |position| put_stream_at(out, body, position));
}

// The walk of a host: from the position on, each next position handed back, until a refusal. One call more than the body has
// bytes is enough.
fn put_walk<F: Fn(usize) -> Option<usize>>(body: &[u8], mut position: usize, put_entry: F)
    requires { F.IsAlwaysCallable put_entry }
{
    for _ in 0..=body.len() {
        let Some(next) = put_entry(position) else {
            return;
        };
        position = next;
    }
}

// Answers the next entry's position; none where the walk is over. One that is at the body's end is silent.
fn put_program_at(out: Stdout, body: &[u8], position: usize) -> Option<usize> {
    match PatSection::program_at(body, position) {
        Ok((program, next)) => {
            let _ = put_program(out, program);
            return Some(next);
        }
        Err(ProgramRefusal::Refused(Refusal::WalkAtEnd)) => {}
        Err(refusal) => {
            let offset = match refusal {
                ProgramRefusal::Tail { offset } => offset,
                ProgramRefusal::Refused(_) => position,
            };
            let _ = put_stop(
                out,
                offset,
                refusal.number(),
                names::of_program_refusal(refusal),
            );
        }
    }
    None
}

fn put_stream_at(out: Stdout, body: &[u8], position: usize) -> Option<usize> {
    match PmtSection::stream_at(body, position) {
        Ok((stream, next)) => {
            let _ = put_stream(out, stream);
            return Some(next);
        }
        Err(StreamRefusal::Refused(Refusal::WalkAtEnd)) => {}
        Err(refusal) => {
            let offset = match refusal {
                StreamRefusal::Under5 { offset } | StreamRefusal::InfoPastEnd { offset } => offset,
                StreamRefusal::Refused(_) => position,
            };
            let _ = put_stop(
                out,
                offset,
                refusal.number(),
                names::of_stream_refusal(refusal),
            );
        }
    }
    None
}

// A walk that stops before the body's end says where and why.
fn put_stop(out: Stdout, offset: usize, number: u8, meaning: &str) -> io::Result<()> {
    let mut room = [0u8; ROOM];
    let mut line = Line::new(out, &mut room);
    line.put_stop(offset, number);
    line.put_text(meaning);
    line.put_text("\n");
    line.write()
}

fn put_program(out: Stdout, program: ProgramDescriptor) -> io::Result<()> {
    let (name, number, pid) = match program {
        ProgramDescriptor::Network { pid } => ("  network ", 0, pid),
        ProgramDescriptor::Program {
            program_number,
            pid,
        } => ("  program ", program_number, pid),
    };
    let mut room = [0u8; ROOM];
    let mut line = Line::new(out, &mut room);
    line.put_text(name);
    line.put_number(u64::from(number), 5);
    line.put_text("  PID ");
    line.put_pid(pid, 4);
    line.put_text("\n");
    line.write()
}

fn put_stream(out: Stdout, stream: StreamInfo) -> io::Result<()> {
    let mut room = [0u8; ROOM];
    let mut line = Line::new(out, &mut room);
    line.put_text("  stream  PID ");
    line.put_pid(stream.elementary_pid, 4);
    line.put_info(stream.info.len);
    line.put_text("  type 0x");
    line.put_hexadecimal(u64::from(stream.stream_type), 2);
    line.put_text("  ");
    line.put_text(names::of_stream_type(stream.stream_type));
    line.put_text("\n");
    line.write()
}

// Bytes in lines of sixteen, each line with the place of its first.
pub fn put_bytes(out: Stdout, bytes: &[u8]) -> io::Result<()> {
    let mut room = [0u8; ROOM];
    let mut line = Line::new(out, &mut room);
    for (row, bytes) in bytes.chunks(ROW).enumerate() {
        line.put_text("  bytes   ");
        line.put_number((ROW * row) as u64, 5);
        line.put_text(" ");
        for &byte in bytes {
            line.put_text(" ");
            line.put_hexadecimal(u64::from(byte), 2);
        }
        line.put_text("\n");
    }
    line.write()
}
