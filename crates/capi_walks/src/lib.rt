// The C face of the walks over PAT and PMT.
// (C's structs, so numbers beside one another: `capi_numbers` says how.)
#![tactic(auto)]

ghost use Rattle.std.specs.Prelude.{◌≡◌};
ghost use Rattle.pat.specs.Programs.{program_at};
ghost use Rattle.pmt.specs.Start.{start_of};
ghost use Rattle.pmt.specs.Streams.{stream_at};
ghost use Rattle.capi_walks.specs.Walks.{program_for_c, found_program, no_program, pmt_for_c, stream_for_c, no_stream};

use answers::Answer;
use pat::{PatSection, ProgramDescriptor, ProgramRefusal};
use pmt::{PmtSection, StreamRefusal, TooShort};

#[repr(C)]
#[derive(Clone, Copy)]
pub struct JambpepperProgram {
    pub next: usize,
    pub offset: usize,
    pub program_number: u16,
    pub pid: u16,
    pub answer: u8,
}

#[repr(C)]
#[derive(Clone, Copy)]
pub struct JambpepperPmt {
    pub descriptors_start: usize,
    pub descriptors_length: usize,
    pub streams: usize,
    pub needed: usize,
    pub actual: usize,
    pub pcr_pid: u16,
    pub answer: u8,
}

#[repr(C)]
#[derive(Clone, Copy)]
pub struct JambpepperStream {
    pub info_start: usize,
    pub info_length: usize,
    pub next: usize,
    pub offset: usize,
    pub elementary_pid: u16,
    pub stream_type: u8,
    pub answer: u8,
}

// An entry that was found.
fn found_program(program: ProgramDescriptor, next: usize) -> JambpepperProgram
    ensures { result ≡ found_program program next }
{
    match program {
        ProgramDescriptor::Network { pid } => JambpepperProgram {
            next,
            offset: 0,
            program_number: 0,
            pid,
            answer: 0,
        },
        ProgramDescriptor::Program {
            program_number,
            pid,
        } => JambpepperProgram {
            next,
            offset: 0,
            program_number,
            pid,
            answer: 0,
        },
    }
}

// An answer without one.
fn no_program(offset: usize, answer: u8) -> JambpepperProgram
    ensures { result ≡ no_program offset answer }
{
    JambpepperProgram {
        next: 0,
        offset,
        program_number: 0,
        pid: 0,
        answer,
    }
}

#[unsafe(no_mangle)]
pub extern "C" fn jambpepper_program_at(body: &[u8], position: usize) -> JambpepperProgram
    ensures { result ≡ program_for_c (program_at body.now position) }
{
    match PatSection::program_at(body, position) {
        Ok((program, next)) => found_program(program, next),
        Err(ProgramRefusal::Tail { offset }) => no_program(offset, Answer::PAT_TAIL),
        Err(ProgramRefusal::Refused(refusal)) => no_program(0, refusal.number()),
    }
}

#[unsafe(no_mangle)]
pub extern "C" fn jambpepper_pmt_start(body: &[u8]) -> JambpepperPmt
    ensures { result ≡ pmt_for_c (start_of body.now) }
{
    match PmtSection::start(body) {
        Ok(section) => {
            JambpepperPmt {
                descriptors_start: section.descriptors.start,
                descriptors_length: section.descriptors.len,
                streams: section.streams,
                needed: 0,
                actual: 0,
                pcr_pid: section.pcr_pid,
                answer: 0,
            }
        }
        Err(TooShort { needed, actual }) => JambpepperPmt {
            descriptors_start: 0,
            descriptors_length: 0,
            streams: 0,
            needed,
            actual,
            pcr_pid: 0,
            answer: Answer::PMT_TOO_SHORT,
        },
    }
}

// An answer without a stream.
fn no_stream(offset: usize, answer: u8) -> JambpepperStream
    ensures { result ≡ no_stream offset answer }
{
    JambpepperStream {
        info_start: 0,
        info_length: 0,
        next: 0,
        offset,
        elementary_pid: 0,
        stream_type: 0,
        answer,
    }
}

#[unsafe(no_mangle)]
pub extern "C" fn jambpepper_stream_at(body: &[u8], position: usize) -> JambpepperStream
    ensures { result ≡ stream_for_c (stream_at body.now position) }
{
    match PmtSection::stream_at(body, position) {
        Ok((stream, next)) => {
            JambpepperStream {
                info_start: stream.info.start,
                info_length: stream.info.len,
                next,
                offset: 0,
                elementary_pid: stream.elementary_pid,
                stream_type: stream.stream_type,
                answer: 0,
            }
        }
        Err(StreamRefusal::Under5 { offset }) => no_stream(offset, Answer::STREAM_UNDER_5),
        Err(StreamRefusal::InfoPastEnd { offset }) => no_stream(offset, Answer::INFO_PAST_END),
        Err(StreamRefusal::Refused(refusal)) => no_stream(0, refusal.number()),
    }
}
