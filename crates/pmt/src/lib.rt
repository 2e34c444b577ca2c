// The start of a PMT's body, and the walk over its streams. The crate's src/psi/pmt.rs.
#![tactic(auto)]

ghost use Rattle.std.specs.Prelude.{◌≡◌};
ghost use Rattle.pmt.specs.Start.{start_says, start_of};
ghost use Rattle.pmt.specs.Streams.{refusal_says, stream_says, stream_at};
ghost use Rattle.pmt.specs.declared.StreamRefusal.TheVariants.{Refused};

use answers::{Answer, Refusal};
use fields::word;
use psi::Place;
use walks::left_at;

// What a body begins with: the PCR PID, where the programme's descriptors lie, and where the streams start.
#[derive(Clone, Copy)]
pub struct PmtSection {
    pub pcr_pid: u16,
    pub descriptors: Place,
    pub streams: usize,
}

// Why there is none: 22, the length that is needed and the body's own.
#[derive(Clone, Copy, PartialEq, Eq, Debug)]
pub struct TooShort {
    pub needed: usize,
    pub actual: usize,
}

#[derive(Clone, Copy)]
pub struct StreamInfo {
    pub stream_type: u8,
    pub elementary_pid: u16,
    pub info: Place,
}

// Why there is no stream: 27 or 28, and the offset in the body of the entry of which under 5 bytes are left, or whose info passes the end; or 23, 26.
// (An error of its own, as a PAT's: `pat::ProgramRefusal` says why.)
#[derive(Clone, Copy, PartialEq, Eq, Debug)]
pub enum StreamRefusal {
    Under5 { offset: usize },
    InfoPastEnd { offset: usize },
    Refused(Refusal),
}

impl From<Refusal> for StreamRefusal {
    ghost from_gives = { λ why no_stream. no_stream ≡ Refused why };

    fn from(why: Refusal) -> StreamRefusal {
        StreamRefusal::Refused(why)
    }
}

impl StreamRefusal {
    pub fn number(self) -> u8
        ensures { result ≡ (refusal_says self).number }
    {
        match self {
            StreamRefusal::Under5 { .. } => Answer::STREAM_UNDER_5,
            StreamRefusal::InfoPastEnd { .. } => Answer::INFO_PAST_END,
            StreamRefusal::Refused(refusal) => refusal.number(),
        }
    }
}

impl StreamInfo {
    pub const HEADER_SIZE: usize = 5;
}

impl PmtSection {
    pub const HEADER_SIZE: usize = 4;

    pub fn start(body: &[u8]) -> Result<PmtSection, TooShort>
        ensures { start_says result ≡ start_of body.now }
    {
        let actual = body.len();
        if actual < PmtSection::HEADER_SIZE {
            let needed = PmtSection::HEADER_SIZE;
            return Err(TooShort { needed, actual });
        }
        let bits = word(body, 0, PmtSection::HEADER_SIZE);
        let program_info_length = (bits % 4096) as usize;
        let needed = PmtSection::HEADER_SIZE + program_info_length;
        if actual < needed {
            return Err(TooShort { needed, actual });
        }
        let pcr_pid = ((bits >> 16) % 8192) as u16;
        let descriptors = Place {
            start: PmtSection::HEADER_SIZE,
            len: program_info_length,
        };
        Ok(PmtSection {
            pcr_pid,
            descriptors,
            streams: needed,
        })
    }

    // The stream at a position of a body, and the position behind it. A host starts where the streams do and hands each next position back.
    pub fn stream_at(body: &[u8], position: usize) -> Result<(StreamInfo, usize), StreamRefusal>
        ensures { stream_says result ≡ stream_at body.now position }
    {
        let left = left_at(body, position)?;
        if left < StreamInfo::HEADER_SIZE {
            return Err(StreamRefusal::Under5 { offset: position });
        }
        let bits = word(body, position, StreamInfo::HEADER_SIZE);
        let es_info_length = (bits % 4096) as usize;
        if left - StreamInfo::HEADER_SIZE < es_info_length {
            return Err(StreamRefusal::InfoPastEnd { offset: position });
        }
        let stream_type = ((bits >> 32) % 256) as u8;
        let elementary_pid = ((bits >> 16) % 8192) as u16;
        let start = position + StreamInfo::HEADER_SIZE;
        let next = start + es_info_length;
        let info = Place {
            start,
            len: es_info_length,
        };
        let stream = StreamInfo {
            stream_type,
            elementary_pid,
            info,
        };
        Ok((stream, next))
    }
}
