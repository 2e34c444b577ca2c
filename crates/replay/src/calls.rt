// The calls that only read. A request names one of them, or several with a comma between two.
use crate::arguments::Fault;
use crate::line::Page;
use crate::{adaptation_fields, bodies, crc, packets, sections};

// (An enum, not its function at once: all names of a line are looked up before the first answer is put.)
#[derive(Clone, Copy, Debug, PartialEq, Eq)]
enum Call {
    ProgramAt,
    StreamAt,
    Programs,
    Streams,
    PmtStart,
    PmtStreams,
    Pat,
    Pmt,
    Header,
    Payload,
    PayloadNumber,
    AdaptationField,
    Pcr,
    Opcr,
    SpliceCountdown,
    TransportPrivateData,
    SectionHeader,
    TableHeader,
    Body,
    Sum32,
}

impl TryFrom<&[u8]> for Call {
    type Error = Fault;

    fn try_from(name: &[u8]) -> Result<Call, Fault> {
        match name {
            b"program_at" => Ok(Call::ProgramAt),
            b"stream_at" => Ok(Call::StreamAt),
            b"programs" => Ok(Call::Programs),
            b"streams" => Ok(Call::Streams),
            b"pmt_start" => Ok(Call::PmtStart),
            b"pmt_streams" => Ok(Call::PmtStreams),
            b"pat" => Ok(Call::Pat),
            b"pmt" => Ok(Call::Pmt),
            b"header" => Ok(Call::Header),
            b"payload" => Ok(Call::Payload),
            b"payload_number" => Ok(Call::PayloadNumber),
            b"adaptation_field" => Ok(Call::AdaptationField),
            b"pcr" => Ok(Call::Pcr),
            b"opcr" => Ok(Call::Opcr),
            b"splice_countdown" => Ok(Call::SpliceCountdown),
            b"transport_private_data" => Ok(Call::TransportPrivateData),
            b"section_header" => Ok(Call::SectionHeader),
            b"table_header" => Ok(Call::TableHeader),
            b"body" => Ok(Call::Body),
            b"sum32" => Ok(Call::Sum32),
            _ => Err(Fault::NoCall),
        }
    }
}

impl Call {
    // Whether it is asked of a position and bytes, and not of bytes alone.
    fn takes_a_position(self) -> bool {
        matches!(
            self,
            Call::ProgramAt | Call::StreamAt | Call::Programs | Call::Streams
        )
    }

    fn put(self, position: usize, bytes: &[u8], page: &mut Page) {
        match self {
            Call::ProgramAt => bodies::put_program_at(position, bytes, page),
            Call::StreamAt => bodies::put_stream_at(position, bytes, page),
            Call::Programs => bodies::put_programs(position, bytes, page),
            Call::Streams => bodies::put_streams(position, bytes, page),
            Call::PmtStart => bodies::put_pmt_start(bytes, page),
            Call::PmtStreams => bodies::put_pmt_streams(bytes, page),
            Call::Pat => bodies::put_pat(bytes, page),
            Call::Pmt => bodies::put_pmt(bytes, page),
            Call::Header => packets::put_header(bytes, page),
            Call::Payload => packets::put_payload(bytes, page),
            Call::PayloadNumber => packets::put_payload_number(bytes, page),
            Call::AdaptationField => adaptation_fields::put_field(bytes, page),
            Call::Pcr => adaptation_fields::put_pcr(bytes, page),
            Call::Opcr => adaptation_fields::put_opcr(bytes, page),
            Call::SpliceCountdown => adaptation_fields::put_splice_countdown(bytes, page),
            Call::TransportPrivateData => adaptation_fields::put_private_data(bytes, page),
            Call::SectionHeader => sections::put_header(bytes, page),
            Call::TableHeader => sections::put_table_header(bytes, page),
            Call::Body => sections::put_body(bytes, page),
            Call::Sum32 => crc::put_sum32(bytes, page),
        }
    }
}

// Whether one of the calls of a list takes a position.
pub fn take_a_position(list: &[u8]) -> Result<bool, Fault> {
    let mut takes = false;
    for name in list.split(|letter| *letter == b',') {
        takes |= Call::try_from(name)?.takes_a_position();
    }
    Ok(takes)
}

// Puts the answers of the calls one behind the other.
pub fn put_all(list: &[u8], position: usize, bytes: &[u8], page: &mut Page) -> Result<(), Fault> {
    for (i, name) in list.split(|letter| *letter == b',').enumerate() {
        if i > 0 {
            page.put_text(b" ");
        }
        Call::try_from(name)?.put(position, bytes, page);
    }
    Ok(())
}
