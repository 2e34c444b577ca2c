// What numbers mean, in words.
use answers::Refusal;
use pat::ProgramRefusal;
use pmt::StreamRefusal;
use reader::Form;

pub fn of_form(form: Form) -> &'static str {
    match form {
        Form::Compact => "COMPACT",
        Form::Full => "FULL",
        Form::Once => "ONCE",
    }
}

// A table of ISO/IEC 13818-1, - for any other.
pub fn of_table(table_id: u8) -> &'static str {
    match table_id {
        0x00 => "PAT",
        0x01 => "CAT",
        0x02 => "PMT",
        0x03 => "TSDT",
        _ => "-",
    }
}

// Whether a table holds now.
pub fn of_current_next(current_next_indicator: bool) -> &'static str {
    if current_next_indicator {
        "current"
    } else {
        "next"
    }
}

// Each refusal, by rising number.
pub const REFUSALS: [Refusal; 22] = [
    Refusal::PacketSize,
    Refusal::NoSyncByte,
    Refusal::BufferSize,
    Refusal::NoPayload,
    Refusal::PayloadEmpty,
    Refusal::PayloadBeyond,
    Refusal::PointerBeyondRest,
    Refusal::Under3Bytes,
    Refusal::SyntaxIndicator,
    Refusal::Under8Bytes,
    Refusal::LengthAbove1021,
    Refusal::AlreadyDelivered,
    Refusal::NoSectionOpen,
    Refusal::SectionUnder12,
    Refusal::CrcNotZero,
    Refusal::NoAdaptationField,
    Refusal::AdaptationFieldLength,
    Refusal::FlagClear,
    Refusal::FieldEndsBefore,
    Refusal::WalkAtEnd,
    Refusal::StateNotSound,
    Refusal::PositionAboveLength,
];

pub fn of_refusal(refusal: Refusal) -> &'static str {
    match refusal {
        Refusal::PacketSize => "packet not 188 bytes",
        Refusal::NoSyncByte => "no 0x47 where a packet starts",
        Refusal::BufferSize => "buffer not 1024 bytes",
        Refusal::NoPayload => "packet without payload",
        Refusal::PayloadEmpty => "payload start is 188",
        Refusal::PayloadBeyond => "payload start above 188",
        Refusal::PointerBeyondRest => "pointer beyond the rest of the payload",
        Refusal::Under3Bytes => "under 3 bytes of a section",
        Refusal::SyntaxIndicator => "syntax indicator not as the form needs it",
        Refusal::Under8Bytes => "under 8 bytes of a section",
        Refusal::LengthAbove1021 => "section length above 1021",
        Refusal::AlreadyDelivered => "already delivered",
        Refusal::NoSectionOpen => "no section open",
        Refusal::SectionUnder12 => "whole section under 12 bytes",
        Refusal::CrcNotZero => "CRC remainder not zero",
        Refusal::NoAdaptationField => "no adaptation field",
        Refusal::AdaptationFieldLength => "adaptation field length wrong",
        Refusal::FlagClear => "flag of an optional part clear",
        Refusal::FieldEndsBefore => "adaptation field ends before the part does",
        Refusal::WalkAtEnd => "walk at its end",
        Refusal::StateNotSound => "state not sound",
        Refusal::PositionAboveLength => "position above the body's length",
    }
}

pub fn of_program_refusal(refusal: ProgramRefusal) -> &'static str {
    match refusal {
        ProgramRefusal::Tail { .. } => "under 4 bytes of a PAT entry",
        ProgramRefusal::Refused(refusal) => of_refusal(refusal),
    }
}

pub fn of_stream_refusal(refusal: StreamRefusal) -> &'static str {
    match refusal {
        StreamRefusal::Under5 { .. } => "under 5 bytes of a stream entry",
        StreamRefusal::InfoPastEnd { .. } => "stream info past the end of the body",
        StreamRefusal::Refused(refusal) => of_refusal(refusal),
    }
}

// A stream type in short, after table 2-34 of Rec. ITU-T H.222.0 (06/2021) | ISO/IEC 13818-1; at most 23 letters.
pub fn of_stream_type(stream_type: u8) -> &'static str {
    match stream_type {
        0x00 => "reserved",
        0x01 => "MPEG-1 video, 11172-2",
        0x02 => "H.262 video, 13818-2",
        0x03 => "MPEG-1 audio, 11172-3",
        0x04 => "MPEG-2 audio, 13818-3",
        0x05 => "private sections",
        0x06 => "private data in PES",
        0x07 => "MHEG, 13522",
        0x08 => "DSM-CC, Annex A",
        0x09 => "H.222.1",
        0x0a => "DSM-CC type A, 13818-6",
        0x0b => "DSM-CC type B, 13818-6",
        0x0c => "DSM-CC type C, 13818-6",
        0x0d => "DSM-CC type D, 13818-6",
        0x0e => "auxiliary, 13818-1",
        0x0f => "AAC audio ADTS, 13818-7",
        0x10 => "MPEG-4 visual, 14496-2",
        0x11 => "AAC audio LATM, 14496-3",
        0x12 => "14496-1 in PES packets",
        0x13 => "14496-1 in sections",
        0x14 => "synchronized download",
        0x15 => "metadata in PES packets",
        0x16 => "metadata in sections",
        0x17 => "metadata data carousel",
        0x18 => "metadata obj. carousel",
        0x19 => "metadata download",
        0x1a => "IPMP, 13818-11",
        0x1b => "AVC video, H.264",
        0x1c => "audio alone, 14496-3",
        0x1d => "text, 14496-17",
        0x1e => "auxiliary video 23002-3",
        0x1f => "SVC video, H.264 G",
        0x20 => "MVC video, H.264 H",
        0x21 => "JPEG 2000 video, T.800",
        0x22 => "3D view, H.262",
        0x23 => "3D view, H.264",
        0x24 => "HEVC video, H.265",
        0x25 => "HEVC temporal subset",
        0x26 => "MVCD video, H.264 I",
        0x27 => "timeline, Annex T",
        0x28..=0x2b => "HEVC enhancement, H.265",
        0x2c => "green access units",
        0x2d => "MHAS audio, 23008-3",
        0x2e => "MHAS audio auxiliary",
        0x2f => "quality access units",
        0x30 => "media orchestration",
        0x31 => "HEVC tile set, H.265",
        0x32 => "JPEG XS video, 21122-2",
        0x33 => "VVC video, H.266",
        0x34 => "VVC temporal subset",
        0x35 => "EVC video, 23094-1",
        0x36..=0x7e => "reserved",
        0x7f => "IPMP",
        0x80..=0xff => "user private",
    }
}
