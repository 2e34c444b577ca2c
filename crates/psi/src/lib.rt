// A section: its header, its table header, and where its body lies. The crate's src/psi/mod.rs.
#![tactic(auto)]

ghost use Rattle.std.specs.Prelude.{◌≡◌};
ghost use Rattle.psi.specs.Header.{header_says, header_of, table_header_says, table_header_of};
ghost use Rattle.psi.specs.Body.{body_says, body_of};

use answers::Refusal;
use fields::word;

#[derive(Drop)]
pub struct Section;

// What every section begins with.
#[derive(Clone, Copy)]
pub struct SectionCommonHeader {
    pub table_id: u8,
    pub section_syntax_indicator: bool,
    pub private_indicator: bool,
    pub section_length: u16,
}

// What follows it in a section whose syntax indicator is set. The indicator is set for current, clear for next.
#[derive(Clone, Copy)]
pub struct TableSyntaxHeader {
    pub id: u16,
    pub version: u8,
    pub current_next_indicator: bool,
    pub section_number: u8,
    pub last_section_number: u8,
}

// A part of the bytes that a call was lent: so many from there on.
#[derive(Clone, Copy)]
pub struct Place {
    pub start: usize,
    pub len: usize,
}

impl SectionCommonHeader {
    pub const SIZE: usize = 3;
}

impl TableSyntaxHeader {
    pub const SIZE: usize = 5;
}

impl Section {
    // The largest section_length that is taken.
    pub const LENGTH_LIMIT: u16 = 1021;

    pub const HEADERS_SIZE: usize = SectionCommonHeader::SIZE + TableSyntaxHeader::SIZE;

    pub const CRC_SIZE: usize = 4;

    // The header of bytes that begin as a section does, or 10.
    pub fn header(bytes: &[u8]) -> Result<SectionCommonHeader, Refusal>
        ensures { header_says result ≡ header_of bytes.now }
    {
        if bytes.len() < SectionCommonHeader::SIZE {
            return Err(Refusal::Under3Bytes);
        }
        let bits = word(bytes, 0, SectionCommonHeader::SIZE);
        Ok(SectionCommonHeader {
            table_id: ((bits >> 16) % 256) as u8,
            section_syntax_indicator: (bits >> 15) % 2 == 1,
            private_indicator: (bits >> 14) % 2 == 1,
            section_length: (bits % 4096) as u16,
        })
    }

    // The table header, or 12.
    pub fn table_header(section: &[u8]) -> Result<TableSyntaxHeader, Refusal>
        ensures { table_header_says result ≡ table_header_of section.now }
    {
        if section.len() < Section::HEADERS_SIZE {
            return Err(Refusal::Under8Bytes);
        }
        let bits = word(section, SectionCommonHeader::SIZE, TableSyntaxHeader::SIZE);
        Ok(TableSyntaxHeader {
            id: ((bits >> 24) % 65536) as u16,
            version: ((bits >> 17) % 32) as u8,
            current_next_indicator: (bits >> 16) % 2 == 1,
            section_number: ((bits >> 8) % 256) as u8,
            last_section_number: (bits % 256) as u8,
        })
    }

    // Where the body lies, or 16.
    #[tactic(auto, using(fields::proofs::Choices::choices), unfolding(crate::specs::Body::body_of))]
    pub fn body(section: &[u8]) -> Result<Place, Refusal>
        ensures { body_says result ≡ body_of section.now }
    {
        if section.len() < Section::HEADERS_SIZE + Section::CRC_SIZE {
            return Err(Refusal::SectionUnder12);
        }
        let start = Section::HEADERS_SIZE;
        let end = section.len() - Section::CRC_SIZE;
        let len = end - start;
        Ok(Place { start, len })
    }
}
