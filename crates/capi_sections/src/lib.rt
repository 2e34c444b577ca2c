// The C face of sections: headers and body.
// (C's structs, so numbers beside one another: `capi_numbers` says how.)
#![tactic(auto)]

ghost use Rattle.std.specs.Prelude.{◌≡◌};
ghost use Rattle.psi.specs.Header.{header_of, table_header_of};
ghost use Rattle.psi.specs.Body.{body_of};
ghost use Rattle.capi_sections.specs.Sections.{section_header_for_c, table_header_for_c, part_for_c};

use capi_numbers::JambpepperPart;
use psi::Section;

#[repr(C)]
#[derive(Clone, Copy)]
pub struct JambpepperSectionHeader {
    pub section_length: u16,
    pub table_id: u8,
    pub section_syntax_indicator: u8,
    pub private_indicator: u8,
    pub answer: u8,
}

#[repr(C)]
#[derive(Clone, Copy)]
pub struct JambpepperTableHeader {
    pub id: u16,
    pub version: u8,
    pub current_next_indicator: u8,
    pub section_number: u8,
    pub last_section_number: u8,
    pub answer: u8,
}

#[unsafe(no_mangle)]
pub extern "C" fn jambpepper_section_header(section: &[u8]) -> JambpepperSectionHeader
    ensures { result ≡ section_header_for_c (header_of section.now) }
{
    match Section::header(section) {
        Ok(header) => JambpepperSectionHeader {
            section_length: header.section_length,
            table_id: header.table_id,
            section_syntax_indicator: header.section_syntax_indicator as u8,
            private_indicator: header.private_indicator as u8,
            answer: 0,
        },
        Err(refusal) => JambpepperSectionHeader {
            section_length: 0,
            table_id: 0,
            section_syntax_indicator: 0,
            private_indicator: 0,
            answer: refusal.number(),
        },
    }
}

#[unsafe(no_mangle)]
pub extern "C" fn jambpepper_table_header(section: &[u8]) -> JambpepperTableHeader
    ensures { result ≡ table_header_for_c (table_header_of section.now) }
{
    match Section::table_header(section) {
        Ok(header) => JambpepperTableHeader {
            id: header.id,
            version: header.version,
            current_next_indicator: header.current_next_indicator as u8,
            section_number: header.section_number,
            last_section_number: header.last_section_number,
            answer: 0,
        },
        Err(refusal) => JambpepperTableHeader {
            id: 0,
            version: 0,
            current_next_indicator: 0,
            section_number: 0,
            last_section_number: 0,
            answer: refusal.number(),
        },
    }
}

#[unsafe(no_mangle)]
pub extern "C" fn jambpepper_body(section: &[u8]) -> JambpepperPart
    ensures { result ≡ part_for_c (body_of section.now) }
{
    match Section::body(section) {
        Ok(place) => JambpepperPart {
            start: place.start,
            length: place.len,
            answer: 0,
        },
        Err(refusal) => JambpepperPart {
            start: 0,
            length: 0,
            answer: refusal.number(),
        },
    }
}
