// A section's header, table header and body.
use crate::line::Page;
use psi::Section;

pub fn put_header(bytes: &[u8], page: &mut Page) {
    page.put_answer(Section::header(bytes).map(|header| {
        [
            header.table_id as u64,
            header.section_syntax_indicator as u64,
            header.private_indicator as u64,
            header.section_length as u64,
        ]
    }));
}

pub fn put_table_header(section: &[u8], page: &mut Page) {
    page.put_answer(Section::table_header(section).map(|header| {
        [
            header.id as u64,
            header.version as u64,
            header.current_next_indicator as u64,
            header.section_number as u64,
            header.last_section_number as u64,
        ]
    }));
}

pub fn put_body(section: &[u8], page: &mut Page) {
    page.put_answer(Section::body(section).map(|place| [place.start as u64, place.len as u64]));
}
