// What a section says of itself: which table it is of, and which of its sections.
#![tactic(auto)]

ghost use Rattle.std.specs.Prelude.{◌≡◌};
ghost use Rattle.labels.specs.Label.{table_id_of, table_of, label_of, no_label};

use psi::{Section, TableSyntaxHeader};

#[derive(Clone, Copy)]
pub struct Label {
    pub table_id: u8,
    pub id: u16,
    pub version: u8,
    pub current_next_indicator: bool,
    pub section_number: u8,
}

// The table id, or 0 where there is no header.
fn table_id(section: &[u8]) -> u8
    ensures { result ≡ table_id_of section.now }
{
    match Section::header(section) {
        Ok(header) => header.table_id,
        Err(_) => 0,
    }
}

// The table header, or zeros where there is none. (With `unwrap_or_default` the proof did not close: the derive says zero field by field.)
fn table(section: &[u8]) -> TableSyntaxHeader
    ensures { result ≡ table_of section.now }
{
    match Section::table_header(section) {
        Ok(header) => header,
        Err(_) => TableSyntaxHeader {
            id: 0,
            version: 0,
            current_next_indicator: false,
            section_number: 0,
            last_section_number: 0,
        },
    }
}

impl Label {
    // All zero.
    pub fn none() -> Self
        ensures { result ≡ no_label }
    {
        Label {
            table_id: 0,
            id: 0,
            version: 0,
            current_next_indicator: false,
            section_number: 0,
        }
    }

    #[tactic(auto, unfolding(crate::specs::Label::label_of))]
    pub fn of(section: &[u8]) -> Label
        ensures { result ≡ label_of section.now }
    {
        let header = table(section);
        Label {
            table_id: table_id(section),
            id: header.id,
            version: header.version,
            current_next_indicator: header.current_next_indicator,
            section_number: header.section_number,
        }
    }
}
