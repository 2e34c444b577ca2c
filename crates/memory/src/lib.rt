// The forms of a reader, and what the form ONCE remembers.
#![tactic(auto)]

ghost use Rattle.std.specs.Prelude.{◌≡◌};
ghost use Rattle.memory.specs.Memory.{no_memory, sound_memory, agrees};
ghost use Rattle.memory.specs.Memory.{marks_for, remembering, on_delivery, after_answer};

use answers::Answer;
use labels::Label;
use marks::Marks;

#[derive(Clone, Copy, PartialEq, Eq, Debug)]
pub enum Form {
    Compact,
    Full,
    Once,
}

// What ONCE remembers of the sections that it delivered: the four numbers that they have in common, and a mark for the number of each. All zero is none. (No
// Option: a host hands back any numbers, and those that are not sound are answered 25.)
#[derive(Clone, Copy, PartialEq, Eq, Debug)]
pub struct Memory {
    pub table_id: u8,
    pub id: u16,
    pub version: u8,
    pub current_next_indicator: bool,
    pub marks: Marks,
}

impl Memory {
    pub fn none() -> Self
        ensures { result ≡ no_memory }
    {
        Memory {
            table_id: 0,
            id: 0,
            version: 0,
            current_next_indicator: false,
            marks: Marks::none(),
        }
    }

    // Whether the four numbers are the label's.
    #[tactic(auto, using(fields::proofs::Choices::choices), unfolding(crate::specs::Memory::agrees))]
    fn agrees(self, label: Label) -> bool
        ensures { result ≡ agrees self label }
    {
        self.table_id == label.table_id
            && self.id == label.id
            && self.version == label.version
            && self.current_next_indicator == label.current_next_indicator
    }

    // The marks that were put for the label's four numbers.
    #[tactic(auto, using(fields::proofs::Choices::choices), unfolding(crate::specs::Memory::marks_for))]
    fn marks_for(self, label: Label) -> Marks
        ensures { result ≡ marks_for self label }
    {
        if self.agrees(label) {
            self.marks
        } else {
            Marks::none()
        }
    }

    // The four numbers of the section, and its mark beside those that were put for the same four.
    fn remembering(self, label: Label) -> Memory
        ensures { result ≡ remembering self label }
    {
        Memory {
            table_id: label.table_id,
            id: label.id,
            version: label.version,
            current_next_indicator: label.current_next_indicator,
            marks: self.marks_for(label).with_mark(label.section_number),
        }
    }

    #[tactic(auto, unfolding(crate::specs::Memory::on_delivery))]
    fn on_delivery(self, form: Form, section: &[u8]) -> Memory
        ensures { result ≡ on_delivery form self section.now }
    {
        match form {
            Form::Compact | Form::Full => self,
            Form::Once => self.remembering(Label::of(section)),
        }
    }

    // What is remembered after a step with this answer, which delivered this section.
    #[tactic(auto, using(fields::proofs::Choices::choices), unfolding(crate::specs::Memory::after_answer))]
    pub fn after(self, answer: u8, form: Form, section: &[u8]) -> Memory
        ensures { result ≡ after_answer answer form self section.now }
    {
        match answer {
            Answer::DELIVERED => self.on_delivery(form, section),
            Answer::POINTER_BEYOND_REST | Answer::UNDER_3_BYTES => Memory::none(),
            _ => self,
        }
    }

    #[tactic(auto, using(fields::proofs::Choices::choices), unfolding(crate::specs::Memory::sound_memory))]
    pub fn is_sound(self, form: Form) -> bool
        ensures { result ≡ sound_memory form self }
    {
        if self.marks.any() {
            form == Form::Once && self.version <= 31
        } else {
            self.agrees(Label::none())
        }
    }
}
