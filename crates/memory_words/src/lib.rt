// What ONCE remembers, as words that a host lends beside the state: a step then reads and writes them where they are, and carries no memory.
#![tactic(auto)]

ghost use Rattle.std.specs.Prelude.{◌≡◌};
ghost use Rattle.labels.specs.Label.{label_of};
ghost use Rattle.memory.specs.Memory.{sound_memory, repeats, marks_for, remembering};
ghost use Rattle.memory_words.specs.Words.{numbers, numbers_in, five_of, words_of, memory_in, agree, put, written, remembers, words_after};

use answers::Answer;
use labels::Label;
use marks::Marks;
use memory::{Form, Memory};

// The memory of five words; of any other count it is none.
#[tactic(auto, using(fields::proofs::Choices::choices), unfolding(crate::specs::Words::memory_in))]
pub fn memory_of(words: &[u64]) -> Memory
    ensures { result ≡ memory_in words.now }
{
    let &[numbers, a, b, c, d] = words else {
        return Memory::none();
    };
    Memory {
        table_id: (numbers % 256) as u8,
        id: ((numbers >> 8) % 65536) as u16,
        version: ((numbers >> 25) % 256) as u8,
        current_next_indicator: (numbers >> 24) % 2 == 1,
        marks: Marks {
            words: [a, b, c, d],
        },
    }
}

// The four numbers of a table in one word.
#[tactic(auto, using(crate::proofs::Words::byte_is_1_or_0))]
fn numbers(table_id: u8, id: u16, current: bool, version: u8) -> u64
    ensures { result ≡ numbers table_id id current version }
{
    u64::from(table_id)
        + (u64::from(id) << 8)
        + (u64::from(current) << 24)
        + (u64::from(version) << 25)
}

fn numbers_in(label: Label) -> u64
    ensures { result ≡ numbers_in label }
{
    numbers(
        label.table_id,
        label.id,
        label.current_next_indicator,
        label.version,
    )
}

fn five_of(first: u64, marks: Marks) -> [u64; 5]
    ensures { result ≡ five_of first marks }
{
    let [a, b, c, d] = marks.words;
    [first, a, b, c, d]
}

pub fn words_of(memory: Memory) -> [u64; 5]
    ensures { result ≡ words_of memory }
{
    let first = numbers(
        memory.table_id,
        memory.id,
        memory.current_next_indicator,
        memory.version,
    );
    five_of(first, memory.marks)
}

// Whether the words are a sound memory of this form. (None is: the compiler, not told, makes a memory of it first.)
#[tactic(auto, using(fields::proofs::Choices::choices, memory::proofs::Remembering::nothing_remembered_sound), unfolding(crate::specs::Words::memory_in))]
pub fn are_sound(words: &[u64], form: Form) -> bool
    ensures { result ≡ sound_memory form (memory_in words.now) }
{
    words.len() != 5 || memory_of(words).is_sound(form)
}

// Whether the four numbers that these words remember are the label's, at one comparison, where `memory::Memory` makes four: these words are the step's, and four took longer.
#[tactic(auto, using(fields::proofs::Choices::choices, crate::proofs::Words::agree_at_once))]
fn agree(words: &[u64], label: Label) -> bool
    ensures { result ≡ agree words.now label }
{
    words.len() == 5 && words[0] % (1 << 33) == numbers_in(label)
}

// The marks that were put for the label's four numbers.
#[tactic(auto, using(crate::proofs::Words::marks_that_agree, crate::proofs::Words::marks_that_do_not))]
fn marks_for(words: &[u64], label: Label) -> Marks
    ensures { result ≡ marks_for (memory_in words.now) label }
{
    if agree(words, label) {
        memory_of(words).marks
    } else {
        Marks::none()
    }
}

// Whether a section that starts with these bytes is one that was delivered.
#[tactic(auto, using(memory::proofs::Remembering::marked_for), unfolding(memory::specs::Memory::repeats))]
pub fn repeats(words: &[u64], form: Form, bytes: &[u8]) -> bool
    ensures { result ≡ repeats form (memory_in words.now) bytes.now }
{
    match form {
        Form::Compact | Form::Full => false,
        Form::Once => {
            let label = Label::of(bytes);
            marks_for(words, label).marked(label.section_number)
        }
    }
}

// Writes five words.
#[tactic(auto, using(fields::proofs::Choices::choices), unfolding(crate::specs::Words::put))]
fn put(first: u64, marks: Marks, words: &mut [u64])
    ensures { words.new ≡ put first marks words.old }
{
    if words.len() == 5 {
        words.copy_from_slice(&five_of(first, marks));
    }
}

// Writes the four numbers of the delivered section, and its mark beside those that were put for the same four.
fn note(words: &mut [u64], section: &[u8])
    ensures { words.new ≡ written (remembering (memory_in words.old) (label_of section.now)) words.old }
{
    let label = Label::of(section);
    let marks = marks_for(words, label).with_mark(label.section_number);
    put(numbers_in(label), marks, words);
}

// Whether a step with this answer changes what these words remember: 2, 9 and 10 do, where there are five.
#[tactic(auto, using(fields::proofs::Choices::choices), unfolding(crate::specs::Words::remembers))]
pub fn remembers(words: &[u64], answer: u8) -> bool
    ensures { result ≡ remembers words.now answer }
{
    words.len() == 5
        && matches!(
            answer,
            Answer::DELIVERED | Answer::POINTER_BEYOND_REST | Answer::UNDER_3_BYTES
        )
}

// Writes what ONCE remembers after a step with this answer, which delivered this section.
#[tactic(auto, using(crate::proofs::Words::delivered_words, crate::proofs::Words::forgotten_words, crate::proofs::Words::other_answers))]
pub fn remember(words: &mut [u64], answer: u8, section: &[u8])
    ensures { words.new ≡ words_after answer words.old section.now }
{
    match answer {
        Answer::DELIVERED => note(words, section),
        Answer::POINTER_BEYOND_REST | Answer::UNDER_3_BYTES => put(0, Marks::none(), words),
        _ => {}
    }
}
