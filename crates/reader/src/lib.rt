// The reader: its state, and the tail and head step that gather sections from packets. The crate's src/psi/mod.rs.
#![tactic(auto)]

ghost use Rattle.std.specs.Prelude.{◌≡◌, true, ◌+◌, ◌≤◌, ◌<◌, length, drop};
ghost use Rattle.memory.specs.declared.Memory.{Memory};
ghost use Rattle.memory_words.specs.Words.{memory_in};
ghost use Rattle.fields.specs.Laid.{laid};
ghost use Rattle.packet.specs.Header.{size};
ghost use Rattle.answers.specs.Numbers.{bytes_kept};
ghost use Rattle.psi.specs.Header.{wanted};
ghost use Rattle.gathering_rules.specs.Checks.{buffer_length};
ghost use Rattle.reader.specs.State.{sound_counts, sound, fresh, gathering_of};
ghost use Rattle.reader.specs.Outcome.{outcome, step_says, number_said, place_said};
ghost use Rattle.reader.specs.Gathering.{with_memory, idling, opening, telling, answering, gathering_step_says, gathered, gathered_of, without_memory, remembered};
ghost use Rattle.reader.specs.Pointer.{pointer_of};
ghost use Rattle.reader.specs.Whole.{whole};
ghost use Rattle.reader.specs.Tail.{continued, tail_from, tail_of};
ghost use Rattle.reader.specs.Head.{begun, started, head_from, head_of};

use answers::{Answer, Refusal};
pub use delivered::{Holder, Place, section};
use fields::word;
use gathering_rules::{Buffer, checked, least_held, test_start, verdict};
pub use marks::Marks;
pub use memory::{Form, Memory};
use memory_words::{are_sound, words_of};
use psi::Section;

// The state. (A flag and two counts, no Option of counts: a host hands back any of them, and a state that is not sound is answered 25 and given back.)
#[derive(Clone, Copy)]
pub struct Reader {
    pub form: Form,
    pub memory: Memory,
    pub is_open: bool,
    pub held: u16,
    pub wanted: u16,
}

// What a step does that nothing refuses: 0, 1, or 2 with the place of the delivered section.
#[derive(Clone, Copy)]
pub enum Progress {
    NothingForThisStep,
    BytesKept,
    Delivered(Place),
}

// A step's answer, and the state after it.
#[derive(Clone, Copy)]
pub struct Step {
    pub reader: Reader,
    pub answer: Result<Progress, Refusal>,
}

// The state without its memory. A step changes the memory by its answer alone, so what a step does inside carries this: with counts of two bytes it goes in
// registers.
#[derive(Clone, Copy)]
pub struct Gathering {
    pub form: Form,
    pub is_open: bool,
    pub held: u16,
    pub wanted: u16,
}

// A step's answer without the memory.
#[derive(Clone, Copy)]
pub struct GatheringStep {
    pub gathering: Gathering,
    pub answer: Result<Progress, Refusal>,
}

// What the payload's first byte says. (No Result: a pointer beyond the rest ends the section that is open too, and three cases read as the rule does.)
#[derive(Clone, Copy)]
pub enum Pointer {
    NoUnitStart,
    To(usize),
    BeyondRest,
}

// The number of a step's answer.
pub fn number(answer: Result<Progress, Refusal>) -> u8
    ensures { result ≡ number_said answer }
{
    match answer {
        Ok(Progress::NothingForThisStep) => Answer::NOTHING_FOR_THIS_STEP,
        Ok(Progress::BytesKept) => Answer::BYTES_KEPT,
        Ok(Progress::Delivered(_)) => Answer::DELIVERED,
        Err(refusal) => refusal.number(),
    }
}

// The place of the section that a step delivered; nowhere in any other answer.
pub fn place(answer: Result<Progress, Refusal>) -> Place
    ensures { result ≡ place_said answer }
{
    match answer {
        Ok(Progress::Delivered(place)) => place,
        _ => Place {
            holder: Holder::Nowhere,
            start: 0,
            len: 0,
        },
    }
}

impl Reader {
    // The lent buffer's length.
    pub const BUFFER_SIZE: usize = Buffer::SIZE;

    // A reader of this form that has read nothing.
    pub fn fresh(form: Form) -> Self
        ensures { result ≡ fresh form }
    {
        Reader {
            form,
            memory: Memory::none(),
            is_open: false,
            held: 0,
            wanted: 0,
        }
    }

    fn gathering(self) -> Gathering
        ensures { result ≡ gathering_of self }
    {
        Gathering {
            form: self.form,
            is_open: self.is_open,
            held: self.held,
            wanted: self.wanted,
        }
    }

    #[tactic(auto, using(fields::proofs::Choices::choices), unfolding(crate::specs::State::sound))]
    pub fn is_sound(self) -> bool
        ensures { result ≡ sound self }
    {
        self.memory.is_sound(self.form) && self.gathering().counts_are_sound()
    }
}

impl Gathering {
    #[tactic(auto, using(fields::proofs::Choices::choices), unfolding(crate::specs::State::sound_counts))]
    fn counts_are_sound(self) -> bool
        ensures { result ≡ sound_counts self }
    {
        if self.is_open {
            least_held(self.form) <= self.held
                && self.held < self.wanted
                && usize::from(self.wanted) <= Reader::BUFFER_SIZE
        } else {
            self.held == 0 && self.wanted == 0
        }
    }

    // Whether it is sound, with what these words remember.
    #[tactic(auto, using(fields::proofs::Choices::choices), unfolding(crate::specs::State::sound))]
    fn is_sound(self, memory: &[u64]) -> bool
        ensures { result ≡ sound (with_memory (memory_in memory.now) self) }
    {
        are_sound(memory, self.form) && self.counts_are_sound()
    }
}

impl GatheringStep {
    // A step that leaves the reader idle.
    fn ended(answer: Result<Progress, Refusal>, form: Form) -> Self
        ensures { gathering_step_says result ≡ telling answer (idling form) }
    {
        GatheringStep {
            gathering: Gathering {
                form,
                is_open: false,
                held: 0,
                wanted: 0,
            },
            answer,
        }
    }

    // One that leaves it open.
    fn kept(form: Form, held: u16, wanted: u16) -> Self
        ensures { gathering_step_says result ≡ answering bytes_kept (opening form held wanted) }
    {
        GatheringStep {
            gathering: Gathering {
                form,
                is_open: true,
                held,
                wanted,
            },
            answer: Ok(Progress::BytesKept),
        }
    }

    // The step of a reader that remembered this, and that delivered this section.
    fn remembered(self, memory: Memory, section: &[u8]) -> Step
        ensures { step_says result ≡ remembered memory (gathering_step_says self) section.now }
    {
        let GatheringStep { gathering, answer } = self;
        let Gathering {
            form,
            is_open,
            held,
            wanted,
        } = gathering;
        Step {
            reader: Reader {
                form,
                memory: memory.after(number(answer), form, section),
                is_open,
                held,
                wanted,
            },
            answer,
        }
    }
}

// What the pointer says in a packet whose payload starts there.
fn pointer_at(packet: &[u8], start: usize) -> Pointer
    requires { (length packet.now ≡ size) × (start < size) }
    ensures { result ≡ pointer_of packet.now start }
{
    if (word(packet, 0, 4) >> 22) % 2 != 1 {
        return Pointer::NoUnitStart;
    }
    let to = (word(packet, start, 1) % 256) as usize;
    if 0 < to && packet.len() - start - 1 <= to {
        return Pointer::BeyondRest;
    }
    Pointer::To(to)
}

// Lays the bytes into the buffer, from the place `at` on. (Byte by byte: `copy_from_slice` calls `memmove`, and the archive for C calls nothing of the host's.)
fn lay(buffer: &mut [u8], at: usize, bytes: &[u8])
    requires { at + length bytes.now ≤ length buffer.old }
    ensures { buffer.new ≡ laid buffer.old at bytes.now }
{
    for i in 0..bytes.len() {
        buffer[at + i] = bytes[i];
    }
}

// How a whole section that lies there ends.
#[tactic(auto, using(fields::proofs::Choices::choices), unfolding(crate::specs::Whole::whole))]
fn whole(form: Form, place: Place, section: &[u8]) -> GatheringStep
    ensures { (memory : Memory) → gathering_step_says result ≡ without_memory (whole form memory place section.now) }
{
    match verdict(form, section) {
        Ok(()) => GatheringStep::ended(Ok(Progress::Delivered(place)), form),
        Err(refusal) => GatheringStep::ended(Err(refusal), form),
    }
}

impl Gathering {
    // The bytes continue the open section.
    fn continued(self, bytes: &[u8], buffer: &mut [u8]) -> GatheringStep
        requires { (length buffer.old ≡ buffer_length) × (sound_counts self ≡ true) }
        ensures { (memory : Memory) → gathered (gathering_step_says result) buffer.new ≡ gathered_of (continued (with_memory memory self) bytes.now buffer.old) }
    {
        let form = self.form;
        if !self.is_open {
            return GatheringStep::ended(Err(Refusal::NoSectionOpen), form);
        }
        let held = self.held as usize;
        let wanted = self.wanted as usize;
        let missing = wanted - held;
        if bytes.len() < missing {
            lay(buffer, held, bytes);
            let more = (held + bytes.len()) as u16;
            return GatheringStep::kept(form, more, self.wanted);
        }
        lay(buffer, held, &bytes[..missing]);
        let place = Place {
            holder: Holder::Buffer,
            start: 0,
            len: self.wanted,
        };
        whole(form, place, &buffer[..wanted])
    }

    // The tail step on a payload that starts there.
    fn tail_from(self, packet: &[u8], start: usize, buffer: &mut [u8]) -> GatheringStep
        requires { (length packet.now ≡ size) × (start < size) × (length buffer.old ≡ buffer_length) × (sound_counts self ≡ true) }
        ensures { (memory : Memory) → gathered (gathering_step_says result) buffer.new ≡ gathered_of (tail_from (with_memory memory self) packet.now (drop start packet.now) buffer.old) }
    {
        match pointer_at(packet, start) {
            Pointer::NoUnitStart => self.continued(&packet[start..], buffer),
            Pointer::To(to) => {
                if to == 0 {
                    return GatheringStep {
                        gathering: self,
                        answer: Ok(Progress::NothingForThisStep),
                    };
                }
                let from = start + 1;
                let end = from + to;
                self.continued(&packet[from..end], buffer)
            }
            Pointer::BeyondRest => {
                GatheringStep::ended(Err(Refusal::PointerBeyondRest), self.form)
            }
        }
    }

    // The tail step, where what is remembered is lent as words; `memory_words::remember` writes what ONCE remembers after it.
    // (Beside `head_with`: two contracts over two definitions.)
    pub fn tail_with(self, memory: &[u64], packet: &[u8], buffer: &mut [u8]) -> GatheringStep
        ensures { gathered (gathering_step_says result) buffer.new ≡ gathered_of (tail_of (with_memory (memory_in memory.now) self) packet.now buffer.old) }
    {
        let payload = checked(self.is_sound(memory), packet, buffer.len());
        let Ok(start) = payload else {
            // (It is a refusal here, and `and` hands it on.)
            return GatheringStep {
                gathering: self,
                answer: payload.and(Ok(Progress::NothingForThisStep)),
            };
        };
        self.tail_from(packet, start, buffer)
    }
}

// The memory as words that are lent to a step.
fn as_words(memory: Memory) -> [u64; 5]
    ensures { memory_in result ≡ memory }
{
    words_of(memory)
}

impl Reader {
    // The tail step: what the packet holds of the section that is open.
    pub fn tail(self, packet: &[u8], buffer: &mut [u8]) -> Step
        ensures { outcome (step_says result) buffer.new ≡ tail_of self packet.now buffer.old }
    {
        let words = as_words(self.memory);
        let step = self.gathering().tail_with(&words, packet, buffer);
        let end = place(step.answer).len as usize;
        step.remembered(self.memory, &buffer[..end])
    }
}

// How many bytes a section has that has its header.
fn wanted(section: &[u8]) -> u16
    requires { 3 ≤ length section.now }
    ensures { result ≡ wanted section.now }
{
    match Section::header(section) {
        Ok(header) => 3 + header.section_length,
        Err(_) => 0,
    }
}

// A section starts with these bytes, which stand at `at` in the packet: it is whole, or all of them are kept.
fn begun(form: Form, bytes: &[u8], at: usize, buffer: &mut [u8]) -> GatheringStep
    requires { (3 ≤ length bytes.now) × (length bytes.now ≤ size) × (at ≤ size) × (length buffer.old ≡ buffer_length) }
    ensures { (memory : Memory) → gathered (gathering_step_says result) buffer.new ≡ gathered_of (begun form memory bytes.now at buffer.old) }
{
    let size = wanted(bytes);
    let end = size as usize;
    if end <= bytes.len() {
        let place = Place {
            holder: Holder::Packet,
            start: at as u16,
            len: size,
        };
        return whole(form, place, &bytes[..end]);
    }
    lay(buffer, 0, bytes);
    GatheringStep::kept(form, bytes.len() as u16, size)
}

// The bytes, which stand at `at` in the packet, start a section, or are refused.
fn started(form: Form, memory: &[u64], bytes: &[u8], at: usize, buffer: &mut [u8]) -> GatheringStep
    requires { (length bytes.now ≤ size) × (at ≤ size) × (length buffer.old ≡ buffer_length) }
    ensures { gathered (gathering_step_says result) buffer.new ≡ gathered_of (started form (memory_in memory.now) bytes.now at buffer.old) }
{
    match test_start(form, memory, bytes) {
        Ok(()) => begun(form, bytes, at, buffer),
        Err(refusal) => GatheringStep::ended(Err(refusal), form),
    }
}

impl Gathering {
    // The head step on a payload that starts there, of a reader that remembers this.
    fn head_from(
        self,
        memory: &[u64],
        packet: &[u8],
        start: usize,
        buffer: &mut [u8],
    ) -> GatheringStep
        requires { (length packet.now ≡ size) × (start < size) × (length buffer.old ≡ buffer_length) }
        ensures { gathered (gathering_step_says result) buffer.new ≡ gathered_of (head_from (with_memory (memory_in memory.now) self) packet.now start buffer.old) }
    {
        match pointer_at(packet, start) {
            Pointer::NoUnitStart => {
                let answer = Ok(Progress::NothingForThisStep);
                GatheringStep {
                    gathering: self,
                    answer,
                }
            }
            Pointer::To(to) => {
                let at = start + 1 + to;
                started(self.form, memory, &packet[at..], at, buffer)
            }
            Pointer::BeyondRest => {
                GatheringStep::ended(Err(Refusal::PointerBeyondRest), self.form)
            }
        }
    }

    // The head step, where what is remembered is lent as words; `memory_words::remember` writes what ONCE remembers after it.
    pub fn head_with(self, memory: &[u64], packet: &[u8], buffer: &mut [u8]) -> GatheringStep
        ensures { gathered (gathering_step_says result) buffer.new ≡ gathered_of (head_of (with_memory (memory_in memory.now) self) packet.now buffer.old) }
    {
        let payload = checked(self.is_sound(memory), packet, buffer.len());
        let Ok(start) = payload else {
            // (It is a refusal here, and `and` hands it on.)
            return GatheringStep {
                gathering: self,
                answer: payload.and(Ok(Progress::NothingForThisStep)),
            };
        };
        self.head_from(memory, packet, start, buffer)
    }
}

impl Reader {
    // The head step: the section that starts in the packet.
    pub fn head(self, packet: &[u8], buffer: &mut [u8]) -> Step
        ensures { outcome (step_says result) buffer.new ≡ head_of self packet.now buffer.old }
    {
        let words = as_words(self.memory);
        let step = self.gathering().head_with(&words, packet, buffer);
        let place = place(step.answer);
        let from = place.start as usize;
        let end = from + place.len as usize;
        step.remembered(self.memory, &packet[from..end])
    }
}
