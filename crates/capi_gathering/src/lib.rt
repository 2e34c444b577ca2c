// The C face of gathering: the state and both steps; and of the CRC, so that the steps and C call one copy of it.
// (C's structs, so numbers beside one another: `capi_numbers` says how.)
#![tactic(auto)]

ghost use Rattle.std.specs.Prelude.{◌+◌, ◌≤◌, ◌≡◌, true, length, take, drop};
ghost use Rattle.memory_words.specs.Words.{words_after};
ghost use Rattle.mpegts_crc.specs.Crc.{crc_of};
ghost use Rattle.reader.specs.Gathering.{gathering_step_says};
ghost use Rattle.reader.specs.Tail.{tail_of};
ghost use Rattle.reader.specs.Head.{head_of};
ghost use Rattle.capi_numbers.specs.Numbers.{flag};
ghost use Rattle.capi_gathering.specs.Gathering.{form_number, form_of, holder_number, names_form, names_flag, names_memory, names_reader};
ghost use Rattle.capi_gathering.specs.Gathering.{gathering_for_c, gathering_from_c, fresh_for_c, sound_for_c, place_for_c};
ghost use Rattle.capi_gathering.specs.Gathering.{gathering_step_for_c, refused_for_c, outcome_for_c, worked_for_c};

use capi_numbers::JambpepperPlace;
use gathering_rules::checked;
use memory_words::{memory_of, remember, remembers};
use mpegts_crc::sum32;
use packet::payload_number;
use reader::{Form, Gathering, GatheringStep, Holder, Place, Reader, number, place};

// The state without its memory, which is lent beside it: 48 bytes by value would go through the stack in each call. 8 bytes are moved at once: a host that stores
// 6 in two parts and loads them in two others waits for the first.
#[repr(C)]
#[derive(Clone, Copy)]
pub struct JambpepperReader {
    pub form: u8,
    pub is_open: u8,
    pub held: u16,
    pub wanted: u16,
    pub reserved: u16,
}

#[repr(C)]
#[derive(Clone, Copy)]
pub struct JambpepperStep {
    pub reader: JambpepperReader,
    pub place: JambpepperPlace,
    pub answer: u8,
}

// C's number, under the definition's name.
fn form_number(form: Form) -> u8
    ensures { result ≡ form_number form }
{
    form as u8
}

// The form of a number that names one. (No TryFrom: a number that names none was refused before, and a second test would cost.)
#[tactic(auto, using(fields::proofs::Choices::choices), unfolding(crate::specs::Gathering::form_of))]
fn form_of(number: u8) -> Form
    requires { number ≤ 2 }
    ensures { result ≡ form_of number }
{
    match number {
        0 => Form::Compact,
        1 => Form::Full,
        2 => Form::Once,
        _ => unreachable!(),
    }
}

// C's number, under the definition's name.
fn holder_number(holder: Holder) -> u8
    ensures { result ≡ holder_number holder }
{
    holder as u8
}

// Whether the words are those of a memory of the form with this number: five in ONCE, the first no larger than its numbers, else none.
#[tactic(auto, using(fields::proofs::Choices::choices), unfolding(crate::specs::Gathering::names_memory))]
fn names_memory(form: u8, words: &[u64]) -> bool
    ensures { result ≡ names_memory form words.now }
{
    match form {
        2 => words.len() == 5 && words[0] < 1 << 33,
        _ => words.is_empty(),
    }
}

// Whether each number of the state is one that a state has.
#[tactic(auto, using(fields::proofs::Choices::choices), unfolding(crate::specs::Gathering::names_reader))]
fn names_reader(reader: JambpepperReader, memory: &[u64]) -> bool
    ensures { result ≡ names_reader reader memory.now }
{
    reader.form <= 2
        && reader.is_open <= 1
        && reader.reserved == 0
        && names_memory(reader.form, memory)
}

// What such a state says, but for its memory. (Of a flag that is 0 or 1 the last bit is enough, which costs no comparison.)
fn gathering_from_c(reader: JambpepperReader) -> Gathering
    requires { (names_form reader.form ≡ true) × (names_flag reader.is_open ≡ true) }
    ensures { result ≡ gathering_from_c reader }
{
    Gathering {
        form: form_of(reader.form),
        is_open: reader.is_open % 2 == 1,
        held: reader.held,
        wanted: reader.wanted,
    }
}

fn gathering_for_c(gathering: Gathering) -> JambpepperReader
    ensures { result ≡ gathering_for_c gathering }
{
    JambpepperReader {
        form: form_number(gathering.form),
        is_open: gathering.is_open as u8,
        held: gathering.held,
        wanted: gathering.wanted,
        reserved: 0,
    }
}

fn place_for_c(place: Place) -> JambpepperPlace
    ensures { result ≡ place_for_c place }
{
    JambpepperPlace {
        start: place.start,
        length: place.len,
        holder: holder_number(place.holder),
    }
}

fn step_for_c(step: GatheringStep) -> JambpepperStep
    ensures { result ≡ gathering_step_for_c (gathering_step_says step) }
{
    JambpepperStep {
        reader: gathering_for_c(step.gathering),
        place: place_for_c(place(step.answer)),
        answer: number(step.answer),
    }
}

// Either step's answer to a state that names no reader: it is not sound, and is given back as it is.
fn refused_for_c(reader: JambpepperReader, packet: &[u8], buffer: usize) -> JambpepperStep
    ensures { result ≡ refused_for_c reader packet.now buffer }
{
    let payload = checked(false, packet, buffer);
    JambpepperStep {
        reader,
        place: JambpepperPlace {
            start: 0,
            length: 0,
            holder: 0,
        },
        answer: payload_number(payload),
    }
}

#[unsafe(no_mangle)]
pub extern "C" fn jambpepper_fresh(form: u8) -> JambpepperReader
    ensures { result ≡ fresh_for_c form }
{
    JambpepperReader {
        form,
        is_open: 0,
        held: 0,
        wanted: 0,
        reserved: 0,
    }
}

#[unsafe(no_mangle)]
pub extern "C" fn jambpepper_is_sound(reader: JambpepperReader, memory: &[u64]) -> u8
    ensures { result ≡ flag (sound_for_c reader memory.now) }
{
    if names_reader(reader, memory) {
        let named = Reader {
            form: form_of(reader.form),
            memory: memory_of(memory),
            is_open: reader.is_open % 2 == 1,
            held: reader.held,
            wanted: reader.wanted,
        };
        return named.is_sound() as u8;
    }
    0
}

// Writes what is remembered after a step with this answer, which delivered the section there.
fn remember_at(memory: &mut [u64], answer: u8, start: u16, len: u16, holder: &[u8])
    requires { start + len ≤ length holder.now }
    ensures { memory.new ≡ words_after answer memory.old (take len (drop start holder.now)) }
{
    let from = start as usize;
    let end = from + len as usize;
    remember(memory, answer, &holder[from..end]);
}

#[unsafe(no_mangle)]
pub extern "C" fn jambpepper_tail(
    reader: JambpepperReader,
    memory: &mut [u64],
    packet: &[u8],
    buffer: &mut [u8],
) -> JambpepperStep
    ensures { outcome_for_c result memory.new buffer.new ≡ worked_for_c tail_of reader memory.old packet.now buffer.old }
{
    if names_reader(reader, memory) {
        let step = gathering_from_c(reader).tail_with(memory, packet, buffer);
        let told = step_for_c(step);
        if remembers(memory, told.answer) {
            remember_at(memory, told.answer, 0, told.place.length, buffer);
        }
        return told;
    }
    refused_for_c(reader, packet, buffer.len())
}

#[unsafe(no_mangle)]
pub extern "C" fn jambpepper_head(
    reader: JambpepperReader,
    memory: &mut [u64],
    packet: &[u8],
    buffer: &mut [u8],
) -> JambpepperStep
    ensures { outcome_for_c result memory.new buffer.new ≡ worked_for_c head_of reader memory.old packet.now buffer.old }
{
    if names_reader(reader, memory) {
        let step = gathering_from_c(reader).head_with(memory, packet, buffer);
        let told = step_for_c(step);
        if remembers(memory, told.answer) {
            remember_at(
                memory,
                told.answer,
                told.place.start,
                told.place.length,
                packet,
            );
        }
        return told;
    }
    refused_for_c(reader, packet, buffer.len())
}

#[unsafe(no_mangle)]
pub extern "C" fn jambpepper_sum32(data: &[u8]) -> u32
    ensures { result ≡ crc_of «data».now }
{
    sum32(data)
}
