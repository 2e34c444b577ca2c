// What every reader of sections tests: the checks before a step, what refuses the start of a section, and how a whole section ends.
// The crate's src/psi/mod.rs.
#![tactic(auto)]

ghost use Rattle.std.specs.Prelude.{◌≡◌, ◌≤◌};
ghost use Rattle.answers.specs.Says.{answer_number};
ghost use Rattle.memory.specs.declared.Form.{Form};
ghost use Rattle.packet.specs.Payload.{payload_says};
ghost use Rattle.memory_words.specs.Words.{memory_in};
ghost use Rattle.gathering_rules.specs.Checks.{checked};
ghost use Rattle.gathering_rules.specs.Start.{least_held, length_refusal, header_refusal, start_refusal};
ghost use Rattle.gathering_rules.specs.Verdict.{crc_verdict, verdict, verdict_number};

use answers::Refusal;
use memory::Form;
use memory_words::repeats;
use mpegts_crc::sum32;
use packet::Packet;
use psi::{Section, SectionCommonHeader};

// The buffer that a host lends.
#[derive(Drop)]
pub struct Buffer;

impl Buffer {
    pub const SIZE: usize = 1024;
}

// What every step tests first: the payload's place, or 3, 4, 5, 25, 6, 7, 8. (What stands behind it asks for both lengths in a `requires`: as arrays of these lengths, packet
// and buffer would be tested a second time in each step.)
pub fn checked(is_sound: bool, packet: &[u8], buffer: usize) -> Result<usize, Refusal>
    ensures { payload_says result ≡ checked is_sound packet.now buffer }
{
    Packet::header(packet)?;
    if buffer != Buffer::SIZE {
        return Err(Refusal::BufferSize);
    }
    if !is_sound {
        return Err(Refusal::StateNotSound);
    }
    Packet::payload(packet)
}

// The bytes without which a section is not kept.
pub fn least_held(form: Form) -> u16
    ensures { result ≡ least_held form }
{
    match form {
        Form::Compact => 3,
        Form::Full | Form::Once => 8,
    }
}

// 13, or nothing.
#[tactic(auto, using(fields::proofs::Choices::choices), unfolding(crate::specs::Start::header_refusal))]
fn test_length(header: SectionCommonHeader) -> Result<(), Refusal>
    ensures { answer_number result ≡ length_refusal header }
{
    if Section::LENGTH_LIMIT < header.section_length {
        return Err(Refusal::LengthAbove1021);
    }
    Ok(())
}

// What the header of so many bytes refuses in FULL and ONCE: 11, 12, 13, or nothing.
#[tactic(auto, using(fields::proofs::Choices::choices), unfolding(crate::specs::Start::header_refusal))]
fn test_long_header(header: SectionCommonHeader, len: usize) -> Result<(), Refusal>
    ensures { answer_number result ≡ header_refusal Form.Full header len }
{
    if !header.section_syntax_indicator {
        return Err(Refusal::SyntaxIndicator);
    }
    if len < Section::HEADERS_SIZE {
        return Err(Refusal::Under8Bytes);
    }
    test_length(header)
}

// What it refuses in any form. (COMPACT has an arm of its own, so that the compiler asks for the form once.)
#[tactic(auto, using(fields::proofs::Choices::choices), unfolding(crate::specs::Start::header_refusal))]
fn test_header(form: Form, header: SectionCommonHeader, len: usize) -> Result<(), Refusal>
    requires { 3 ≤ len }
    ensures { answer_number result ≡ header_refusal form header len }
{
    match form {
        Form::Compact => {
            if header.section_syntax_indicator {
                return Err(Refusal::SyntaxIndicator);
            }
            test_length(header)
        }
        Form::Full | Form::Once => test_long_header(header, len),
    }
}

// 10 to 14, or nothing where a section starts with these bytes. What is remembered is lent as words. (The law on the attribute is for a test of the bytes themselves, as the edit
// `answer_10` has it.)
#[tactic(auto, using(crate::proofs::Starts::start_under_three_bytes))]
pub fn test_start(form: Form, memory: &[u64], bytes: &[u8]) -> Result<(), Refusal>
    ensures { answer_number result ≡ start_refusal form (memory_in memory.now) bytes.now }
{
    let header = Section::header(bytes)?;
    test_header(form, header, bytes.len())?;
    if repeats(memory, form, bytes) {
        return Err(Refusal::AlreadyDelivered);
    }
    Ok(())
}

// Why a section whose CRC is tested is refused as a whole: 16, 17, or nothing.
#[tactic(auto, using(fields::proofs::Choices::choices), unfolding(crate::specs::Verdict::crc_verdict))]
fn test_crc(section: &[u8]) -> Result<(), Refusal>
    ensures { verdict_number result ≡ crc_verdict section.now }
{
    if section.len() < 12 {
        return Err(Refusal::SectionUnder12);
    }
    if sum32(section) != 0 {
        return Err(Refusal::CrcNotZero);
    }
    Ok(())
}

// Why a whole section is refused: 16, 17, or nothing where it is delivered.
#[tactic(auto, using(fields::proofs::Choices::choices), unfolding(crate::specs::Verdict::verdict))]
pub fn verdict(form: Form, section: &[u8]) -> Result<(), Refusal>
    ensures { verdict_number result ≡ verdict form section.now }
{
    match form {
        Form::Compact => Ok(()),
        Form::Full | Form::Once => test_crc(section),
    }
}
