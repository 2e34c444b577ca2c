// The parts of an adaptation field, each behind its flag: PCR, OPCR, splice countdown, private data. The crate's src/packet.rs.
#![tactic(auto)]

ghost use Rattle.std.specs.Prelude.{◌≡◌, ◌+◌, ◌≤◌, ◌<◌, length, take, drop};
ghost use Rattle.fields.specs.Choice.{when◌then◌else◌};
ghost use Rattle.packet.specs.Header.{size};
ghost use Rattle.adaptation.specs.AdaptationField.{start};
ghost use Rattle.adaptation_parts.specs.Syntax.{program_clock_reference, splice_countdown};
ghost use Rattle.adaptation_parts.specs.Parts.{part, no_clock, pcr_from, clock_says, pcr_of, opcr_of};
ghost use Rattle.adaptation_parts.specs.Parts.{splice_countdown_from, splice_countdown_says, splice_countdown_of};
ghost use Rattle.adaptation_parts.specs.Parts.{private_data_at, transport_private_data_says, transport_private_data_of};

use adaptation::AdaptationField;
use answers::Refusal;
use fields::word;

// Where a PCR begins in the field: behind the flags.
const PCR_OFFSET: usize = 1;

const PCR_SIZE: usize = 6;

// 33 bits, and 9 bits that may be above 299.
#[derive(Clone, Copy)]
pub struct ClockRef {
    pub base: u64,
    pub extension: u16,
}

// Where private data starts in its packet, and how many bytes it has.
#[derive(Clone, Copy)]
pub struct PrivateData {
    pub start: usize,
    pub length: usize,
}

// The n bytes of the field.
fn bytes_of(packet: &[u8], n: u8) -> &[u8]
    requires { start + n ≤ length packet.now }
    ensures { result.now ≡ take n (drop start packet.now) }
{
    let end = AdaptationField::OFFSET + n as usize;
    &packet[AdaptationField::OFFSET..end]
}

// Where a part begins in the field: behind the flags, and behind the PCR, the OPCR and the splice countdown that stand before it.
fn behind(pcr: bool, opcr: bool, countdown: bool) -> usize
    ensures { (result ≡ 1 + (when pcr then 6 else 0) + (when opcr then 6 else 0) + (when countdown then 1 else 0)) × (result ≤ 14) }
{
    PCR_OFFSET + PCR_SIZE * pcr as usize + PCR_SIZE * opcr as usize + countdown as usize
}

// Each part tests its flag and its end, and is asked where it lies. (Not in one function, and no struct for the three: its definition and its laws would be longer than
// the two tests.)

// The PCR or OPCR at `at` of the field. (An OPCR's rows are a PCR's, under names of its own.)
fn clock_at(field: &[u8], flag: bool, at: usize) -> Result<ClockRef, Refusal>
    requires { at < size }
    ensures { clock_says result ≡ part flag program_clock_reference (drop at field.now) no_clock pcr_from }
{
    if !flag {
        return Err(Refusal::FlagClear);
    }
    if field.len() < at + PCR_SIZE {
        return Err(Refusal::FieldEndsBefore);
    }
    let bits = word(field, at, PCR_SIZE);
    Ok(ClockRef {
        base: (bits >> 15) % 0x2_0000_0000,
        extension: (bits % 512) as u16,
    })
}

// The splice countdown at `at` of the field.
fn splice_countdown_at(field: &[u8], flag: bool, at: usize) -> Result<u8, Refusal>
    requires { at < size }
    ensures { splice_countdown_says result ≡ part flag splice_countdown (drop at field.now) 0 splice_countdown_from }
{
    if flag {
        if at < field.len() {
            return Ok(field[at]);
        }
        return Err(Refusal::FieldEndsBefore);
    }
    Err(Refusal::FlagClear)
}

// The private data whose length byte is at `at` of the field.
fn private_data_at(field: &[u8], flag: bool, at: usize) -> Result<PrivateData, Refusal>
    requires { at < size }
    ensures { transport_private_data_says result ≡ private_data_at flag (start + at) (drop at field.now) }
{
    if !flag {
        return Err(Refusal::FlagClear);
    }
    if field.len() < at + 1 {
        return Err(Refusal::FieldEndsBefore);
    }
    let n = field[at] as usize;
    if field.len() < at + 1 + n {
        return Err(Refusal::FieldEndsBefore);
    }
    Ok(PrivateData {
        start: AdaptationField::OFFSET + at + 1,
        length: n,
    })
}

// The PCR, or 3, 4, 18, 19, 20, 21.
pub fn pcr(packet: &[u8]) -> Result<ClockRef, Refusal>
    ensures { clock_says result ≡ pcr_of packet.now }
{
    let field = AdaptationField::of(packet)?;
    let bytes = bytes_of(packet, field.adaptation_field_length);
    clock_at(bytes, field.pcr_flag, PCR_OFFSET)
}

// The OPCR, or 3, 4, 18, 19, 20, 21.
pub fn opcr(packet: &[u8]) -> Result<ClockRef, Refusal>
    ensures { clock_says result ≡ opcr_of packet.now }
{
    let field = AdaptationField::of(packet)?;
    let bytes = bytes_of(packet, field.adaptation_field_length);
    let at = behind(field.pcr_flag, false, false);
    clock_at(bytes, field.opcr_flag, at)
}

// The countdown's byte, or 3, 4, 18, 19, 20, 21.
pub fn splice_countdown(packet: &[u8]) -> Result<u8, Refusal>
    ensures { splice_countdown_says result ≡ splice_countdown_of packet.now }
{
    let field = AdaptationField::of(packet)?;
    let bytes = bytes_of(packet, field.adaptation_field_length);
    let at = behind(field.pcr_flag, field.opcr_flag, false);
    splice_countdown_at(bytes, field.splicing_point_flag, at)
}

// The private data's place, or 3, 4, 18, 19, 20, 21.
pub fn transport_private_data(packet: &[u8]) -> Result<PrivateData, Refusal>
    ensures { transport_private_data_says result ≡ transport_private_data_of packet.now }
{
    let field = AdaptationField::of(packet)?;
    let bytes = bytes_of(packet, field.adaptation_field_length);
    let at = behind(field.pcr_flag, field.opcr_flag, field.splicing_point_flag);
    private_data_at(bytes, field.transport_private_data_flag, at)
}
