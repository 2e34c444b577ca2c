// The adaptation field of a packet: its length and its flags. The crate's src/packet.rs.
#![tactic(auto)]

ghost use Rattle.std.specs.Prelude.{◌≡◌, ◌+◌, ◌≤◌, ◌<◌, length};
ghost use Rattle.answers.specs.Says.{given};
ghost use Rattle.packet.specs.Header.{size};
ghost use Rattle.packet.specs.Payload.{length_byte};
ghost use Rattle.adaptation.specs.AdaptationField.{start, flags_of, no_field, where_present};
ghost use Rattle.adaptation.specs.AdaptationField.{adaptation_field_says, adaptation_field_of};

use answers::Refusal;
use fields::word;
use packet::Packet;

// The field's length and its flags, the last five of which tell what follows them.
#[derive(Clone, Copy)]
pub struct AdaptationField {
    pub adaptation_field_length: u8,
    pub discontinuity_indicator: bool,
    pub random_access_indicator: bool,
    pub elementary_stream_priority_indicator: bool,
    pub pcr_flag: bool,
    pub opcr_flag: bool,
    pub splicing_point_flag: bool,
    pub transport_private_data_flag: bool,
    pub adaptation_field_extension_flag: bool,
}

// The field of a packet that has one, of n bytes.
fn flags_of(packet: &[u8], n: u8) -> AdaptationField
    requires { (start + n ≤ length packet.now) × (n ≡ length_byte packet.now) × (0 < n) }
    ensures { result ≡ flags_of packet.now }
{
    let bits = word(packet, AdaptationField::OFFSET, 1);
    AdaptationField {
        adaptation_field_length: n,
        discontinuity_indicator: (bits >> 7) % 2 == 1,
        random_access_indicator: (bits >> 6) % 2 == 1,
        elementary_stream_priority_indicator: (bits >> 5) % 2 == 1,
        pcr_flag: (bits >> 4) % 2 == 1,
        opcr_flag: (bits >> 3) % 2 == 1,
        splicing_point_flag: (bits >> 2) % 2 == 1,
        transport_private_data_flag: (bits >> 1) % 2 == 1,
        adaptation_field_extension_flag: bits % 2 == 1,
    }
}

// The field of a packet with this adaptation field control and this length byte.
#[tactic(auto, using(fields::proofs::Choices::choices), unfolding(crate::specs::AdaptationField::where_present))]
fn field_behind(packet: &[u8], control: u8, n: u8) -> Result<AdaptationField, Refusal>
    requires { (length packet.now ≡ size) × (n ≡ length_byte packet.now) }
    ensures { adaptation_field_says result ≡ where_present control n no_field (given (flags_of packet.now)) }
{
    match (control, n) {
        (0b10, 183) | (0b11, 1..=182) => Ok(flags_of(packet, n)),
        (0b11, 0) => Err(Refusal::NoAdaptationField),
        (0b10 | 0b11, _) => Err(Refusal::AdaptationFieldLength),
        _ => Err(Refusal::NoAdaptationField),
    }
}

impl AdaptationField {
    // Where the field begins in its packet: behind its length byte.
    pub const OFFSET: usize = 5;

    // The field, or 3, 4, 18, 19.
    pub fn of(packet: &[u8]) -> Result<AdaptationField, Refusal>
        ensures { adaptation_field_says result ≡ adaptation_field_of packet.now }
    {
        let header = Packet::header(packet)?;
        let length = (word(packet, 4, 1) % 256) as u8;
        field_behind(packet, header.adaptation_field_control, length)
    }
}
