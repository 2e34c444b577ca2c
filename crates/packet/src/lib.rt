// A transport packet: its header, its counter, and where its payload lies. The crate's src/packet.rs.
#![tactic(auto)]

ghost use Rattle.std.specs.Prelude.{◌≡◌, length};
ghost use Rattle.packet.specs.Counter.{follows_of};
ghost use Rattle.packet.specs.Payload.{control_of, payload_says, starting_at, payload_behind, payload_of};
ghost use Rattle.packet.specs.Header.{size, header_says, header_of};

use answers::Refusal;
use fields::word;

#[derive(Drop)]
pub struct Packet;

#[derive(Drop)]
pub struct Pid;

#[derive(Drop)]
pub struct ContinuityCounter;

#[derive(Clone, Copy)]
pub struct Header {
    pub transport_error_indicator: bool,
    pub payload_unit_start_indicator: bool,
    pub transport_priority: bool,
    pub pid: u16,
    pub transport_scrambling_control: u8,
    pub adaptation_field_control: u8,
    pub continuity_counter: u8,
}

impl Pid {
    pub const MAX_VALUE: u16 = 0x1fff;

    pub const PID_COUNT: u64 = Pid::MAX_VALUE as u64 + 1;

    pub const PAT: u16 = 0;
}

impl ContinuityCounter {
    pub const MAX_VALUE: u8 = 15;

    pub const COUNT: u8 = ContinuityCounter::MAX_VALUE + 1;

    // Whether `counter` follows `other`. No, where one of them is no counter: the Rust asserts there.
    #[tactic(auto, using(fields::proofs::Choices::choices), unfolding(crate::specs::Counter::follows_of))]
    pub fn follows(counter: u8, other: u8) -> bool
        ensures { result ≡ follows_of counter other }
    {
        counter <= ContinuityCounter::MAX_VALUE
            && other <= ContinuityCounter::MAX_VALUE
            && counter == (other + 1) % ContinuityCounter::COUNT
    }
}

// The number of what `Packet::payload` answers: 0 for a place.
pub fn payload_number(payload: Result<usize, Refusal>) -> u8
    ensures { result ≡ (payload_says payload).number }
{
    match payload {
        Ok(_) => 0,
        Err(refusal) => refusal.number(),
    }
}

// A payload that starts there.
#[tactic(auto, using(fields::proofs::Choices::choices), unfolding(crate::specs::Payload::starting_at))]
fn starting_at(start: usize) -> Result<usize, Refusal>
    ensures { payload_says result ≡ starting_at start }
{
    if start == Packet::SIZE {
        return Err(Refusal::PayloadEmpty);
    }
    if Packet::SIZE < start {
        return Err(Refusal::PayloadBeyond);
    }
    Ok(start)
}

// The payload of a packet with this adaptation field control.
fn payload_behind(packet: &[u8], control: u8) -> Result<usize, Refusal>
    requires { (length packet.now ≡ size) × (control ≡ control_of packet.now) }
    ensures { payload_says result ≡ payload_behind packet.now }
{
    match control {
        0b01 => starting_at(4),
        0b11 => starting_at(5 + (word(packet, 4, 1) % 256) as usize),
        _ => Err(Refusal::NoPayload),
    }
}

impl Packet {
    pub const SIZE: usize = 188;

    pub const SYNC_BYTE: u8 = 0x47;

    // The header, or 3, 4.
    pub fn header(packet: &[u8]) -> Result<Header, Refusal>
        ensures { header_says result ≡ header_of packet.now }
    {
        if packet.len() != Packet::SIZE {
            return Err(Refusal::PacketSize);
        }
        let bits = word(packet, 0, 4);
        if (bits >> 24) % 256 != Packet::SYNC_BYTE as u64 {
            return Err(Refusal::NoSyncByte);
        }
        Ok(Header {
            transport_error_indicator: (bits >> 23) % 2 == 1,
            payload_unit_start_indicator: (bits >> 22) % 2 == 1,
            transport_priority: (bits >> 21) % 2 == 1,
            pid: ((bits >> 8) % Pid::PID_COUNT) as u16,
            transport_scrambling_control: ((bits >> 6) % 4) as u8,
            adaptation_field_control: ((bits >> 4) % 4) as u8,
            continuity_counter: (bits % 16) as u8,
        })
    }

    // Where the payload starts (it goes on to the packet's end), or 3, 4, 6, 7, 8.
    pub fn payload(packet: &[u8]) -> Result<usize, Refusal>
        ensures { payload_says result ≡ payload_of packet.now }
    {
        let header = Packet::header(packet)?;
        payload_behind(packet, header.adaptation_field_control)
    }
}
