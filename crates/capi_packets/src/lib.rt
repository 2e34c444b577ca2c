// The C face of packets: header, counter, payload.
// (C's structs, so numbers beside one another: `capi_numbers` says how.)
#![tactic(auto)]

ghost use Rattle.std.specs.Prelude.{◌≡◌};
ghost use Rattle.packet.specs.Header.{header_of};
ghost use Rattle.packet.specs.Payload.{payload_of};
ghost use Rattle.packet.specs.Counter.{follows_of};
ghost use Rattle.capi_numbers.specs.Numbers.{flag};
ghost use Rattle.capi_packets.specs.Packets.{header_for_c, payload_for_c};

use packet::{ContinuityCounter, Packet};

#[repr(C)]
#[derive(Clone, Copy)]
pub struct JambpepperHeader {
    pub pid: u16,
    pub transport_error_indicator: u8,
    pub payload_unit_start_indicator: u8,
    pub transport_priority: u8,
    pub transport_scrambling_control: u8,
    pub adaptation_field_control: u8,
    pub continuity_counter: u8,
    pub answer: u8,
}

#[repr(C)]
#[derive(Clone, Copy)]
pub struct JambpepperPayload {
    pub start: usize,
    pub answer: u8,
}

#[unsafe(no_mangle)]
pub extern "C" fn jambpepper_header(packet: &[u8]) -> JambpepperHeader
    ensures { result ≡ header_for_c (header_of packet.now) }
{
    match Packet::header(packet) {
        Ok(header) => JambpepperHeader {
            pid: header.pid,
            transport_error_indicator: header.transport_error_indicator as u8,
            payload_unit_start_indicator: header.payload_unit_start_indicator as u8,
            transport_priority: header.transport_priority as u8,
            transport_scrambling_control: header.transport_scrambling_control,
            adaptation_field_control: header.adaptation_field_control,
            continuity_counter: header.continuity_counter,
            answer: 0,
        },
        Err(refusal) => JambpepperHeader {
            pid: 0,
            transport_error_indicator: 0,
            payload_unit_start_indicator: 0,
            transport_priority: 0,
            transport_scrambling_control: 0,
            adaptation_field_control: 0,
            continuity_counter: 0,
            answer: refusal.number(),
        },
    }
}

#[unsafe(no_mangle)]
pub extern "C" fn jambpepper_payload(packet: &[u8]) -> JambpepperPayload
    ensures { result ≡ payload_for_c (payload_of packet.now) }
{
    match Packet::payload(packet) {
        Ok(start) => JambpepperPayload { start, answer: 0 },
        Err(refusal) => JambpepperPayload {
            start: 0,
            answer: refusal.number(),
        },
    }
}

#[unsafe(no_mangle)]
pub extern "C" fn jambpepper_counter_follows(counter: u8, other: u8) -> u8
    ensures { result ≡ flag (follows_of counter other) }
{
    ContinuityCounter::follows(counter, other) as u8
}
