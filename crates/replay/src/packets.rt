// A packet's header, its payload, and its counter.
use crate::line::Page;
use packet::{ContinuityCounter, Packet, payload_number};

pub fn put_header(packet: &[u8], page: &mut Page) {
    page.put_answer(Packet::header(packet).map(|header| {
        [
            header.transport_error_indicator as u64,
            header.payload_unit_start_indicator as u64,
            header.transport_priority as u64,
            header.pid as u64,
            header.transport_scrambling_control as u64,
            header.adaptation_field_control as u64,
            header.continuity_counter as u64,
        ]
    }));
}

pub fn put_payload(packet: &[u8], page: &mut Page) {
    page.put_answer(Packet::payload(packet).map(|start| [start as u64]));
}

pub fn put_payload_number(packet: &[u8], page: &mut Page) {
    page.put_number(u64::from(payload_number(Packet::payload(packet))));
}

// Whether a counter follows another.
pub fn put_follows(counter: u8, other: u8, page: &mut Page) {
    page.put_given(&[u64::from(ContinuityCounter::follows(counter, other))]);
}
