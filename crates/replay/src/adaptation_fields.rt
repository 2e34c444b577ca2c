// The adaptation field of a packet, and the parts behind its flags.
use crate::line::Page;
use adaptation::AdaptationField;
use adaptation_parts::{ClockRef, opcr, pcr, splice_countdown, transport_private_data};
use answers::Refusal;

pub fn put_field(packet: &[u8], page: &mut Page) {
    page.put_answer(AdaptationField::of(packet).map(|field| {
        [
            field.adaptation_field_length as u64,
            field.discontinuity_indicator as u64,
            field.random_access_indicator as u64,
            field.elementary_stream_priority_indicator as u64,
            field.pcr_flag as u64,
            field.opcr_flag as u64,
            field.splicing_point_flag as u64,
            field.transport_private_data_flag as u64,
            field.adaptation_field_extension_flag as u64,
        ]
    }));
}

pub fn put_pcr(packet: &[u8], page: &mut Page) {
    put_clock(pcr(packet), page);
}

pub fn put_opcr(packet: &[u8], page: &mut Page) {
    put_clock(opcr(packet), page);
}

fn put_clock(answer: Result<ClockRef, Refusal>, page: &mut Page) {
    page.put_answer(answer.map(|clock| [clock.base, clock.extension as u64]));
}

pub fn put_splice_countdown(packet: &[u8], page: &mut Page) {
    page.put_answer(splice_countdown(packet).map(|countdown| [countdown as u64]));
}

pub fn put_private_data(packet: &[u8], page: &mut Page) {
    page.put_answer(transport_private_data(packet).map(|place| {
        [place.start as u64, place.length as u64]
    }));
}
