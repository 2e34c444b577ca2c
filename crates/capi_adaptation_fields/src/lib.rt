// The C face of adaptation fields and their parts.
// (C's structs, so numbers beside one another: `capi_numbers` says how.)
#![tactic(auto)]

ghost use Rattle.std.specs.Prelude.{◌≡◌};
ghost use Rattle.adaptation.specs.AdaptationField.{adaptation_field_of};
ghost use Rattle.adaptation_parts.specs.Parts.{clock_says, pcr_of, opcr_of, splice_countdown_of, transport_private_data_of};
ghost use Rattle.capi_adaptation_fields.specs.AdaptationFields.{adaptation_field_for_c, clock_for_c, splice_countdown_for_c, private_data_for_c};

use adaptation::AdaptationField;
use adaptation_parts::ClockRef;
use answers::Refusal;
use capi_numbers::JambpepperPart;

#[repr(C)]
#[derive(Clone, Copy)]
pub struct JambpepperAdaptationField {
    pub adaptation_field_length: u8,
    pub discontinuity_indicator: u8,
    pub random_access_indicator: u8,
    pub elementary_stream_priority_indicator: u8,
    pub pcr_flag: u8,
    pub opcr_flag: u8,
    pub splicing_point_flag: u8,
    pub transport_private_data_flag: u8,
    pub adaptation_field_extension_flag: u8,
    pub answer: u8,
}

#[repr(C)]
#[derive(Clone, Copy)]
pub struct JambpepperClock {
    pub base: u64,
    pub extension: u16,
    pub answer: u8,
}

#[repr(C)]
#[derive(Clone, Copy)]
pub struct JambpepperSpliceCountdown {
    pub splice_countdown: u8,
    pub answer: u8,
}

#[unsafe(no_mangle)]
pub extern "C" fn jambpepper_adaptation_field(packet: &[u8]) -> JambpepperAdaptationField
    ensures { result ≡ adaptation_field_for_c (adaptation_field_of packet.now) }
{
    match AdaptationField::of(packet) {
        Ok(field) => JambpepperAdaptationField {
            adaptation_field_length: field.adaptation_field_length,
            discontinuity_indicator: field.discontinuity_indicator as u8,
            random_access_indicator: field.random_access_indicator as u8,
            elementary_stream_priority_indicator: field.elementary_stream_priority_indicator as u8,
            pcr_flag: field.pcr_flag as u8,
            opcr_flag: field.opcr_flag as u8,
            splicing_point_flag: field.splicing_point_flag as u8,
            transport_private_data_flag: field.transport_private_data_flag as u8,
            adaptation_field_extension_flag: field.adaptation_field_extension_flag as u8,
            answer: 0,
        },
        Err(refusal) => JambpepperAdaptationField {
            adaptation_field_length: 0,
            discontinuity_indicator: 0,
            random_access_indicator: 0,
            elementary_stream_priority_indicator: 0,
            pcr_flag: 0,
            opcr_flag: 0,
            splicing_point_flag: 0,
            transport_private_data_flag: 0,
            adaptation_field_extension_flag: 0,
            answer: refusal.number(),
        },
    }
}

// A PCR or an OPCR.
fn clock_for_c(clock: Result<ClockRef, Refusal>) -> JambpepperClock
    ensures { result ≡ clock_for_c (clock_says clock) }
{
    match clock {
        Ok(clock) => JambpepperClock {
            base: clock.base,
            extension: clock.extension,
            answer: 0,
        },
        Err(refusal) => JambpepperClock {
            base: 0,
            extension: 0,
            answer: refusal.number(),
        },
    }
}

#[unsafe(no_mangle)]
pub extern "C" fn jambpepper_pcr(packet: &[u8]) -> JambpepperClock
    ensures { result ≡ clock_for_c (pcr_of packet.now) }
{
    clock_for_c(adaptation_parts::pcr(packet))
}

#[unsafe(no_mangle)]
pub extern "C" fn jambpepper_opcr(packet: &[u8]) -> JambpepperClock
    ensures { result ≡ clock_for_c (opcr_of packet.now) }
{
    clock_for_c(adaptation_parts::opcr(packet))
}

#[unsafe(no_mangle)]
pub extern "C" fn jambpepper_splice_countdown(packet: &[u8]) -> JambpepperSpliceCountdown
    ensures { result ≡ splice_countdown_for_c (splice_countdown_of packet.now) }
{
    match adaptation_parts::splice_countdown(packet) {
        Ok(splice_countdown) => JambpepperSpliceCountdown {
            splice_countdown,
            answer: 0,
        },
        Err(refusal) => JambpepperSpliceCountdown {
            splice_countdown: 0,
            answer: refusal.number(),
        },
    }
}

#[unsafe(no_mangle)]
pub extern "C" fn jambpepper_transport_private_data(packet: &[u8]) -> JambpepperPart
    ensures { result ≡ private_data_for_c (transport_private_data_of packet.now) }
{
    match adaptation_parts::transport_private_data(packet) {
        Ok(place) => JambpepperPart {
            start: place.start,
            length: place.length,
            answer: 0,
        },
        Err(refusal) => JambpepperPart {
            start: 0,
            length: 0,
            answer: refusal.number(),
        },
    }
}
