// The C face of a delivered section: where C reads it.
// (C's structs, so numbers beside one another: `capi_numbers` says how.)
#![tactic(auto)]

ghost use Rattle.std.specs.Prelude.{◌≡◌};
ghost use Rattle.capi_delivered.specs.Delivered.{holder_of, place_from_c, section_for_c};

use capi_numbers::JambpepperPlace;
use delivered::{Holder, Place, section};

// The holder of C's number; nowhere for any other, so that this is no TryFrom.
#[tactic(auto, using(fields::proofs::Choices::choices), unfolding(crate::specs::Delivered::holder_of))]
fn holder_of(number: u8) -> Holder
    ensures { result ≡ holder_of number }
{
    match number {
        1 => Holder::Packet,
        2 => Holder::Buffer,
        _ => Holder::Nowhere,
    }
}

fn place_from_c(place: JambpepperPlace) -> Place
    ensures { result ≡ place_from_c place }
{
    Place {
        holder: holder_of(place.holder),
        start: place.start,
        len: place.length,
    }
}

// Where C finds the section: the place, if a section is read there, else nowhere.
#[tactic(auto, using(fields::proofs::Choices::choices), unfolding(crate::specs::Delivered::section_for_c))]
#[unsafe(no_mangle)]
pub extern "C" fn jambpepper_section<'a>(
    packet: &'a [u8],
    buffer: &'a [u8],
    answer: u8,
    place: JambpepperPlace,
) -> JambpepperPlace
    ensures { result ≡ section_for_c packet.now buffer.now answer place }
{
    let found = section(packet, buffer, answer, place_from_c(place));
    if found.is_empty() {
        JambpepperPlace {
            start: 0,
            length: 0,
            holder: 0,
        }
    } else {
        place
    }
}
