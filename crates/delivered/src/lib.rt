// The reading of a delivered section, where a step said that it lies.
#![tactic(auto)]

ghost use Rattle.std.specs.Prelude.{◌≡◌};
ghost use Rattle.delivered.specs.Delivered.{part_of, section_of};

use answers::Answer;

// (Nowhere is a case, and a place no Option: `section` takes any place that C names.)
#[derive(Clone, Copy, PartialEq, Eq, Debug)]
pub enum Holder {
    Nowhere,
    Packet,
    Buffer,
}

// Where a delivered section lies.
#[derive(Clone, Copy, PartialEq, Eq, Debug)]
pub struct Place {
    pub holder: Holder,
    pub start: u16,
    pub len: u16,
}

// The part of the bytes that lies there; empty where it does not lie within.
#[tactic(auto, using(fields::proofs::Choices::choices), unfolding(crate::specs::Delivered::part_of))]
fn part(bytes: &[u8], place: Place) -> &[u8]
    ensures { result.now ≡ part_of bytes.now place.start place.len }
{
    let start = usize::from(place.start);
    let end = start + usize::from(place.len);
    bytes.get(start..end).unwrap_or(&[])
}

// A delivered section, as a part of the packet or of the buffer; empty for any other answer, and for a place that does not lie within.
#[tactic(auto, using(fields::proofs::Choices::choices), unfolding(crate::specs::Delivered::section_of, crate::specs::Delivered::part_held_by))]
pub fn section<'a>(packet: &'a [u8], buffer: &'a [u8], answer: u8, place: Place) -> &'a [u8]
    ensures { result.now ≡ section_of packet.now buffer.now answer place }
{
    if answer != Answer::DELIVERED {
        return &[];
    }
    match place.holder {
        Holder::Nowhere => &[],
        Holder::Packet => part(packet, place),
        Holder::Buffer => part(buffer, place),
    }
}
