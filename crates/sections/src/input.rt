// Where the next packet of a stream stands.
ghost use Rattle.std.specs.Prelude.{◌<◌, length, IfSome};

use packet::Packet;

// What the next bytes are: a packet; one that lacks its 0x47, though the packet behind it has its own; a byte that is of no packet.
#[derive(Clone, Copy)]
pub enum Found<'a> {
    Packet(&'a [u8]),
    Damaged,
    NoPacket,
}

// That, and the bytes behind it; none where the bytes are too few to tell. In a run of packets each 0x47 stands where it is due. A run
// starts where 0x47 stands twice, a packet apart.
pub fn split_first(is_in_step: bool, bytes: &[u8]) -> Option<(Found<'_>, &[u8])>
    ensures { IfSome result (λ p. length p.1.now < length bytes.now) }
{
    let (packet, behind) = bytes.split_at_checked(Packet::SIZE)?;
    let is_packet = packet[0] == Packet::SYNC_BYTE;
    if is_in_step && is_packet {
        return Some((Found::Packet(packet), behind));
    }
    let is_followed = *behind.first()? == Packet::SYNC_BYTE;
    match (is_packet, is_followed) {
        (true, true) => Some((Found::Packet(packet), behind)),
        (false, true) if is_in_step => Some((Found::Damaged, behind)),
        _ => Some((Found::NoPacket, &bytes[1..])),
    }
}
