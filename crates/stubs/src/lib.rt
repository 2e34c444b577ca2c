// The two steps under their contracts, as a host calls them. The must-fail edits put the stubs of document 01, "How tight the contracts must be", in their
// place. As the reader meets these contracts by its own, a stub that they refuse is refused by the reader's own too.
#![tactic(auto)]

ghost use Rattle.std.specs.Prelude.{◌≡◌};
ghost use Rattle.reader.specs.Outcome.{outcome, step_says};
ghost use Rattle.reader.specs.Tail.{tail_of};
ghost use Rattle.reader.specs.Head.{head_of};

use reader::{Reader, Step};

fn tail(reader: Reader, packet: &[u8], buffer: &mut [u8]) -> Step
    ensures { outcome (step_says result) buffer.new ≡ tail_of reader packet.now buffer.old }
{
    reader.tail(packet, buffer)
}

fn head(reader: Reader, packet: &[u8], buffer: &mut [u8]) -> Step
    ensures { outcome (step_says result) buffer.new ≡ head_of reader packet.now buffer.old }
{
    reader.head(packet, buffer)
}
