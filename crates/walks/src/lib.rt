// Walks over a body: what is left of it at a position. The definitions of specs/ and the laws of proofs/ say what a walk is, and what a host's walk gets.
#![tactic(auto)]

ghost use Rattle.std.specs.Prelude.{◌≡◌};
ghost use Rattle.answers.specs.Says.{says};
ghost use Rattle.walks.specs.Walk.{left_of};

use answers::Refusal;

// How many bytes are left from a position of a body on, or 26, 23.
#[tactic(auto, using(fields::proofs::Choices::choices), unfolding(crate::specs::Walk::left_of))]
pub fn left_at(body: &[u8], position: usize) -> Result<usize, Refusal>
    ensures { says 0 result ≡ left_of body.now position }
{
    if body.len() < position {
        return Err(Refusal::PositionAboveLength);
    }
    if position == body.len() {
        return Err(Refusal::WalkAtEnd);
    }
    Ok(body.len() - position)
}
