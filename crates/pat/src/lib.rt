// The walk over a PAT's body. The crate's src/psi/pat.rs.
#![tactic(auto)]

ghost use Rattle.std.specs.Prelude.{◌≡◌};
ghost use Rattle.pat.specs.Programs.{refusal_says, program_says, program_at};
ghost use Rattle.pat.specs.declared.ProgramRefusal.TheVariants.{Refused};

use answers::{Answer, Refusal};
use fields::word;
use walks::left_at;

#[derive(Drop)]
pub struct PatSection;

// An entry: where the network's table is found, or a program and where its map is.
#[derive(Clone, Copy)]
pub enum ProgramDescriptor {
    Network { pid: u16 },
    Program { program_number: u16, pid: u16 },
}

// Why there is no entry: 24, and the offset in the body of the one to three bytes that are left; or 23, 26.
// (An error of its own, as a PMT's: one for both would need a type for each walk's reasons, and a trait for their numbers.)
#[derive(Clone, Copy, PartialEq, Eq, Debug)]
pub enum ProgramRefusal {
    Tail { offset: usize },
    Refused(Refusal),
}

impl From<Refusal> for ProgramRefusal {
    ghost from_gives = { λ why no_program. no_program ≡ Refused why };

    fn from(why: Refusal) -> ProgramRefusal {
        ProgramRefusal::Refused(why)
    }
}

impl ProgramRefusal {
    pub fn number(self) -> u8
        ensures { result ≡ (refusal_says self).number }
    {
        match self {
            ProgramRefusal::Tail { .. } => Answer::PAT_TAIL,
            ProgramRefusal::Refused(refusal) => refusal.number(),
        }
    }
}

impl ProgramDescriptor {
    pub const SIZE: usize = 4;
}

impl PatSection {
    // The entry at a position of a body, and the position behind it. A host starts at 0 and hands each next position back.
    pub fn program_at(
        body: &[u8],
        position: usize,
    ) -> Result<(ProgramDescriptor, usize), ProgramRefusal>
        ensures { program_says result ≡ program_at body.now position }
    {
        let left = left_at(body, position)?;
        if left < ProgramDescriptor::SIZE {
            return Err(ProgramRefusal::Tail { offset: position });
        }
        let bits = word(body, position, ProgramDescriptor::SIZE);
        let program_number = ((bits >> 16) % 65536) as u16;
        let pid = (bits % 8192) as u16;
        let next = position + ProgramDescriptor::SIZE;
        if program_number == 0 {
            return Ok((ProgramDescriptor::Network { pid }, next));
        }
        Ok((
            ProgramDescriptor::Program {
                program_number,
                pid,
            },
            next,
        ))
    }
}
