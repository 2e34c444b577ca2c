// The table of answers: the one place of the code where their numbers stand.
#![tactic(auto)]

ghost use Rattle.std.specs.Prelude.{◌≡◌};
ghost use Rattle.answers.specs.Refusals.{number_of};

// The rows that are asked for by number: what a step does, the refusals that make a reader forget, and those that tell numbers, which are cases of the
// calls' own errors. (Numbers, not an enum: `delivered::section`, `Memory::after` and C take any number for an answer.)
#[derive(Drop)]
pub struct Answer;

impl Answer {
    pub const NOTHING_FOR_THIS_STEP: u8 = 0;

    pub const BYTES_KEPT: u8 = 1;

    pub const DELIVERED: u8 = 2;

    pub const POINTER_BEYOND_REST: u8 = Refusal::PointerBeyondRest as u8;

    pub const UNDER_3_BYTES: u8 = Refusal::Under3Bytes as u8;

    pub const PMT_TOO_SHORT: u8 = 22;

    pub const PAT_TAIL: u8 = 24;

    pub const STREAM_UNDER_5: u8 = 27;

    pub const INFO_PAST_END: u8 = 28;
}

// Why a call gives nothing of what was asked, each with its number in the table.
#[derive(Clone, Copy, PartialEq, Eq, Debug)]
pub enum Refusal {
    PacketSize = 3,
    NoSyncByte = 4,
    BufferSize = 5,
    NoPayload = 6,
    PayloadEmpty = 7,
    PayloadBeyond = 8,
    PointerBeyondRest = 9,
    Under3Bytes = 10,
    SyntaxIndicator = 11,
    Under8Bytes = 12,
    LengthAbove1021 = 13,
    AlreadyDelivered = 14,
    NoSectionOpen = 15,
    SectionUnder12 = 16,
    CrcNotZero = 17,
    NoAdaptationField = 18,
    AdaptationFieldLength = 19,
    FlagClear = 20,
    FieldEndsBefore = 21,
    WalkAtEnd = 23,
    StateNotSound = 25,
    PositionAboveLength = 26,
}

impl Refusal {
    pub fn number(self) -> u8
        ensures { result ≡ number_of self }
    {
        self as u8
    }
}
