// What the crates of the C face share. Each has an exported function for every public call of a layer, over the same definitions; include/jambpepper.h
// declares them.
//
// A struct that C sees holds numbers alone: the answer's number stands beside what was asked, a flag is 1 or 0, a form and a holder are numbers. In a
// refused answer all other numbers are 0.
#![tactic(auto)]

// A part of the bytes that a call was lent.
#[repr(C)]
#[derive(Clone, Copy)]
pub struct JambpepperPart {
    pub start: usize,
    pub length: usize,
    pub answer: u8,
}

// Where a delivered section lies: in the packet (1), in the buffer (2) or nowhere (0).
#[repr(C)]
#[derive(Clone, Copy)]
pub struct JambpepperPlace {
    pub start: u16,
    pub length: u16,
    pub holder: u8,
}
