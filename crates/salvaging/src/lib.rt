// A text that an editor spoiled, mended: specs/. This crate has no code.
#![tactic(auto)]

// The lengths of the text and of the list that now stand in the lent buffers. A call answers with them, or with the refusal, and both buffers
// are then unchanged.
#[derive(Clone, Copy)]
pub struct Lengths {
    pub text: usize,
    pub list: usize,
}
