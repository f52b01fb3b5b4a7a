// What a call answers. The rules themselves stand in specs/, as definitions; this crate has no code.
#![tactic(auto)]

use format::Refusal;

// The length of the text that now stands in the lent buffer; or the refusal, and the buffer is unchanged.
pub type Answer = Result<usize, Refusal>;

// What a row call tells of its text: the length, and the ticks that the rules walk for it from tick 0.
#[derive(Clone, Copy)]
pub struct RowText {
    pub length: usize,
    pub walked: u32,
}

// With a refusal no ticks are told.
pub type RowAnswer = Result<RowText, Refusal>;
