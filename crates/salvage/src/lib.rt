// Salvage: a text that an editor spoiled is mended, and what was mended is listed, in two lent buffers. The bytes are gone over twice: first
// to measure, then, when both outputs fit, to write.
#![tactic(auto)]

mod exports;
mod outputs;

pub use exports::{PhalandrixSalvage, phalandrix_salvage};
pub use outputs::{LIST_BYTES, salvage};
