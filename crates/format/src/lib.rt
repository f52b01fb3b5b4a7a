// The text of a table, and reading it: specs/. This crate has no code.

#![tactic(auto)]

// The refusals of document 01, and after them those of document 02's requests. `number_of`, `line_of` and `column_of` of specs/Refusals.antt
// give the number, the line and the column of each.
#[derive(Clone, Copy)]
pub enum Refusal {
    TooLong,
    Misspelled { line: u32, column: u32 },
    OutsideLimits { line: u32, column: u32 },
    AgainstPredecessorRules { line: u32, column: u32 },
    LongHyperperiod,
    NotLoadable,
    Backlog,
    Unsettled,
    PastTheStop,
    ShortBuffer,
    // R-1: not 1 to 16 tables, or lengths that do not add up to the bytes.
    WrongLengths,
    // R-2: a node whose budget is above its level times its period.
    CannotKeepUp,
}
