// What a walk to an instant shows: how it ended, when, and the row there. A row call is made of one such look, and past the stop of a settled
// walk of a second. Either engine gives them: specs/ says what is made of them, and proofs/ that it is the rules' row.
#![tactic(auto)]

ghost use Rattle.std.specs.Prelude.{◌≡◌};

use window::How;
use writing::Row;

// At the instant asked; or, at or before it, at the stop of a walk that settled, or of one that did not.
#[derive(Clone, Copy)]
pub enum End {
    Reached,
    Settled,
    Stopped,
}

impl From<How> for End {
    ghost use Rattle.looking.specs.Looking.{end_by};

    ghost from_gives = { λ how end. end ≡ end_by how };

    fn from(how: How) -> End {
        match how {
            How::Settled(_) => End::Settled,
            How::Unsettled | How::Backlog => End::Stopped,
            How::Reached => End::Reached,
        }
    }
}

#[derive(Clone, Copy)]
pub struct Look {
    pub end: End,
    pub ticks: u32,
    pub row: Row,
}
