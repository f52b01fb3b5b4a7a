// A pending server job from its two parts.
ghost use Rattle.std.specs.Prelude.{◌≡◌};
ghost use Rattle.table.specs.Parts.{pending_of};

use crate::Pending;

impl Pending {
    // By how many numbers its job lies behind it, and whether it is linked: of an unlinked one the number is not looked at.
    pub fn of(behind: u8, linked: bool) -> Pending
        ensures { result ≡ pending_of behind linked }
    {
        Pending {
            behind: linked.then_some(behind),
        }
    }
}
