// A word in the room that it was put into.
ghost use Rattle.std.specs.Prelude.{◌≡◌, ◌≤◌, length, take};
ghost use Rattle.asking.specs.Words.{longest_word};

// The first bytes of a room, up to the word's end. No room is too short for a word of the program, and no word is longer than its room.
#[derive(Clone, Copy)]
pub struct Word<'a> {
    pub room: &'a [u8],
    pub end: usize,
    pub ghost wide: { longest_word ≤ length room.now },
    pub ghost within: { end ≤ length room.now },
}

impl<'a> Word<'a> {
    pub fn bytes(&self) -> &'a [u8]
        ensures { result.now ≡ take self.now.end self.now.room.now }
    {
        &self.room[..self.end]
    }
}
