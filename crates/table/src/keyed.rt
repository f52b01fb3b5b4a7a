// What names a key: the key, or the number of its place in the order of the keys, counted from 0.
ghost use Rattle.std.specs.Prelude.{◌≡◌, ℕ, eqb};
ghost use Rattle.format.specs.Keys.{key_at, after};
ghost use Rattle.table.specs.Limits.{coded};
ghost use Rattle.table.specs.Keys.{place};

use crate::{Key, Range, Table};

pub trait Keyed: Copy {
    ghost key_number: { Self → ℕ };

    fn key_name(self) -> &'static [u8]
        ensures { result.now ≡ (key_at (key_number self)).name };

    fn key_range(self) -> Range
        ensures { result ≡ coded (key_at (key_number self)).range };

    fn is_after(self) -> bool
        ensures { result ≡ eqb (key_number self) after };
}

impl Keyed for Key {
    ghost key_number = { place };

    fn key_name(self) -> &'static [u8] {
        self.name()
    }

    fn key_range(self) -> Range {
        self.range()
    }

    fn is_after(self) -> bool {
        self == Key::After
    }
}

// Past the last one stands a key without a name.
impl Keyed for usize {
    ghost key_number = { λ k. k };

    fn key_name(self) -> &'static [u8] {
        Table::key(self).name
    }

    fn key_range(self) -> Range {
        Table::key(self).range
    }

    fn is_after(self) -> bool {
        self == Key::After as usize
    }
}
