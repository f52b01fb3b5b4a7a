// What the program prints of a text to mend: what is left of it, or the list of what was changed.
#![tactic(auto)]

ghost use Rattle.std.specs.Prelude.{◌≡◌, List, ℕ, ◌≤◌, ◌<◌, length, take};
ghost use Rattle.schedule.specs.Limits.{table_bytes};
ghost use Rattle.rules.specs.Answers.{printed};
ghost use Rattle.writing.specs.Written.{Written};
ghost use Rattle.salvaging.specs.Salvage.{longest_list};
ghost use Rattle.printouts.specs.declared.Output.TheVariants.{Text, Fixes};
ghost use Rattle.printouts.specs.Outputs.{output_of};

// What is left of a text, or the list of what was changed.
#[derive(Clone, Copy)]
pub enum Output {
    Text,
    Fixes,
}

// What is left, or a refusal's number, line and column, at the start of `text`. There is room for both outputs, so none is refused as 10.
pub fn put_left(bytes: &[u8], text: &mut [u8], list: &mut [u8]) -> usize
    requires to_in_bounds { table_bytes.to ≤ length text.old }
    requires longest_list_in_bounds { longest_list ≤ length list.old }
    ensures { Written (printed (output_of Text bytes.now)) text.old text.new result }
{
    match salvage::salvage(bytes, &mut *text, list) {
        Ok(lengths) => lengths.text,
        Err(f) => {
            let n = writing::refusal_length(f);
            writing::put_refusal(&mut *text, f);
            n
        }
    }
}

// The list, or a refusal's, at the start of `list`. This one and `put_left` are two, since each promises what its own buffer holds.
pub fn put_fixes(bytes: &[u8], text: &mut [u8], list: &mut [u8]) -> usize
    requires to_in_bounds { table_bytes.to ≤ length text.old }
    requires longest_list_in_bounds { longest_list ≤ length list.old }
    ensures { Written (printed (output_of Fixes bytes.now)) list.old list.new result }
{
    match salvage::salvage(bytes, text, &mut *list) {
        Ok(lengths) => lengths.list,
        Err(f) => {
            let n = writing::refusal_length(f);
            writing::put_refusal(&mut *list, f);
            n
        }
    }
}

// The same for every input of which the first n bytes of the room are as much as the room holds: a room past the limit of a table's bytes is
// enough.
pub fn put_left_to(room: &[u8], n: usize, text: &mut [u8], list: &mut [u8]) -> usize
    requires to_in_bounds { table_bytes.to < length room.now }
    requires n_in_bounds { n ≤ length room.now }
    requires to_in_bounds_2 { table_bytes.to ≤ length text.old }
    requires longest_list_in_bounds { longest_list ≤ length list.old }
    ensures by_index { (input : List ℕ) → take n room.now ≡ take (length room.now) input → Written (printed (output_of Text input)) text.old text.new result }
    ensures upper_bound { result ≤ length text.new }
{
    put_left(&room[..n], text, list)
}

pub fn put_fixes_to(room: &[u8], n: usize, text: &mut [u8], list: &mut [u8]) -> usize
    requires to_in_bounds { table_bytes.to < length room.now }
    requires n_in_bounds { n ≤ length room.now }
    requires to_in_bounds_2 { table_bytes.to ≤ length text.old }
    requires longest_list_in_bounds { longest_list ≤ length list.old }
    ensures by_index { (input : List ℕ) → take n room.now ≡ take (length room.now) input → Written (printed (output_of Fixes input)) list.old list.new result }
    ensures upper_bound { result ≤ length list.new }
{
    put_fixes(&room[..n], text, list)
}
