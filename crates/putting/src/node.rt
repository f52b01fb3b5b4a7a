// The lines of a number and of an `after` list, and those of a node.
ghost use Rattle.std.specs.Prelude.{◌<◌, ◌≤◌, length};
ghost use Rattle.numbers.specs.Masks.{width};
ghost use Rattle.table.specs.Keys.{place};
ghost use Rattle.writing.specs.Written.{Written};
ghost use Rattle.putting.specs.Texts.{heading, number_line, two_lines, three_lines, list_ended, after_line, node_lines};

use memory::PhalandrixNode;
use table::Key;
use writing::{put_bytes, put_ended};

// How the line of key k begins.
pub fn put_heading(part: &mut [u8], k: Key) -> usize
    requires { length (heading (place k)) ≤ length part.old }
    ensures { Written (heading (place k)) part.old part.new result }
{
    let at = put_bytes(&mut *part, k.name());
    part[at] = b'=';
    at + 1
}

pub fn put_number_line(part: &mut [u8], k: Key, v: u32) -> usize
    requires { length (number_line (place k) v) ≤ length part.old }
    ensures { Written (number_line (place k) v) part.old part.new result }
{
    let at = put_heading(&mut *part, k);
    at + put_ended(&mut part[at..], v, b'\n')
}

// Two lines, each of a key and its number; and three.
pub fn put_two(part: &mut [u8], one: (Key, u32), two: (Key, u32)) -> usize
    requires { length (two_lines (place one.0) one.1 (place two.0) two.1) ≤ length part.old }
    ensures { Written (two_lines (place one.0) one.1 (place two.0) two.1) part.old part.new result }
{
    let at = put_number_line(&mut *part, one.0, one.1);
    at + put_number_line(&mut part[at..], two.0, two.1)
}

pub fn put_three(part: &mut [u8], one: (Key, u32), two: (Key, u32), three: (Key, u32)) -> usize
    requires { length (three_lines (place one.0) one.1 (place two.0) two.1 (place three.0) three.1) ≤ length part.old }
    ensures { Written (three_lines (place one.0) one.1 (place two.0) two.1 (place three.0) three.1) part.old part.new result }
{
    let at = put_number_line(&mut *part, one.0, one.1);
    at + put_two(&mut part[at..], two, three)
}

// The numbers in a mask, the lowest first, a comma behind each but the last, and LF behind that.
pub fn put_numbers(part: &mut [u8], mask: u32) -> usize
    requires { (0 < mask) × (length (list_ended mask) ≤ length part.old) }
    ensures { Written (list_ended mask) part.old part.new result }
{
    let k = numbers::lowest(mask);
    let rest = numbers::without(mask, k);
    if rest == 0 {
        return put_ended(part, k + 1, b'\n');
    }
    let at = put_ended(&mut *part, k + 1, b',');
    at + put_numbers(&mut part[at..], rest)
}

pub fn put_list(part: &mut [u8], mask: u32) -> usize
    requires { length (list_ended mask) ≤ length part.old }
    ensures { Written (list_ended mask) part.old part.new result }
{
    if mask == 0 {
        put_bytes(part, b"none\n")
    } else {
        put_numbers(part, mask)
    }
}

pub fn put_after(part: &mut [u8], mask: u32) -> usize
    requires { length (after_line mask) ≤ length part.old }
    ensures { Written (after_line mask) part.old part.new result }
{
    let at = put_heading(&mut *part, Key::After);
    at + put_list(&mut part[at..], mask)
}

pub fn put_node(part: &mut [u8], x: PhalandrixNode) -> usize
    requires { length (node_lines x) ≤ length part.old }
    ensures { Written (node_lines x) part.old part.new result }
{
    let at = put_two(&mut *part, (Key::Budget, x.budget), (Key::Level, x.level));
    at + put_after(&mut part[at..], x.after)
}
