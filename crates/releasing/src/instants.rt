// Which servers release at an instant, and whether that makes a backlog.
ghost use Rattle.std.specs.Prelude.{◌≡◌, ◌≤◌, ◌<◌};
ghost use Rattle.window.specs.Entries.{places};
ghost use Rattle.window.specs.Releasing as Mirror;

use table::{State, Table};

// The earliest of the first n instants.
pub fn earliest(next: &[u32; Table::SERVERS], n: usize) -> u32
    requires { n ≤ places }
    ensures { result ≡ Mirror.earliest next.now n }
{
    let mut least = u32::MAX;
    for instant in &next[..n] {
        least = least.min(*instant);
    }
    least
}

// Whether the server at i releases at t and has no room: a full window or, of a sink, as many unfinished jobs as are allowed.
fn is_full(state: &State, room: &[u8; Table::SERVERS], t: u32, i: usize) -> bool
    requires { i < places }
    ensures { result ≡ Mirror.full_at state.now.next state.now.count state.now.unfinished room.now t i }
{
    state.next[i] == t && (Table::PENDING as u8 <= state.count[i] || room[i] <= state.unfinished[i])
}

// Whether one of the first n servers is. (Every entry is looked at: that is quicker than to stop at the first.)
pub fn any_full(state: &State, room: &[u8; Table::SERVERS], t: u32, n: usize) -> bool
    requires { n ≤ places }
    ensures { result ≡ Mirror.any_full state.now.next state.now.count state.now.unfinished room.now t n }
{
    let mut any = false;
    for i in 0..n {
        any |= is_full(state, room, t, i);
    }
    any
}

// Whether the server at i releases at t. (It has room for one more: a walk has tested for a backlog before.)
pub fn releases(state: &State, i: usize, t: u32) -> bool
    requires { i < places }
    ensures { result ≡ Mirror.releases_at state.now.next state.now.count i t }
{
    state.next[i] == t && state.count[i] < Table::PENDING as u8
}
