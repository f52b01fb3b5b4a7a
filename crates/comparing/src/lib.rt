// The states of two boundaries, compared number by number and window by window; what is kept of one. Each function computes what the
// definition of its name in window/specs says.
#![tactic(auto)]

ghost use Rattle.std.specs.Prelude.{◌≡◌, ◌+◌, ◌*◌, ◌≤◌};
ghost use Rattle.window.specs.Entries.{places, window, slots};
ghost use Rattle.window.specs.Comparing as Mirror;

use table::{Kept, Server, State, Table};

// Whether n slots hold the same links.
pub fn same_window(s: &Server, r: &Server, n: u8) -> bool
    ensures { result ≡ Mirror.same_window s.now r.now n }
{
    let most = usize::from(n).min(Table::WINDOW);
    s.jobs[..most] == r.jobs[..most]
}

pub fn same_windows(
    a: &[Server; Table::SERVERS],
    b: &[Server; Table::SERVERS],
    count: &[u8; Table::SERVERS],
    n: usize,
) -> bool
    requires { n ≤ places }
    ensures { result ≡ Mirror.same_windows a.now b.now count.now n }
{
    (0..n).all(|i| same_window(&a[i], &b[i], count[i]))
}

// Whether the first n entries of two lists of counts are the same.
pub fn same_counts<'a>(x: &'a [u8; Table::SERVERS], y: &'a [u8; Table::SERVERS], n: usize) -> bool
    requires { n ≤ places }
    ensures { result ≡ Mirror.same_counts x.now y.now n }
{
    x[..n] == y[..n]
}

// Whether the first n servers are in the same phase, `hyper` ticks later.
pub fn same_phases<'a>(
    next: &'a [u32; Table::SERVERS],
    kept: &'a [u32; Table::SERVERS],
    hyper: u32,
    n: usize,
) -> bool
    requires { n ≤ places }
    ensures { result ≡ Mirror.same_phases next.now kept.now hyper n }
{
    (0..n).all(|i| next[i] == kept[i].saturating_add(hyper))
}

// Whether n budgets left, from `base` on, are the same.
pub fn same_slots<'a>(
    left: &'a [u16; Table::SLOTS],
    kept: &'a [u16; Table::SLOTS],
    base: usize,
    n: u8,
) -> bool
    requires { base + window ≤ slots }
    ensures { result ≡ Mirror.same_slots left.now kept.now base n }
{
    let most = usize::from(n).min(Table::WINDOW);
    left[base..base + most] == kept[base..base + most]
}

// Whether the budgets left of the pending server jobs of the first n servers are the same.
pub fn same_left<'a>(
    left: &'a [u16; Table::SLOTS],
    kept: &'a [u16; Table::SLOTS],
    count: &'a [u8; Table::SERVERS],
    n: usize,
) -> bool
    requires { n ≤ places }
    ensures { result ≡ Mirror.same_left left.now kept.now count.now n }
{
    (0..n).all(|i| same_slots(left, kept, i * Table::WINDOW, count[i]))
}

// Whether two states are the same in the first n servers, `hyper` ticks apart.
pub fn same_states(state: &State, kept: &Kept, hyper: u32, n: usize) -> bool
    requires { n ≤ places }
    ensures { result ≡ Mirror.same_states state.now kept.now hyper n }
{
    same_counts(&state.count, &kept.count, n)
        && same_counts(&state.unfinished, &kept.unfinished, n)
        && same_counts(&state.unlinked, &kept.unlinked, n)
        && same_phases(&state.next, &kept.next, hyper, n)
        && same_left(&state.left, &kept.left, &state.count, n)
        && same_windows(&state.servers, &kept.servers, &state.count, n)
}

// The first n servers of a state, kept.
pub fn keep(kept: &mut Kept, state: &State, n: usize)
    requires { n ≤ places }
    ensures { kept.new ≡ Mirror.keep state.now kept.old n }
{
    kept.servers[..n].copy_from_slice(&state.servers[..n]);
    let slots = n * Table::WINDOW;
    kept.left[..slots].copy_from_slice(&state.left[..slots]);
    kept.count = state.count;
    kept.unfinished = state.unfinished;
    kept.unlinked = state.unlinked;
    kept.next = state.next;
}
