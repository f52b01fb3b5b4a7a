// The server jobs that run: the best, then the best after it, and so on (rule 5). Nothing is laid out but each server's own head: the key
// of its first ready server job that is not chosen yet. Each function computes what the definition of its name in window/specs says.
#![tactic(auto)]

ghost use Rattle.std.specs.Prelude.{◌≡◌, ◌≤◌};
ghost use Rattle.schedule.specs.Limits as Limits;
ghost use Rattle.window.specs.Entries.{places};
ghost use Rattle.window.specs.Choosing as Mirror;

use table::Table;

// The least of the first n heads that is not below `from`; NO_KEY where none is. (Without a branch, so that it is done several at a time.)
pub fn best_from(heads: &[u32; Table::SERVERS], n: usize, from: u32) -> u32
    requires { n ≤ places }
    ensures { result ≡ Mirror.best_from heads.now from n }
{
    let mut best = Table::NO_KEY;
    for head in &heads[..n] {
        let k = if *head < from { Table::NO_KEY } else { *head };
        best = best.min(k);
    }
    best
}

// At most p of them: their keys put into `run`, rising, and into `at` where their budgets left stand, at place × WINDOW + slot; returns how many. The
// head of a server that has no more ready ones stays as it is, below `from`.
pub fn choose<'a>(
    run: &mut [u32; Table::RUNNING],
    at: &mut [u16; Table::RUNNING],
    first: &'a [u32; Table::SERVERS],
    count: &'a [u8; Table::SERVERS],
    level: &'a [u8; Table::SERVERS],
    step: &'a [u32; Table::SERVERS],
    n: usize,
    p: usize,
) -> usize
    requires { (n ≤ places) × (p ≤ (Limits.processors).to) }
    ensures { Mirror.Picked (Mirror.picks first.now count.now level.now step.now n run.old at.old p) result run.new at.new }
{
    let mut heads = *first;
    let mut taken = [0u8; Table::SERVERS];
    let mut from: u32 = 0;
    for m in 0..p {
        let key = best_from(&heads, n, from);
        if key == Table::NO_KEY {
            return m;
        }
        let i = (key % Table::ALL_NODES_TO) as usize;
        let d = taken[i] % Table::PENDING as u8;
        run[m] = key;
        at[m] = i as u16 * Table::PENDING as u16 + d as u16;
        if d + 1 < count[i].min(level[i]) {
            taken[i] = d + 1;
            heads[i] = key.saturating_add(step[i]);
        }
        from = key + 1;
    }
    p
}
