// Which instant of the last round matches a later one, and how many hyperperiods lie between them.
ghost use Rattle.std.specs.Prelude.{◌≡◌, ◌-◌, ◌≤◌};
ghost use Rattle.schedule.specs.FarRows as Rules;

// The instant at which the last round begins.
pub fn last_round(hyper: u32, stop: u32) -> u32
    ensures { result ≡ Rules.last_round hyper stop }
{
    stop.saturating_sub(hyper)
}

#[tactic(auto, unfolding(schedule::specs::FarRows::matching))]
pub fn matching(hyper: u32, stop: u32, t: u32) -> u32
    requires { 1 ≤ hyper }
    ensures { result ≡ Rules.matching hyper stop t }
{
    let begin = last_round(hyper, stop);
    begin + t.saturating_sub(begin) % hyper
}

#[tactic(auto, unfolding(schedule::specs::FarRows::passed))]
pub fn passed(hyper: u32, stop: u32, t: u32) -> u32
    requires { 1 ≤ hyper }
    ensures { result ≡ Rules.passed hyper stop t }
{
    t.saturating_sub(last_round(hyper, stop)) / hyper
}
