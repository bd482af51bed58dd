//! Ranges of stops.

ghost use Rattle.std.specs.Prelude.{◌≡◌, ◌≤◌, ◌<◌, ◌+◌, ◌↔◌, true};
ghost use Rattle.tn_agenda.specs.Shares.{IsOf, share_start};

/// The stops of one worker: those from the first one on, up to the end.
#[derive(Clone, Copy, PartialEq, Eq, Debug)]
pub struct Share {
    pub first: u32,
    /// One behind the last stop.
    pub end: u32,
}

impl Share {
    /// The share of a worker. The workers' shares lie one behind the other, and are equal up to one stop.
    pub fn of(stops: u32, workers: u32, worker: u32) -> Share
        requires { worker < workers }
        ensures first { result.first ≡ share_start stops workers worker }
        ensures end { result.end ≡ share_start stops workers (worker + 1) }
    {
        Share {
            first: start(stops, workers, worker),
            end: start(stops, workers, worker + 1),
        }
    }

    /// Whether a stop is of the share.
    pub fn has(&self, stop: u32) -> bool
        ensures { (result ≡ true) ↔ IsOf self.now stop }
    {
        self.first <= stop && stop < self.end
    }
}

fn start(stops: u32, workers: u32, worker: u32) -> u32
    requires { (worker ≤ workers) × (0 < workers) }
    ensures { result ≡ share_start stops workers worker }
{
    (worker as u64 * stops as u64 / workers as u64) as u32
}
