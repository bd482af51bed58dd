//! What the detector learns of a tile, and what it tells it.

ghost use Rattle.std.specs.Prelude.{◌≡◌, ◌<◌, not};
ghost use Rattle.std.specs.List.{list_all, list_any};
ghost use Rattle.tn_tile.specs.Receivers.{is_dead};
ghost use Rattle.tn_tile.specs.Rows.{gone_on, released, tile_facts, tile_whitened};
ghost use Rattle.tn_tile.specs.Still.{all_vote, does_nothing, has_live, is_nil, is_still, votes_for};
ghost use Rattle.tn_tile.specs.TileView.{with_now};

use crate::ready::all_ready;
use crate::tile::Tile;
use tn_node::facts::PartFacts;
use tn_slots::pool::Pool;
use tn_thread::state::ThreadState;
use tn_thread::thread::Thread;

impl Tile {
    /// Whether the tile does nothing by itself: all its threads are idle or ended, all queues are empty, and no
    /// packet is pending or goes on.
    pub fn still(&self) -> bool
        ensures { result ≡ is_still self.now.now }
    {
        all_rest(self.state.threads.all())
            && all_empty(&self.state.pool)
            && self.state.pending.is_empty()
            && self.state.node.out.is_empty()
    }

    /// Whether a thread of the tile has not ended.
    pub fn live(&self) -> bool
        ensures { result ≡ has_live self.now.now }
    {
        any_live(self.state.threads.all())
    }

    /// Whether all threads that have not ended vote for the end.
    pub fn votes(&self) -> bool
        ensures { result ≡ all_vote self.now.now }
    {
        all_agree(self.state.threads.all())
    }

    /// Whether the tile took a packet from a link since it reported last.
    pub fn black(&self) -> bool
        ensures { result ≡ self.now.now.node.black }
    {
        self.state.node.black
    }

    /// Whether the tile puts no packet on a link.
    pub fn held(&self) -> bool
        ensures { result ≡ self.now.now.node.held }
    {
        self.state.node.held
    }

    /// Packets put on links less packets taken from links.
    pub fn counter(&self) -> i64
        ensures { result ≡ self.now.now.node.counter }
    {
        self.state.node.counter
    }

    /// What the tile tells the detector.
    pub fn facts(&self) -> PartFacts
        ensures { result ≡ tile_facts self.now.now }
    {
        PartFacts {
            still: self.still(),
            black: self.black(),
            counter: self.counter(),
            live: self.live(),
            votes: self.votes(),
            at_end: false,
            value: 0,
        }
    }

    /// The tile has reported.
    pub fn whiten(&mut self)
        ensures { self.new ≡ with_now self.old (tile_whitened self.old.now) }
    {
        self.state.node.whiten();
    }

    /// Gives all idle threads their answer, and holds the tile's packets until it is let go.
    pub fn release(&mut self, value: u32)
        ensures { self.new ≡ with_now self.old (released value self.old.now) }
    {
        self.state.threads.tell(value);
        self.state.node.hold();
        self.ready = all_ready(&self.plan, &self.state);
    }

    /// Lets the tile's packets go.
    pub fn go(&mut self)
        ensures { self.new ≡ with_now self.old (gone_on self.old.now) }
    {
        self.state.node.go();
    }
}

/// Whether a thread does nothing by itself.
fn rests(state: &ThreadState) -> bool
    ensures { result ≡ does_nothing state.now }
{
    match state {
        ThreadState::Idle(_) | ThreadState::Dead(_) => true,
        ThreadState::Run
        | ThreadState::Wait(_)
        | ThreadState::Answered(_)
        | ThreadState::Trapped(_) => false,
    }
}

/// Whether a thread has ended.
fn is_dead(state: &ThreadState) -> bool
    ensures { result ≡ is_dead state.now }
{
    match state {
        ThreadState::Dead(_) => true,
        ThreadState::Run
        | ThreadState::Wait(_)
        | ThreadState::Idle(_)
        | ThreadState::Answered(_)
        | ThreadState::Trapped(_) => false,
    }
}

/// Whether a thread has ended or votes for the end.
fn agrees(state: &ThreadState) -> bool
    ensures { result ≡ votes_for state.now }
{
    match state {
        ThreadState::Idle(vote) => *vote,
        ThreadState::Dead(_) => true,
        ThreadState::Run
        | ThreadState::Wait(_)
        | ThreadState::Answered(_)
        | ThreadState::Trapped(_) => false,
    }
}

/// Whether all threads do nothing by themselves.
fn all_rest(threads: &[Thread]) -> bool
    ensures { result ≡ list_all (λ t. does_nothing t.state) threads.now }
{
    threads.iter().all(|t| rests(t.state()))
}

/// Whether all threads have ended or vote for the end.
fn all_agree(threads: &[Thread]) -> bool
    ensures { result ≡ list_all (λ t. votes_for t.state) threads.now }
{
    threads.iter().all(|t| agrees(t.state()))
}

/// Whether a thread has not ended.
fn any_live(threads: &[Thread]) -> bool
    ensures { result ≡ list_any (λ t. not (is_dead t.state)) threads.now }
{
    threads.iter().any(|t| !is_dead(t.state()))
}

/// Whether all queues are empty.
fn all_empty(pool: &Pool) -> bool
    ensures { result ≡ list_all is_nil pool.now.queues }
{
    for t in 0..pool.thread_count() {
        if pool.queue_len(t) != 0 {
            return false;
        }
    }
    true
}
