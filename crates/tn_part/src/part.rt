//! A part of a machine.

ghost use Rattle.std.specs.Prelude.{◌≡◌, ◌↔◌, ◌≤◌, ◌&&◌, IfOk, IsTrue, MatchResult, is_some, not, option_copied, option_map};
ghost use Rattle.tn_base.specs.declared.event.Event.TheVariants as event;
ghost use Rattle.tn_base.specs.Does.{Does};
ghost use Rattle.tn_rows.specs.Ends.{bad_key_on, done_on, done_with, ended_on, final_on};
ghost use Rattle.tn_rows.specs.Events.{after, carried};
ghost use Rattle.tn_rows.specs.PartView.{DetectorV, HostV, LinkV, RouterV, TileV, detector_of, host_of, link_of, router_of, tile_of};
ghost use Rattle.tn_node.specs.PortRows.{all_empty};
ghost use Rattle.tn_router.specs.RouterView.{now_by as router_now_by};
ghost use Rattle.tn_router.specs.Rows.{route_row};
ghost use Rattle.tn_stamp.specs.declared.entry.Crossing.TheVariants as crossing;
ghost use Rattle.tn_tile.specs.Rows.{deliver_row, is_here, turn_row};
ghost use Rattle.tn_tile.specs.TileView.{now_by};
ghost use Rattle.tn_tile.specs.Turns.{StockLasts, TurnIs, moved};
ghost use Rattle.tn_part.specs.Views.{view_of};
ghost use Rattle.tn_part.specs.Turning.{TileTurnsUpTo, TurnsPart, TurnsUpTo, did_turn};
ghost use Rattle.tn_rows.specs.Roles.{offers};

use std::alloc::AllocError;
use std::marker::Model;
use tn_base::event::{Event, Outcome};
use tn_base::ids::{PartId, ThreadId};
use tn_base::port::Port;
use tn_detect::answer::Answer;
use tn_detect::detector::Detector;
use tn_host::host::Host;
use tn_link::link::Link;
use tn_pages::stock::PageStock;
use tn_router::moves::Routed;
use tn_router::router::Router;
use tn_thread::state::ThreadState;
use tn_tile::deliver::Did;
use tn_tile::step::Turned;
use tn_tile::tile::Tile;

/// What a part is.
#[derive(Drop)]
pub enum Contents<L> {
    /// A tile.
    Tile(Tile),
    /// A router.
    Router(Router),
    /// A link.
    Link(L),
    /// The host.
    Host(Host),
    /// The detector.
    Detector(Detector),
}

/// What came of a turn, and whether it ends a run.
#[derive(Clone, Copy)]
pub struct LastTurn {
    /// The turn, if one was made.
    pub turned: Turned,
    /// Whether the turn is final.
    pub ends: bool,
}

impl LastTurn {
    /// No turn.
    pub const NOTHING: LastTurn = LastTurn {
        turned: Turned::Nothing,
        ends: false,
    };
}

/// A part of a machine: a tile, a router, a link, the host, or the detector.
#[derive(Drop)]
pub struct Part<L: Link> {
    pub(crate) contents: Contents<L>,
}

impl<L: Link> Model for Part<L> {
    ghost use Rattle.tn_rows.specs.PartView.{PartView};

    ghost Value = { PartView };

    ghost use Rattle.tn_part.specs.Views.{view_of};

    ghost view = { λ p. view_of L.content p.contents };
}

impl<L: Link> Part<L> {
    /// A tile.
    pub fn tile(tile: Tile) -> Part<L>
        ensures { result ≡ TileV tile }
    {
        Part {
            contents: Contents::Tile(tile),
        }
    }

    /// A router.
    pub fn router(router: Router) -> Part<L>
        ensures { result ≡ RouterV router }
    {
        Part {
            contents: Contents::Router(router),
        }
    }

    /// A link.
    pub fn link(link: L) -> Part<L>
        ensures { result ≡ LinkV (L.content link) }
    {
        Part {
            contents: Contents::Link(link),
        }
    }

    /// The host.
    pub fn host(host: Host) -> Part<L>
        ensures { result ≡ HostV host.now }
    {
        Part {
            contents: Contents::Host(host),
        }
    }

    /// The detector.
    pub fn detector(detector: Detector) -> Part<L>
        ensures { result ≡ DetectorV detector }
    {
        Part {
            contents: Contents::Detector(detector),
        }
    }

    /// What the part is.
    #[inline(always)]
    pub fn contents(&self) -> &Contents<L>
        ensures { view_of L.content result.now ≡ self.now }
    {
        &self.contents
    }

    /// The same part.
    pub fn copy(&self) -> Result<Part<L>, AllocError>
        ensures { IfOk result (λ p. p ≡ self.now) }
    {
        match &self.contents {
            Contents::Tile(tile) => Ok(Part::tile(tile.copy()?)),
            Contents::Router(router) => Ok(Part::router(router.copy()?)),
            Contents::Link(link) => Ok(Part::link(link.copy()?)),
            Contents::Host(host) => Ok(Part::host(host.copy()?)),
            Contents::Detector(detector) => Ok(Part::detector(detector.copy()?)),
        }
    }

    /// Whether two parts are equal, but for the spare room of their lists.
    pub fn same(&self, other: &Part<L>) -> bool
        ensures { IsTrue result ↔ (self.now ≡ other.now) }
    {
        match (&self.contents, &other.contents) {
            (Contents::Tile(a), Contents::Tile(b)) => a.same(b),
            (Contents::Router(a), Contents::Router(b)) => a.same(b),
            (Contents::Link(a), Contents::Link(b)) => a.same(b),
            (Contents::Host(a), Contents::Host(b)) => a.same(b),
            (Contents::Detector(a), Contents::Detector(b)) => a.same(b),
            _ => false,
        }
    }

    /// The tile that the part is.
    pub fn as_tile(&self) -> Option<&Tile>
        ensures { option_copied result ≡ tile_of self.now }
    {
        match &self.contents {
            Contents::Tile(tile) => Some(tile),
            Contents::Router(_) | Contents::Link(_) | Contents::Host(_) | Contents::Detector(_) =>
                None,
        }
    }

    /// The router that the part is.
    pub fn as_router(&self) -> Option<&Router>
        ensures { option_copied result ≡ router_of self.now }
    {
        match &self.contents {
            Contents::Router(router) => Some(router),
            Contents::Tile(_) | Contents::Link(_) | Contents::Host(_) | Contents::Detector(_) =>
                None,
        }
    }

    /// The link that the part is.
    pub fn as_link(&self) -> Option<&L>
        ensures { option_map (λ l. L.content l.now) result ≡ link_of self.now }
    {
        match &self.contents {
            Contents::Link(link) => Some(link),
            Contents::Tile(_) | Contents::Router(_) | Contents::Host(_) | Contents::Detector(_) =>
                None,
        }
    }

    /// The host that the part is.
    pub fn as_host(&self) -> Option<&Host>
        ensures { option_map (λ h. h.now.now) result ≡ host_of self.now }
    {
        match &self.contents {
            Contents::Host(host) => Some(host),
            Contents::Tile(_) | Contents::Router(_) | Contents::Link(_) | Contents::Detector(_) =>
                None,
        }
    }

    /// The detector that the part is.
    pub fn as_detector(&self) -> Option<&Detector>
        ensures { option_copied result ≡ detector_of self.now }
    {
        match &self.contents {
            Contents::Detector(detector) => Some(detector),
            Contents::Tile(_) | Contents::Router(_) | Contents::Link(_) | Contents::Host(_) => None,
        }
    }

    /// The longest turn of a thread with pages of a full stock, and whether it ends a run.
    #[inline(always)]
    pub fn turn(&mut self, t: ThreadId, stock: &mut PageStock) -> LastTurn
        requires { 64 ≤ stock.old }
        ensures turn { TurnsPart result.turned t self.old self.new }
        ensures ends { result.ends ≡ (did_turn result.turned && is_some (ended_on t self.new)) }
        ensures stock { StockLasts result.turned stock.old stock.new }
    {
        match &mut self.contents {
            Contents::Tile(tile) if tile.is_here(t) => turn_long(tile, t, stock),
            _ => LastTurn::NOTHING,
        }
    }

    /// A turn of so many steps, where the thread can make them.
    pub fn turn_of(&mut self, t: ThreadId, n: u32) -> Result<Did, AllocError>
        ensures { MatchResult result (λ did. Does (moved did) (after (event.Turn t n) crossing.None self.old) self.old self.new) (λ _. self.new ≡ self.old) }
    {
        match &mut self.contents {
            Contents::Tile(tile) => turn_tile(tile, t, n),
            Contents::Router(_) | Contents::Link(_) | Contents::Host(_) | Contents::Detector(_) =>
                Ok(Did::Nothing),
        }
    }

    /// A turn of so many steps with pages of a full stock. If the thread can make only fewer steps, it makes these.
    pub fn turn_up_to(&mut self, t: ThreadId, n: u32, stock: &mut PageStock) -> Turned
        requires { 64 ≤ stock.old }
        ensures { TurnsUpTo result t n self.old self.new }
    {
        match &mut self.contents {
            Contents::Tile(tile) => turn_tile_up_to(tile, t, n, stock),
            Contents::Router(_) | Contents::Link(_) | Contents::Host(_) | Contents::Detector(_) =>
                Turned::Nothing,
        }
    }

    /// Delivers a thread's packet.
    #[inline(always)]
    pub fn deliver(&mut self, t: ThreadId) -> Did
        ensures { Does (moved result) (after (event.Deliver t) crossing.None self.old) self.old self.new }
    {
        let Contents::Tile(tile) = &mut self.contents else {
            return Did::Nothing;
        };
        deliver_tile(tile, t)
    }

    /// Whether a thread can make a step.
    pub fn can_turn(&self, t: ThreadId) -> bool
        ensures { result ≡ is_some (after (event.Turn t 1) crossing.None self.now) }
    {
        match &self.contents {
            Contents::Tile(tile) => tile.is_here(t) && tile.can_turn(t),
            Contents::Router(_) | Contents::Link(_) | Contents::Host(_) | Contents::Detector(_) =>
                false,
        }
    }

    /// Whether a thread's packet can be delivered.
    pub fn can_deliver(&self, t: ThreadId) -> bool
        ensures { result ≡ is_some (after (event.Deliver t) crossing.None self.now) }
    {
        match &self.contents {
            Contents::Tile(tile) => tile.is_here(t) && tile.can_deliver(t),
            Contents::Router(_) | Contents::Link(_) | Contents::Host(_) | Contents::Detector(_) =>
                false,
        }
    }

    /// A router does one record of a packet, or sends on the whole of one.
    pub fn route(&mut self, p: PartId) -> Did
        ensures { Does (moved result) (after (event.Route p) crossing.None self.old) self.old self.new }
    {
        let Contents::Router(router) = &mut self.contents else {
            return Did::Nothing;
        };
        did_route(router)
    }

    /// Whether a router can do so.
    pub fn can_route(&self, p: PartId) -> bool
        ensures { result ≡ is_some (after (event.Route p) crossing.None self.now) }
    {
        let Contents::Router(router) = &self.contents else {
            return false;
        };
        router.can_route()
    }

    /// Whether a packet waits here for a way out.
    pub fn offers(&self) -> bool
        ensures { result ≡ offers self.now }
    {
        match &self.contents {
            Contents::Tile(tile) => offers_any(tile),
            Contents::Router(router) => sends_any(router),
            Contents::Link(_) | Contents::Host(_) | Contents::Detector(_) => false,
        }
    }

    /// Whether a link has a packet here.
    #[inline(always)]
    pub fn carries(&self) -> bool
        ensures { result ≡ is_some (carried self.now) }
    {
        match &self.contents {
            Contents::Link(link) => link.front().is_some(),
            Contents::Tile(_) | Contents::Router(_) | Contents::Host(_) | Contents::Detector(_) =>
                false,
        }
    }

    /// How a run ends with a turn of this thread after which the part is this one, if that turn is final.
    pub fn ended_by(&self, t: ThreadId) -> Option<Outcome>
        ensures { result ≡ ended_on t self.now }
    {
        match &self.contents {
            Contents::Tile(tile) => end_on(tile, t),
            Contents::Router(_) | Contents::Link(_) | Contents::Host(_) | Contents::Detector(_) =>
                None,
        }
    }

    /// How a run ends with a routing after which the part is this one, where the router found a bad key.
    pub fn bad_key(&self) -> Option<Outcome>
        ensures { result ≡ bad_key_on self.now }
    {
        match &self.contents {
            Contents::Router(router) => router.ended().map(Outcome::BadKey),
            Contents::Tile(_) | Contents::Link(_) | Contents::Host(_) | Contents::Detector(_) =>
                None,
        }
    }

    /// How a run ends with an announcement after which the part is this one: every thread has ended, and the host's script is at
    /// its end.
    pub fn done(&self) -> Option<Outcome>
        ensures { result ≡ done_on self.now }
    {
        match &self.contents {
            Contents::Detector(detector) => done_with(detector.answer()),
            Contents::Tile(_) | Contents::Router(_) | Contents::Link(_) | Contents::Host(_) => None,
        }
    }
}

impl<L: Link> Part<L> {
    /// How a run ends with this event, after which the event's own part is this one, if the event is final.
    #[inline(always)]
    pub fn final_on(&self, e: &Event) -> Option<Outcome>
        ensures { result ≡ final_on e.now self.now }
    {
        match *e {
            Event::Turn(t, _) => self.ended_by(t),
            Event::Route(_) => self.bad_key(),
            Event::Announce => self.done(),
            _ => None,
        }
    }
}

/// How a run ends with an announcement of this answer.
fn done_with(answer: Option<Answer>) -> Option<Outcome>
    ensures { result ≡ done_with answer }
{
    match answer {
        Some(Answer::AllDead) => Some(Outcome::Done),
        Some(Answer::Live(_)) | None => None,
    }
}

/// Whether a packet waits in a tile for a way out.
fn offers_any(tile: &Tile) -> bool
    ensures { result ≡ not (all_empty tile.now.now.node.out) }
{
    !(tile.buffer(Port::East).is_none()
        && tile.buffer(Port::West).is_none()
        && tile.buffer(Port::South).is_none()
        && tile.buffer(Port::North).is_none()
        && tile.buffer(Port::Up).is_none()
        && tile.buffer(Port::Down).is_none()
        && tile.buffer(Port::HostPort).is_none())
}

/// Whether a packet waits in a router for a way out.
fn sends_any(router: &Router) -> bool
    ensures { result ≡ not (all_empty router.now.now.node.out) }
{
    !(router.buffer(Port::East).is_none()
        && router.buffer(Port::West).is_none()
        && router.buffer(Port::South).is_none()
        && router.buffer(Port::North).is_none()
        && router.buffer(Port::Up).is_none()
        && router.buffer(Port::Down).is_none()
        && router.buffer(Port::HostPort).is_none())
}

/// Delivers the packet of a thread of a tile, if the packet can be delivered.
fn deliver_tile(tile: &mut Tile, t: ThreadId) -> Did
    ensures { Does (moved result) (now_by tile.old (deliver_row tile.old.plan t.0 tile.old.now)) tile.old tile.new }
{
    if !tile.is_here(t) {
        return Did::Nothing;
    }
    tile.deliver(t)
}

/// A Route, where the router can make one. The bad key that it finds stays noted there.
fn did_route(router: &mut Router) -> Did
    ensures { Does (moved result) (router_now_by router.old (route_row router.old.plan router.old.now)) router.old router.new }
{
    match router.route() {
        Routed::Moved => Did::Moved,
        Routed::BadKey(_) => Did::Moved,
        Routed::Nothing => Did::Nothing,
    }
}

/// A turn of so many steps, made on a copy of the tile.
fn turn_tile(tile: &mut Tile, t: ThreadId, n: u32) -> Result<Did, AllocError>
    ensures { MatchResult result (λ did. Does (moved did) (now_by tile.old (turn_row tile.old.plan t.0 n tile.old.now)) tile.old tile.new) (λ _. tile.new ≡ tile.old) }
{
    let most = tile.shape().numbers().turn;
    if !tile.is_here(t) || n == 0 || n > most || !tile.counts() {
        return Ok(Did::Nothing);
    }
    let mut after = tile.copy()?;
    let mut stock = tile.stock(n)?;
    if after.turn_up_to(t, n, &mut stock) < n {
        return Ok(Did::Nothing);
    }
    *tile = after;
    Ok(Did::Moved)
}

/// A turn of so many steps of a thread of a tile. If the thread can make only fewer steps, it makes these.
fn turn_tile_up_to(tile: &mut Tile, t: ThreadId, n: u32, stock: &mut PageStock) -> Turned
    requires { 64 ≤ stock.old }
    ensures { TileTurnsUpTo result t.0 n tile.old tile.new }
{
    let most = tile.shape().numbers().turn;
    if !tile.is_here(t) || n == 0 || n > most || !tile.counts() {
        return Turned::Nothing;
    }
    match tile.turn_up_to(t, n, stock) {
        0 => Turned::Nothing,
        made => Turned::Moved(made),
    }
}

/// The longest turn of a thread of a tile, and whether it ends a run.
#[inline(always)]
fn turn_long(tile: &mut Tile, t: ThreadId, stock: &mut PageStock) -> LastTurn
    requires here { IsTrue (is_here tile.old.plan t.0) }
    requires pages { 64 ≤ stock.old }
    ensures turn { TurnIs result.turned t.0 tile.old tile.new }
    ensures ends { result.ends ≡ (did_turn result.turned && is_some (ended_on t (TileV tile.new))) }
    ensures stock { StockLasts result.turned stock.old stock.new }
{
    match tile.turn(t, stock) {
        Turned::Nothing => LastTurn::NOTHING,
        Turned::Moved(n) => LastTurn {
            turned: Turned::Moved(n),
            ends: ends_on(tile, t),
        },
    }
}

/// Whether a turn of `t` that left the tile so ends a run: the thread trapped, or has used its fuel.
#[inline(always)]
fn ends_on(tile: &Tile, t: ThreadId) -> bool
    requires { IsTrue (is_here tile.now.plan t.0) }
    ensures { result ≡ is_some (ended_on t (TileV tile.now)) }
{
    let thread = tile.thread(t);
    match thread.state() {
        ThreadState::Trapped(_) => true,
        _ => thread.steps() == tile.shape().numbers().fuel,
    }
}

/// The outcome of a run whose last event is a turn of `t` that left the tile so: the thread trapped, or has used its fuel. None
/// if that turn was not final.
fn end_on(tile: &Tile, t: ThreadId) -> Option<Outcome>
    ensures { result ≡ ended_on t (TileV tile.now) }
{
    if !tile.is_here(t) {
        return None;
    }
    let thread = tile.thread(t);
    match thread.state() {
        ThreadState::Trapped(trap) => Some(Outcome::Trapped(t, *trap)),
        _ if thread.steps() == tile.shape().numbers().fuel => Some(Outcome::Spent(t)),
        _ => None,
    }
}
