//! Events of the detector: visits to the parts that it visits, and what it does alone.

ghost use Rattle.std.specs.Prelude.{◌≡◌, ◌<◌, IsSome, Some, is_some};
ghost use Rattle.tn_base.specs.declared.event.Event.TheVariants as event;
ghost use Rattle.tn_base.specs.Does.{Does};
ghost use Rattle.tn_detect.specs.DetectorView.{now_by};
ghost use Rattle.tn_detect.specs.Rows.{announce_row, begin_row};
ghost use Rattle.tn_rows.specs.DetectorDeed.{confirms, lets_go, releases, view_of};
ghost use Rattle.tn_rows.specs.Events.{after, meets, told_by};
ghost use Rattle.tn_rows.specs.PartView.{DetectorV};
ghost use Rattle.tn_stamp.specs.declared.entry.Crossing.TheVariants as crossing;
ghost use Rattle.tn_tile.specs.Turns.{moved};
ghost use Rattle.tn_part.specs.Joint.{DoesBoth};
ghost use Rattle.tn_rows.specs.Roles.{Visits};
ghost use Rattle.tn_part.specs.Visits.{visit_event, visit_row, visited_by};
ghost use Rattle.tn_rows.specs.Visited.{going_part, released_part, whitened_part};

use crate::part::{Contents, Part};
use crate::visit::Visit;
use tn_base::ids::PartId;
use tn_detect::answer::value_of;
use tn_detect::detector::Detector;
use tn_detect::facts::PartView;
use tn_detect::phase::Phase;
use tn_link::link::Link;
use tn_node::facts::PartFacts;
use tn_tile::deliver::Did;

/// What a part tells the detector, without the detector's answer.
pub fn view_of(facts: &PartFacts) -> PartView
    ensures { result ≡ view_of facts.now }
{
    PartView {
        still: facts.still,
        black: facts.black,
        counter: facts.counter,
        live: facts.live,
        votes: facts.votes,
        at_end: facts.at_end,
    }
}

/// Whether part i comes next to be confirmed.
fn confirms(i: u32, phase: Phase) -> bool
    ensures { result ≡ confirms i phase }
{
    match phase {
        Phase::Confirm(k) => k == i,
        Phase::Collect | Phase::Release(_) | Phase::Go(_) => false,
    }
}

/// Whether part i comes next to be released.
fn releases(i: u32, phase: Phase) -> bool
    ensures { result ≡ releases i phase }
{
    match phase {
        Phase::Release(k) => k == i,
        Phase::Collect | Phase::Confirm(_) | Phase::Go(_) => false,
    }
}

/// Whether part i comes next to go on.
fn lets_go(i: u32, phase: Phase) -> bool
    ensures { result ≡ lets_go i phase }
{
    match phase {
        Phase::Go(k) => k == i,
        Phase::Collect | Phase::Confirm(_) | Phase::Release(_) => false,
    }
}

/// Whether the detector can visit part i, which shows this.
fn can_visit(detector: &Detector, visit: Visit, i: u32, shown: &PartView) -> bool
    requires { i < detector.now.visited }
    ensures { result ≡ is_some (visit_row visit detector.now.visited i shown.now detector.now.now) }
{
    match visit {
        Visit::Report => detector.can_report(i, shown),
        Visit::Confirm => confirms(i, detector.phase()),
        Visit::Release => releases(i, detector.phase()),
        Visit::Go => lets_go(i, detector.phase()),
    }
}

/// The detector visits part i, which shows this.
fn make_visit(detector: &mut Detector, visit: Visit, i: u32, shown: &PartView)
    requires part { i < detector.old.visited }
    requires can { IsSome (visit_row visit detector.old.visited i shown.now detector.old.now) }
    ensures { now_by detector.old (visit_row visit detector.old.visited i shown.now detector.old.now) ≡ Some detector.new }
{
    match visit {
        Visit::Report => detector.report(i, shown),
        Visit::Confirm => {
            let _confirmed = detector.confirm(shown);
        }
        Visit::Release => detector.release(),
        Visit::Go => detector.go(),
    }
}

/// The detector visits a part, if it can.
fn visit_part<L: Link>(part: &mut Part<L>, detector: &mut Detector, v: Visit, p: PartId) -> Did
    requires { p.0 < detector.old.visited }
    ensures { DoesBoth (moved result) (meets (visit_event v p) part.old (DetectorV detector.old)) part.old (DetectorV detector.old) part.new (DetectorV detector.new) }
{
    let Some(facts) = part.facts() else {
        return Did::Nothing;
    };
    let shown = view_of(&facts);
    if !can_visit(detector, v, p.0, &shown) {
        return Did::Nothing;
    }
    let value = value_of(detector.answer());
    make_visit(detector, v, p.0, &shown);
    part.be_visited(v, value);
    Did::Moved
}

/// Whether the detector can visit a part.
fn can_visit_part<L: Link>(part: &Part<L>, detector: &Detector, v: Visit, p: PartId) -> bool
    requires { p.0 < detector.now.visited }
    ensures { result ≡ is_some (meets (visit_event v p) part.now (DetectorV detector.now)) }
{
    match part.facts() {
        Some(facts) => can_visit(detector, v, p.0, &view_of(&facts)),
        None => false,
    }
}

/// The detector begins to confirm, if it can.
fn begin(detector: &mut Detector) -> Did
    ensures { Does (moved result) (now_by detector.old (begin_row detector.old.now)) detector.old detector.new }
{
    if !detector.can_begin() {
        return Did::Nothing;
    }
    detector.begin();
    Did::Moved
}

/// Whether all parts are confirmed.
fn can_announce(detector: &Detector) -> bool
    ensures { result ≡ is_some (announce_row detector.now.visited detector.now.now) }
{
    match detector.phase() {
        Phase::Confirm(i) => i == detector.visited(),
        Phase::Collect | Phase::Release(_) | Phase::Go(_) => false,
    }
}

/// The detector announces that the machine is at rest, if all parts are confirmed.
fn announce(detector: &mut Detector) -> Did
    ensures { Does (moved result) (now_by detector.old (announce_row detector.old.visited detector.old.now)) detector.old detector.new }
{
    if !can_announce(detector) {
        return Did::Nothing;
    }
    let _answer = detector.announce();
    Did::Moved
}

impl<L: Link> Part<L> {
    /// What the part tells the detector, if the detector visits such parts.
    pub fn facts(&self) -> Option<PartFacts>
        ensures { result ≡ told_by self.now }
    {
        match &self.contents {
            Contents::Tile(tile) => Some(tile.facts()),
            Contents::Router(router) => Some(router.facts()),
            Contents::Host(host) => Some(host.facts()),
            Contents::Link(_) | Contents::Detector(_) => None,
        }
    }

    /// The part has reported.
    fn whiten(&mut self)
        ensures { self.new ≡ whitened_part self.old }
    {
        match &mut self.contents {
            Contents::Tile(tile) => tile.whiten(),
            Contents::Router(router) => router.whiten(),
            Contents::Host(host) => host.whiten(),
            Contents::Link(_) | Contents::Detector(_) => {}
        }
    }

    /// The part is released, and its idle threads learn the answer.
    fn release(&mut self, value: u32)
        ensures { self.new ≡ released_part value self.old }
    {
        match &mut self.contents {
            Contents::Tile(tile) => tile.release(value),
            Contents::Router(router) => router.release(value),
            Contents::Host(host) => host.release(value),
            Contents::Link(_) | Contents::Detector(_) => {}
        }
    }

    /// The part goes on.
    fn go(&mut self)
        ensures { self.new ≡ going_part self.old }
    {
        match &mut self.contents {
            Contents::Tile(tile) => tile.go(),
            Contents::Router(router) => router.go(),
            Contents::Host(host) => host.go(),
            Contents::Link(_) | Contents::Detector(_) => {}
        }
    }

    /// What a visit makes of the part, given the detector's answer.
    fn be_visited(&mut self, visit: Visit, value: u32)
        ensures { self.new ≡ visited_by visit value self.old }
    {
        match visit {
            Visit::Report => self.whiten(),
            Visit::Confirm => {}
            Visit::Release => self.release(value),
            Visit::Go => self.go(),
        }
    }

    /// The detector visits this part.
    pub fn visit(&mut self, detector: &mut Part<L>, visit: Visit, p: PartId) -> Did
        requires { Visits p.0 detector.old }
        ensures { DoesBoth (moved result) (meets (visit_event visit p) self.old detector.old) self.old detector.old self.new detector.new }
    {
        let Contents::Detector(state) = &mut detector.contents else {
            return Did::Nothing;
        };
        visit_part(self, state, visit, p)
    }

    /// Whether the detector can visit this part.
    pub fn can_visit(&self, detector: &Part<L>, visit: Visit, p: PartId) -> bool
        requires { Visits p.0 detector.now }
        ensures { result ≡ is_some (meets (visit_event visit p) self.now detector.now) }
    {
        let Contents::Detector(state) = &detector.contents else {
            return false;
        };
        can_visit_part(self, state, visit, p)
    }

    /// The detector begins to confirm.
    pub fn begin(&mut self) -> Did
        ensures { Does (moved result) (after event.Begin crossing.None self.old) self.old self.new }
    {
        let Contents::Detector(detector) = &mut self.contents else {
            return Did::Nothing;
        };
        begin(detector)
    }

    /// Whether the detector can begin to confirm.
    pub fn can_begin(&self) -> bool
        ensures { result ≡ is_some (after event.Begin crossing.None self.now) }
    {
        let Contents::Detector(detector) = &self.contents else {
            return false;
        };
        detector.can_begin()
    }

    /// The detector announces that the machine is at rest.
    pub fn announce(&mut self) -> Did
        ensures { Does (moved result) (after event.Announce crossing.None self.old) self.old self.new }
    {
        let Contents::Detector(detector) = &mut self.contents else {
            return Did::Nothing;
        };
        announce(detector)
    }

    /// Whether the detector can announce.
    pub fn can_announce(&self) -> bool
        ensures { result ≡ is_some (after event.Announce crossing.None self.now) }
    {
        let Contents::Detector(detector) = &self.contents else {
            return false;
        };
        can_announce(detector)
    }
}
