//! The test of the detector's invariant on a machine in memory.

ghost use Rattle.std.specs.Prelude.{◌≡◌, ◌<◌, ◌↔◌, IsTrue, MatchOption, Some, length};
ghost use Rattle.tn_base.specs.Parts.{visited};
ghost use Rattle.tn_detect.specs.DetectorView.{fresh_state};
ghost use Rattle.tn_quiet.specs.Machine.{link_count, rest_of, shows};
ghost use Rattle.tn_rest.specs.Quiet.{IsQuiet, report_of};
ghost use Rattle.tn_rest.specs.Seen.{facts_of, packets_of};
ghost use Rattle.tn_rows.specs.DetectorDeed.{view_of};

use tn_base::shape::Shape;
use tn_detect::detector::Detector;
use tn_detect::facts::Noted;
use tn_detect::phase::Phase;
use tn_link::link::Link;
use tn_node::facts::PartFacts;
use tn_part::detector::view_of;
use tn_part::part::Part;
use tn_rest::facts::Facts;
use tn_rest::machine::Machine;
use tn_world::world::World;

/// Whether the detector's invariant holds of a machine.
pub fn audit<L: Link>(world: &World<L>) -> bool
    ensures { IsTrue result ↔ IsQuiet (visited world.now.shape) (link_count world.now.shape) (rest_of world.now) }
{
    tn_rest::audit::audit(&Seen { world })
}

/// A machine in memory, as the test reads it.
#[derive(Drop)]
struct Seen<'a, L: Link> {
    world: &'a World<L>,
}

impl<L: Link> Machine for Seen<'_, L> {
    ghost visited = { λ s. visited s.world.now.shape };

    ghost links = { λ s. link_count s.world.now.shape };

    ghost seen = { λ s. rest_of s.world.now };

    fn visited(&self) -> u32 {
        self.world.shape().visited()
    }

    fn links(&self) -> u32 {
        link_count(self.world.shape())
    }

    fn part(&self, k: u32) -> Facts {
        facts_at(self.world, k)
    }

    fn packets(&self, l: u32) -> u32 {
        packets_at(self.world, l)
    }

    fn phase(&self) -> Phase {
        phase_in(self.world)
    }

    fn places(&self) -> u32 {
        places_in(self.world)
    }

    fn report(&self, k: u32) -> Option<i64> {
        report_in(self.world, k)
    }

    fn noted(&self) -> Noted {
        noted_in(self.world)
    }
}

/// How many links there are: all parts behind the visited ones, but for the detector.
fn link_count(shape: &Shape) -> u32
    ensures { result ≡ link_count shape.now }
{
    shape
        .part_count()
        .saturating_sub(1)
        .saturating_sub(shape.visited())
}

/// What a visited part shows.
fn facts_at<L: Link>(world: &World<L>, k: u32) -> Facts
    requires { k < visited world.now.shape }
    ensures { result ≡ (rest_of world.now).part k }
{
    match world.parts().get(k as usize) {
        Some(part) => facts_on(part),
        None => Facts::NONE,
    }
}

/// What a part shows, if the detector visits such parts.
fn facts_on<L: Link>(part: &Part<L>) -> Facts
    ensures { result ≡ facts_of (Some (shows part.now)) }
{
    if let Some(tile) = part.as_tile() {
        return shown(&tile.facts(), tile.held());
    }
    if let Some(router) = part.as_router() {
        return shown(&router.facts(), router.held());
    }
    if let Some(host) = part.as_host() {
        return shown(&host.facts(), host.held());
    }
    Facts::NONE
}

/// What the laws of rest see of a part that tells this and is held or not.
fn shown(facts: &PartFacts, held: bool) -> Facts
    ensures { result ≡ record { view = view_of facts.now; held = held } }
{
    Facts {
        view: view_of(facts),
        held,
    }
}

/// How many packets are on a link.
fn packets_at<L: Link>(world: &World<L>, l: u32) -> u32
    requires { l < link_count world.now.shape }
    ensures { result ≡ (rest_of world.now).link l }
{
    let place = world.shape().visited() as usize + l as usize;
    match world.parts().get(place) {
        Some(part) => packets_on(part),
        None => 0,
    }
}

/// How many packets are on a part, if it is a link.
fn packets_on<L: Link>(part: &Part<L>) -> u32
    ensures { result ≡ packets_of (Some (shows part.now)) }
{
    match part.as_link() {
        Some(link) => link.len(),
        None => 0,
    }
}

/// The detector of a machine, if it is at its place.
fn detector_in<'a, L: Link>(world: &'a World<L>) -> Option<&'a Detector>
    ensures { MatchOption result ((rest_of world.now).detector ≡ fresh_state 0) (λ d. (rest_of world.now).detector ≡ d.now.now) }
{
    let shape = world.shape();
    let place = shape.visited() as usize + link_count(shape) as usize;
    world.parts().get(place)?.as_detector()
}

/// What the detector does next.
fn phase_in<L: Link>(world: &World<L>) -> Phase
    ensures { result ≡ (rest_of world.now).detector.phase }
{
    match detector_in(world) {
        Some(detector) => detector.phase(),
        None => Phase::Collect,
    }
}

/// For how many parts the detector has a place for a report.
fn places_in<L: Link>(world: &World<L>) -> u32
    ensures { result ≡ length (rest_of world.now).detector.reports }
{
    match detector_in(world) {
        Some(detector) => {
            detector.kept();
            detector.visited()
        }
        None => 0,
    }
}

/// The report of a part, if there is one.
fn report_in<L: Link>(world: &World<L>, k: u32) -> Option<i64>
    ensures { result ≡ report_of (rest_of world.now) k }
{
    let detector = detector_in(world)?;
    detector.kept();
    if k < detector.visited() {
        detector.reported(k)
    } else {
        None
    }
}

/// What the detector noted of the parts that it confirmed.
fn noted_in<L: Link>(world: &World<L>) -> Noted
    ensures { result ≡ (rest_of world.now).detector.noted }
{
    match detector_in(world) {
        Some(detector) => {
            let (live, votes, at_end) = detector.noted();
            Noted {
                live,
                votes,
                at_end,
            }
        }
        None => Noted::nothing(),
    }
}
