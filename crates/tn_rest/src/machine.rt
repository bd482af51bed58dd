//! What a test of the detector's invariant reads of a machine.

ghost use Rattle.std.specs.Prelude.{◌≡◌, ◌<◌, ℕ, length};
ghost use Rattle.tn_rest.specs.Quiet.{report_of};
ghost use Rattle.tn_rest.specs.RestView.{RestView};

use crate::facts::Facts;
use tn_detect::facts::Noted;
use tn_detect::phase::Phase;

/// A machine of visited parts, links and a detector. Parts and links have numbers from 0.
pub trait Machine {
    // How many parts the detector visits, and how many links there are.
    ghost visited: { Self → ℕ };

    ghost links: { Self → ℕ };

    // The machine as the laws of rest see it.
    ghost seen: { Self → RestView };

    /// How many parts the detector visits.
    fn visited(&self) -> u32
        ensures { result ≡ visited self.now };

    /// How many links there are.
    fn links(&self) -> u32
        ensures { result ≡ links self.now };

    /// What a visited part shows.
    fn part(&self, k: u32) -> Facts
        requires { k < visited self.now }
        ensures { result ≡ (seen self.now).part k };

    /// How many packets are on a link.
    fn packets(&self, l: u32) -> u32
        requires { l < links self.now }
        ensures { result ≡ (seen self.now).link l };

    /// What the detector does next.
    fn phase(&self) -> Phase
        ensures { result ≡ (seen self.now).detector.phase };

    /// For how many parts the detector has a place for a report.
    fn places(&self) -> u32
        ensures { result ≡ length (seen self.now).detector.reports };

    /// The report of a part, if there is one.
    fn report(&self, k: u32) -> Option<i64>
        ensures { result ≡ report_of (seen self.now) k };

    /// What the detector noted of the parts that it confirmed.
    fn noted(&self) -> Noted
        ensures { result ≡ (seen self.now).detector.noted };
}
