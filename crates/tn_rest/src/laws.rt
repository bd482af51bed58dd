//! Laws of rest. A law answers nothing: its contract is what it says.

ghost use Rattle.tn_rest.specs.Law.{AnnouncesAtRest, EachEventKeepsQuiet, EachStepHappens, OnlyReleasesChange, OpenAtRest, OpenOutsideCollect, RunsAreQuiet, StartsAreQuiet, WaitsForRelease, WalksAnnounceAtRest, WalksAreQuiet};

/// The detector's invariant holds at each moment of a run: at the start, and each event keeps it.
pub fn law_quiet()
    ensures start { StartsAreQuiet }
    ensures events { EachEventKeepsQuiet }
    ensures runs { RunsAreQuiet }
{}

/// The detector announces at rest: each part is still, and each link is empty. Its answer is that of all parts.
pub fn law_rest()
    ensures { AnnouncesAtRest }
{}

/// A part that is not released yet after an announcement changes by its release alone. So it shows until then what it showed
/// at the announcement.
pub fn law_release()
    ensures events { OnlyReleasesChange }
    ensures runs { WaitsForRelease }
{}

/// At rest the detector can do an event. If it does not collect reports, it can do an event at any time.
pub fn law_open()
    ensures rest { OpenAtRest }
    ensures outside { OpenOutsideCollect }
{}

/// If the parts of a machine are a list, what an event does to the list is an event as the other laws have it. So the
/// invariant holds at each moment of a run over such lists, and each announcement comes at rest.
pub fn law_seen()
    ensures steps { EachStepHappens }
    ensures quiet { WalksAreQuiet }
    ensures rest { WalksAnnounceAtRest }
{}
