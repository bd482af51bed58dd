//! Laws of deeds and of machines. A law answers nothing: its contract is what it says.

ghost use Rattle.tn_quiet.specs.Law.{DetectorsDo, HostsDo, MachinesAnnounceAtRest, MachinesAreOpenAtRest, MachinesAreOpenOutsideCollect, MachinesAreQuiet, MachinesStep, RoutersDo, TilesDo};

/// What a tile, a router and the host do in an event is what the laws of rest ask of it, and so is the detector's side.
pub fn law_deeds()
    ensures tiles { TilesDo }
    ensures routers { RoutersDo }
    ensures hosts { HostsDo }
    ensures detectors { DetectorsDo }
{}

/// Each event of a machine is an event of the laws of rest, on what the machine's parts show. So from a start the detector's
/// invariant holds at each moment of every walk, and each announcement comes at rest.
pub fn law_machines()
    ensures steps { MachinesStep }
    ensures quiet { MachinesAreQuiet }
    ensures rest { MachinesAnnounceAtRest }
{}

/// If the detector's invariant holds of a machine, an event is enabled at rest. If the detector does not collect reports, an
/// event is enabled at any time.
pub fn law_open()
    ensures rest { MachinesAreOpenAtRest }
    ensures outside { MachinesAreOpenOutsideCollect }
{}
