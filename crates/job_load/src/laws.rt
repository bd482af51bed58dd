//! Laws of the definitions by which jobs are loaded. A law answers nothing: its contract is what it says.

ghost use Rattle.std.specs.Prelude.{◌≡◌, ℕ, Err, List, None, Ok, Some};
ghost use Rattle.std.specs.List.{AllByRecursion};
ghost use Rattle.tn_rows.specs.WorldView.{WorldView};
ghost use Rattle.job_text.specs.declared.job.FillLine.{FillLine};
ghost use Rattle.job_text.specs.declared.job.Job.{Job};
ghost use Rattle.job_faults.specs.declared.fault.LoadFault.{LoadFault};
ghost use Rattle.job_faults.specs.declared.map.Mapped.{Mapped};
ghost use Rattle.job_faults.specs.Mapping.{graph_mapped};
ghost use Rattle.job_faults.specs.Order.{load_fault};
ghost use Rattle.job_load.specs.Images.{IsWithin};
ghost use Rattle.job_load.specs.Laws.{AreSeated, IsMemory, IsStart};
ghost use Rattle.job_load.specs.Loaded.{loaded};
ghost use Rattle.job_load.specs.Start.{start_of};

/// A job is refused if and only if it has a fault, by its first fault. A job without a fault is accepted, with a graph or without
/// a graph, whatever its host waits for.
pub fn law_accepted()
    ensures refuses { (job : Job) (found : LoadFault) → load_fault job ≡ Some found → loaded job ≡ Err found }
    ensures accepts { (job : Job) → load_fault job ≡ None → loaded job ≡ Ok (start_of job) }
{}

/// A job that is accepted gives a machine in which nothing has happened. Without a graph each thread begins at address 0. In a job
/// with a graph each thread begins at the firmware's address, and its softswitch has done nothing yet.
pub fn law_start()
    ensures { (job : Job) (world : WorldView) → loaded job ≡ Ok world → IsStart job world }
{}

/// In the machine of an accepted job with a graph, the thread where a vertex has its seat has the vertex's device, at the seat's
/// place. The device's handlers are those of the vertex's kind, its keys are those of the vertex's pins, and the thread's memory
/// has the vertex's state at the device's address. No thread has further devices. Each thread has its in-edges of the graph's
/// routes.
pub fn law_devices()
    ensures { (job : Job) (m : Mapped) → load_fault job ≡ None → graph_mapped job ≡ Some m → AreSeated job m }
{}

/// Where two fills give a byte of a thread's memory the later one wins, and what none gives is 0.
pub fn law_memory()
    ensures { (size : ℕ) (fills : List FillLine) (thread : ℕ) → AllByRecursion (IsWithin size) fills → IsMemory size fills thread }
{}
