//! Laws of the faults of jobs. A law answers nothing: its contract is what it says.

ghost use Rattle.std.specs.Prelude.{◌≡◌, None, Some};
ghost use Rattle.job_text.specs.declared.job.Job.{Job};
ghost use Rattle.job_faults.specs.declared.map.Mapped.{Mapped};
ghost use Rattle.job_faults.specs.Faults.{section_fault};
ghost use Rattle.job_faults.specs.Fits.{Fits};
ghost use Rattle.job_faults.specs.Laws.{IsFirst, section_faults};
ghost use Rattle.job_faults.specs.Mapping.{graph_mapped};
ghost use Rattle.job_faults.specs.Order.{load_fault};

/// Of all faults of sections the one that refuses a job stands on the first line.
pub fn law_sections()
    ensures { (job : Job) → IsFirst (section_fault job) (section_faults job) }
{}

/// The graph of a job without a fault fits the job's machine. Its messages have at most the machine's flits, the states of each
/// thread leave 256 bytes of the thread's memory, and the tables of its routes are accepted. Each handler of each kind has its
/// label, and begins at an address that four divides.
pub fn law_fits()
    ensures { (job : Job) (m : Mapped) → load_fault job ≡ None → graph_mapped job ≡ Some m → Fits job m }
{}
