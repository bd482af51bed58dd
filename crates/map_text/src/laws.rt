//! What the printed sections are to a job. A law answers nothing: its contract is what it says.
ghost use Rattle.std.specs.Prelude.{◌≡◌};
ghost use Rattle.job_text.specs.Printed.{table_text};
ghost use Rattle.map_text.specs.Text.{HasBeats, section_text};

use job_text::job::TableSection;
use tn_keys::beat::Beat;

/// The section of a table is what `print_job` writes for a section of a job that has these beats.
pub fn law_section(_section: &TableSection, _beats: &[Beat])
    requires { HasBeats _section.now _beats.now }
    ensures { section_text _section.now.x _section.now.y _beats.now ≡ table_text _section.now }
{}
