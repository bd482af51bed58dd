//! Laws of jobs and their texts.

ghost use Rattle.std.specs.Prelude.{◌≡◌, ◌++◌, true};
ghost use Rattle.std.specs.List.{list_all};
ghost use Rattle.tn_text.specs.Content.{is_space};
ghost use Rattle.tn_text.specs.Lines.{lines_of};
ghost use Rattle.job_text.specs.Contents.{commented, SameContents};
ghost use Rattle.job_text.specs.Exchanged.{SettingsCommute};
ghost use Rattle.job_text.specs.SaidNumbers.{SettingsAreSaid};
ghost use Rattle.job_text.specs.SaidSections.{SectionsAreSaid};
ghost use Rattle.job_text.specs.Text.{bare, job_of};
ghost use Rattle.job_text.specs.WellFormed.{IsWellFormed, ReadsBack};

use crate::job::Job;

/// The number of a section is that of the line that it begins on. The section is what this line and the lines up to its
/// `end` say.
pub fn law_sections()
    ensures { SectionsAreSaid }
{}

/// The number that a setting's place has among the numbers of lines is that of the line that gives the setting. If the
/// number is that of the shape's line, no line gives the setting, and its value is the default.
pub fn law_numbers()
    ensures { SettingsAreSaid }
{}

/// Two settings on neighbouring lines may change places: both texts are refused, or both say the same job, but for the
/// numbers of lines.
pub fn law_settings()
    ensures { SettingsCommute }
{}

/// Spaces at the ends of a line do not count, nor does a comment.
pub fn law_content(_front: &[u8], _line: &[u8], _back: &[u8], _comment: &[u8])
    requires front { list_all is_space _front.now ≡ true }
    requires back { list_all is_space _back.now ≡ true }
    ensures spaces { bare (_front.now ++ _line.now ++ _back.now) ≡ bare _line.now }
    ensures comment { bare (commented _front.now _line.now _back.now _comment.now) ≡ bare _line.now }
{}

/// Texts that differ in comments and outer spaces alone are read as the same job, or refused with the same fault.
pub fn law_contents(_text: &[u8], _other: &[u8])
    requires { SameContents _text.now _other.now }
    ensures { job_of (lines_of _text.now) ≡ job_of (lines_of _other.now) }
{}

/// What `print_job` writes is read again as the same job, but for the numbers of lines.
pub fn law_read_back(_job: &Job)
    requires { IsWellFormed _job.now }
    ensures { ReadsBack _job.now }
{}
