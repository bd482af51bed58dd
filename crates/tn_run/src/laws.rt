//! Laws of the commands.
ghost use Rattle.tn_run.specs.Exits.{ListsExits};
ghost use Rattle.tn_run.specs.Texts.{EndsPlainly};
ghost use Rattle.tn_run.specs.Words.{EachGenIsServed, NoMachine, NoText};

/// Words that are for one of the calls are no form of the other call: no form of a command gets lost between the two. Each form of `gen` is
/// served, whatever its number of vertices is.
pub fn law_words()
    ensures machine { NoMachine }
    ensures text { NoText }
    ensures drawn { EachGenIsServed }
{}

/// A command on texts never ends with the status of a machine that did not end well.
pub fn law_text_status()
    ensures { EndsPlainly }
{}

/// A report has a line for each thread of the machine that ended, once, by ascending address: `tn_base::laws::law_threads` says how the
/// addresses are ordered.
pub fn law_exits()
    ensures { ListsExits }
{}
