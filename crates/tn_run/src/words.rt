//! Which call the words of the command line are for.
ghost use Rattle.std.specs.Prelude.{◌≡◌, map, string_bytes};
ghost use Rattle.tn_run.specs.Words.{is_for_machine};

/// Whether the first word names a command that runs a machine. Such words are for `run_top`, and all others for `plain_top`.
pub fn is_for_machine(words: &[String]) -> bool
    ensures { result ≡ is_for_machine (map string_bytes words.now) }
{
    match words {
        [first, ..] => first.as_str() == "run" || first.as_str() == "gen",
        [] => false,
    }
}
