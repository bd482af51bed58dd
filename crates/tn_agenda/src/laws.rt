//! That shares cover all stops, as a law.

ghost use Rattle.std.specs.Prelude.{ℕ, ◌≡◌, ◌≤◌, ◌<◌, ◌+◌};
ghost use Rattle.tn_agenda.specs.Shares.{share_start};

/// The first share begins at the first stop, the last share ends behind the last stop, and no share ends before it begins. Where
/// a share ends the next one begins, by definition.
pub fn law_shares()
    ensures begins { (stops workers : ℕ) → 0 < workers → share_start stops workers 0 ≡ 0 }
    ensures ends { (stops workers : ℕ) → 0 < workers → share_start stops workers workers ≡ stops }
    ensures rises { (stops workers worker : ℕ) → 0 < workers → share_start stops workers worker ≤ share_start stops workers (worker + 1) }
{}
