//! What holds of all bytes: the function does nothing, and its contract is the law.
ghost use Rattle.std.specs.Prelude.{◌≡◌, ℕ, List};
ghost use Rattle.clap.specs.Words.{Text};
ghost use Rattle.ick_c.specs.Arguments.{Holds};

/// States that bytes hold at most one list of arguments.
pub fn one_list()
    ensures { (bytes : List ℕ) (one other : List Text) → Holds bytes one → Holds bytes other
        → other ≡ one }
{}
