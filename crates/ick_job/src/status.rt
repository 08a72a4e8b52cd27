//! The exit status.
ghost use Rattle.std.specs.Prelude.{◌≡◌};

use std::marker::Model;

/// How a call of the program ends. Contracts see it as the exit status.
#[derive(Clone, Copy, Debug)]
pub struct Status {
    pub(crate) code: u8,
}

impl Model for Status {
    ghost use Rattle.std.specs.Prelude.{ℕ};

    ghost Value = { ℕ };

    ghost view = { λ s. s.code };

    ghost inverse = { λ code. record { code = code } };
}

impl Status {
    /// Returns the exit status (this profile):
    ///
    /// - 0 if all went well;
    /// - 1 for a fault of the run;
    /// - 2 for a source that is refused;
    /// - 3 for a run that reached its limit or wants a choice;
    /// - 4 if a file, a stream or memory failed, or the input was too long;
    /// - 64 for wrong arguments.
    pub fn code(&self) -> u8
        ensures { result ≡ self.now }
    {
        self.code
    }
}
