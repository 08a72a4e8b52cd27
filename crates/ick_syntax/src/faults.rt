//! Numbers out of range, which the readers note while they read a text.

ghost use Rattle.std.specs.Prelude.{◌≡◌};
ghost use Rattle.ick_syntax.specs.Clamped.{clamped};

/// Bounds the number of a mesh, a variable and a label (Revised Manual, 3.1, 3.2 and 4.2).
const GREATEST: u32 = 65_535;

/// The kinds of numbers out of range that a part has: a mesh above 65,535, a variable's number
/// outside 1 to 65,535, or a label outside 1 to 65,535.
#[derive(Clone, Copy)]
pub struct Faults {
    pub mesh: bool,
    pub name: bool,
    pub label: bool,
}

impl Faults {
    ghost use Rattle.ick_syntax.specs.Clamped.{both_faults, mesh_faults, name_faults, label_faults};

    /// Has no number out of range.
    pub const NONE: Faults = Faults {
        mesh: false,
        name: false,
        label: false,
    };

    /// Returns the faults that either of two parts has.
    pub fn union(self, other: Faults) -> Faults
        ensures { result ≡ both_faults self other }
    {
        Faults {
            mesh: self.mesh || other.mesh,
            name: self.name || other.name,
            label: self.label || other.label,
        }
    }

    /// Returns the faults of a mesh with this number, capped.
    pub fn of_mesh(number: u32) -> Faults
        ensures { result ≡ mesh_faults number }
    {
        Faults {
            mesh: number > GREATEST,
            ..Faults::NONE
        }
    }

    /// Returns the faults of a variable with this number, capped.
    pub fn of_name(number: u32) -> Faults
        ensures { result ≡ name_faults number }
    {
        Faults {
            name: number == 0 || number > GREATEST,
            ..Faults::NONE
        }
    }

    /// Returns the faults of a label with this number, capped.
    pub fn of_label(number: u32) -> Faults
        ensures { result ≡ label_faults number }
    {
        Faults {
            label: number == 0 || number > GREATEST,
            ..Faults::NONE
        }
    }
}

/// Returns the number, or 65,535 if it is greater.
pub fn clamped_number(number: u32) -> u16
    ensures { result ≡ clamped number }
{
    number.min(GREATEST) as u16
}
