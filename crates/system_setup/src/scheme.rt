ghost use Rattle.std.specs.Prelude.{◌≡◌};
ghost use Rattle.system_setup.specs.Scheme.{number_of};

use mesh_visits::Flags;

/// The degree of the shape functions.
#[derive(Clone, Copy, Debug, PartialEq, Eq)]
pub enum Degree {
    /// Bilinear functions, with four dofs a cell.
    One,
    /// Biquadratic functions, with nine dofs a cell.
    Two,
}

impl Degree {
    /// The degree as a number, 1 or 2.
    pub fn number(self) -> u32
        ensures { result ≡ number_of self }
    {
        match self {
            Degree::One => 1,
            Degree::Two => 2,
        }
    }
}

/// What a run assembles: the degree of its shape functions, and which workers run on which cells and faces.
#[derive(Clone, Copy, Debug, PartialEq, Eq)]
pub struct Scheme {
    pub degree: Degree,
    pub flags: Flags,
}
