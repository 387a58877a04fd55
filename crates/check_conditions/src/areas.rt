// The areas of a system and of a certificate, with what every step is told of them: all that they should hold is loaded.
ghost use Rattle.std.specs.Prelude.{◌+◌};
ghost use Rattle.check_conditions.specs.Areas.{Loaded};
ghost use Rattle.check_conditions.specs.Propositions.{loaded_props};

use crate::dimensions::Dimensions;

// Those of a certificate that holds d, N, w and Z.
#[derive(Clone, Copy)]
pub struct SolutionAreas<'a> {
    pub system: &'a [u64],
    pub certificate: &'a [u64],
    pub dimensions: Dimensions,
    pub ghost loaded: { Loaded dimensions (dimensions.columns + 2 + dimensions.rows) system.now certificate.now } by { Prim.hlevel loaded_props },
}

// Those of a certificate that holds q.
#[derive(Clone, Copy)]
pub struct AbsenceAreas<'a> {
    pub system: &'a [u64],
    pub certificate: &'a [u64],
    pub dimensions: Dimensions,
    pub ghost loaded: { Loaded dimensions dimensions.rows system.now certificate.now } by { Prim.hlevel loaded_props },
}
