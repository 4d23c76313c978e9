//! Categories of airfields.

ghost use Rattle.std.specs.Prelude.{◌≡◌};

/// The category of an airfield under 77.9(d).
#[derive(Clone, Copy, Debug, PartialEq, Eq)]
pub enum Category {
    /// A public use airport that is listed in a directory of the FAA.
    PublicUse,
    /// An airport under construction that will be available for public use.
    PublicBuilding,
    /// A military airport under construction.
    MilitaryBuilding,
    /// An airport that a Federal agency operates.
    Federal,
    /// An airport that the Department of Defense operates.
    Dod,
    /// A private airport with at least one FAA-approved instrument approach procedure.
    Procedure,
    /// Any other private airport.
    OtherPrivate,
}

impl Category {
    ghost use Rattle.airfields.specs.Categories.{is_described, has_civil_surfaces, is_military};

    /// Whether 77.9(d) describes the airfield: all categories but `OtherPrivate`.
    pub fn described(&self) -> bool
        ensures { result ≡ is_described self.now }
    {
        !matches!(self, Category::OtherPrivate)
    }

    /// Whether the airfield's runways have the civil surfaces of 77.19: the described categories without the military ones.
    pub fn civil_surfaces(&self) -> bool
        ensures { result ≡ has_civil_surfaces self.now }
    {
        match self {
            Category::PublicUse => true,
            Category::PublicBuilding => true,
            Category::MilitaryBuilding => false,
            Category::Federal => true,
            Category::Dod => false,
            Category::Procedure => true,
            Category::OtherPrivate => false,
        }
    }

    /// Whether the airfield is military, in operation or under construction.
    pub fn military(&self) -> bool
        ensures { result ≡ is_military self.now }
    {
        matches!(self, Category::MilitaryBuilding | Category::Dod)
    }
}
