//! The name of an airfield, and its category.

ghost use Rattle.std.specs.Prelude.{◌≡◌};
ghost use Rattle.airfields.specs.Airfields.{category_of, id_of};

use crate::airfield::Airfield;
use crate::category::Category;
use crate::names::FieldId;
use ordered_list::Keyed;

impl Airfield {
    /// The name of the airfield.
    pub fn id(&self) -> &FieldId
        ensures { result.now ≡ id_of self.now }
    {
        match self {
            Airfield::Airport(airport) => &airport.id,
            Airfield::Heliport(heliport) => &heliport.id,
        }
    }

    /// The category of the airfield, which decides whether 77.9(d) describes it.
    pub fn category(&self) -> Category
        ensures { result ≡ category_of self.now }
    {
        match self {
            Airfield::Airport(airport) => airport.category,
            Airfield::Heliport(heliport) => heliport.category,
        }
    }
}

/// The key of an airfield is its name.
impl Keyed for Airfield {
    type Key = FieldId;

    ghost key = { id_of };

    fn key(&self) -> FieldId {
        *self.id()
    }
}
