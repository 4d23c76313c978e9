//! The name of the airfield that an amendment changes.

ghost use Rattle.std.specs.Prelude.{◌≡◌};
ghost use Rattle.airport_register.specs.Amendments.{amended_id};

use crate::amendment::Amendment;
use airfields::FieldId;

impl Amendment {
    /// The name of the airfield that the amendment changes.
    pub(crate) fn id(&self) -> &FieldId
        ensures { result.now ≡ amended_id self.now }
    {
        match self {
            Amendment::PutAirport { id, .. } => id,
            Amendment::PutRunway { id, .. } => id,
            Amendment::DropRunway { id, .. } => id,
            Amendment::PutHeliport(heliport) => &heliport.id,
            Amendment::Drop(id) => id,
        }
    }
}
