//! Construction on airports and heliports: 77.9(d).

ghost use Rattle.std.specs.Prelude.{◌≡◌};
ghost use Rattle.notice_slopes.specs.OnAirfields.{is_on_described};

use airfields::Filing;
use airport_register::Register;

/// Whether the structure is on a registered airport or heliport that 77.9(d) describes.
pub fn rule_d(r: &Register, f: &Filing) -> bool
    ensures { result ≡ is_on_described r.now f.now }
{
    let Some(id) = &f.on else {
        return false;
    };
    match r.get(id) {
        Some(airfield) => airfield.category().described(),
        None => false,
    }
}
