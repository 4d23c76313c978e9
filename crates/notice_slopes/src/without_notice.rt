//! The exemption of a structure.

ghost use Rattle.std.specs.Prelude.{◌≡◌};
ghost use Rattle.notice_slopes.specs.Exemptions.{exemption_of, is_low_antenna as is_low_antenna_of};

use crate::exemption::Exemption;
use airfields::{Filing, StructureKind};

/// Greatest height of an antenna structure that needs no notice, in tenths of a foot: 20 feet (77.9(e)(4)).
pub const LOW_ANTENNA: i64 = 200;

/// Whether it is an antenna structure of at most 20 feet that does not increase the height of another one (77.9(e)(4)).
fn is_low_antenna(filing: &Filing) -> bool
    ensures { result ≡ is_low_antenna_of filing.now }
{
    match filing.kind {
        StructureKind::Antenna => filing.height <= LOW_ANTENNA && !filing.flags.increases,
        _ => false,
    }
}

/// The first exemption of 77.9(e) that the structure has, in the order of the paragraph; `None` where it has none.
pub fn exempt(f: &Filing) -> Option<Exemption>
    ensures { result ≡ exemption_of f.now }
{
    if f.flags.shielded {
        return Some(Exemption::Shielded);
    }
    if f.flags.device {
        return Some(Exemption::Device);
    }
    if f.flags.other_rule {
        return Some(Exemption::OtherRule);
    }
    is_low_antenna(f).then_some(Exemption::Antenna)
}
