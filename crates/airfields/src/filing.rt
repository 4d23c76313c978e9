//! A structure within the limits of a filing.

ghost use Rattle.std.specs.Prelude.{◌≡◌, MatchResult};
ghost use Rattle.airfields.specs.Sites.{AreFacts, IsSite, site, greatest_mobile, revised_site};

use crate::limits::{ELEVATION_LEAST, ELEVATION_MOST};
use crate::names::FieldId;
use crate::structure::{Filing, Flags, HEIGHT_LIMIT, StructureKind};
use grid_exact::Point;

/// The greatest height of a mobile object, in tenths of a foot (77.9(c)).
pub const MOBILE_LIMIT: i64 = 1_000;

/// An elevation or height is outside its limit, or a mobile object's height is given for a kind that has none.
#[derive(Clone, Copy, Debug, PartialEq, Eq)]
pub struct FilingRange;

impl StructureKind {
    /// The greatest height of a mobile object on it, in tenths of a foot: 0 for any kind but a private road or a waterway (77.9(c)).
    pub fn mobile_most(&self) -> i64
        ensures { result ≡ greatest_mobile self.now }
    {
        match self {
            StructureKind::Private => MOBILE_LIMIT,
            StructureKind::Water => MOBILE_LIMIT,
            _ => 0,
        }
    }
}

impl Filing {
    /// The filing of a structure at `at`, where the elevation of the ground is `terrain`, with the height `height` above ground and a
    /// mobile object of height `mobile` on it, on the airfield `on`. Heights are in tenths of a foot.
    ///
    /// # Errors
    ///
    /// `FilingRange` exactly where `terrain` or `height` is outside its limits, or `mobile` is not from 0 to the greatest of the kind.
    pub fn new(
        at: Point,
        terrain: i64,
        height: i64,
        kind: StructureKind,
        mobile: i64,
        flags: Flags,
        on: Option<FieldId>,
    ) -> Result<Filing, FilingRange>
        ensures exact { MatchResult result (λ f. f ≡ site at terrain height kind mobile flags on)
            (λ _. ¬ IsSite (site at terrain height kind mobile flags on)) }
    {
        if terrain < ELEVATION_LEAST || terrain > ELEVATION_MOST {
            return Err(FilingRange);
        }
        if height < 0 || height > HEIGHT_LIMIT {
            return Err(FilingRange);
        }
        if mobile < 0 || mobile > kind.mobile_most() {
            return Err(FilingRange);
        }
        Ok(Filing {
            at,
            ground: terrain,
            height,
            kind,
            mobile,
            flags,
            on,
        })
    }

    /// The structure with another elevation of the ground and another height above it, in tenths of a foot: the new facts on which a
    /// determination may be revised (77.35(a)).
    ///
    /// # Errors
    ///
    /// `FilingRange` exactly where one of the two is outside its limits.
    pub fn revised(&self, terrain: i64, height: i64) -> Result<Filing, FilingRange>
        ensures { MatchResult result (λ f. f ≡ revised_site self.now terrain height)
            (λ _. ¬ AreFacts terrain height) }
    {
        Filing::new(
            self.at,
            terrain,
            height,
            self.kind,
            self.mobile,
            self.flags,
            self.on,
        )
    }

    /// For proofs: the filing is within its limits.
    pub fn limits(&self)
        ensures { IsSite self.now }
    {
        let _ = &self.height; // a proof knows the invariant of a value where it reads a field
    }
}
