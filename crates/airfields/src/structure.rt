//! Structures that a notice describes.

use crate::names::FieldId;
use grid_exact::Point;
use std::marker::Model;

/// The greatest height of a structure above the ground, in tenths of a foot.
pub const HEIGHT_LIMIT: i64 = 100_000;

/// The kind of structure to be built or altered.
#[derive(Clone, Copy, Debug, PartialEq, Eq)]
pub enum StructureKind {
    /// A structure that is none of the others.
    Object,
    /// An antenna structure.
    Antenna,
    /// An Interstate Highway (77.9(c)).
    Interstate,
    /// Any other public roadway.
    Road,
    /// A private road.
    Private,
    /// A railroad.
    Rail,
    /// A waterway, or any other traverse way for mobile objects.
    Water,
}

impl StructureKind {
    ghost use Rattle.std.specs.Prelude.{◌≡◌};
    ghost use Rattle.airfields.specs.Sites.{is_traverse_way};

    /// Whether it is a traverse way, whose height includes the vehicles or other mobile objects on it (77.9(c)).
    pub fn is_traverse_way(&self) -> bool
        ensures { result ≡ is_traverse_way self.now }
    {
        match self {
            StructureKind::Object => false,
            StructureKind::Antenna => false,
            StructureKind::Interstate => true,
            StructureKind::Road => true,
            StructureKind::Private => true,
            StructureKind::Rail => true,
            StructureKind::Water => true,
        }
    }
}

/// The flags of a notice.
#[derive(Clone, Copy, Debug, PartialEq, Eq)]
pub struct Flags {
    /// Shielded by existing structures or natural terrain (77.9(e)(1)).
    pub shielded: bool,
    /// An air navigation facility, approach aid or the like of a fixed place and height (77.9(e)(2)).
    pub device: bool,
    /// Notice is required by another FAA regulation (77.9(e)(3)).
    pub other_rule: bool,
    /// It increases the height of another antenna structure (77.9(e)(4)).
    pub increases: bool,
    /// A traverse way on or near an airport with an operative ground traffic control service (77.17(b)).
    pub controlled: bool,
    /// A temporary structure.
    pub temporary: bool,
}

/// The structure of one notice, within the limits of a filing; it can be copied.
#[derive(Clone, Copy, Debug, PartialEq, Eq)]
pub struct Filing {
    /// The position of the structure.
    pub at: Point,
    /// The elevation of the ground at the structure, in tenths of a foot, within the limits of elevations.
    pub ground: i64,
    /// The height above ground, in tenths of a foot: 0 to `HEIGHT_LIMIT`.
    pub height: i64,
    /// The kind of structure to be built or altered.
    pub kind: StructureKind,
    /// The height of the highest mobile object, in tenths of a foot: 0 to `MOBILE_LIMIT`, and 0 except for a private road or a waterway
    /// (77.9(c)).
    pub mobile: i64,
    /// The flags of the notice.
    pub flags: Flags,
    /// The airfield that the structure is on, if any.
    pub on: Option<FieldId>,
}

impl Model for Filing {
    ghost use Rattle.airfields.specs.Sites.{Site, IsSite, site};

    ghost Value = { Site };

    ghost view = { λ f. site f.at f.ground f.height f.kind f.mobile f.flags f.on };

    ghost invariant = { λ f. IsSite (site f.at f.ground f.height f.kind f.mobile f.flags f.on) };

    ghost inverse = { λ v. record {
      at = v.at;
      ground = v.terrain;
      height = v.height;
      kind = v.kind;
      mobile = v.mobile;
      flags = v.flags;
      on = v.on;
    } };
}
