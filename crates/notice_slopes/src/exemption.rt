//! Exemptions from notice: 77.9(e).

/// The reason why a structure needs no notice (77.9(e)).
#[derive(Clone, Copy, Debug, PartialEq, Eq)]
pub enum Exemption {
    /// It is shielded by existing structures or natural terrain: 77.9(e)(1).
    Shielded,
    /// It is an air navigation facility, approach aid or the like of a fixed place and height: 77.9(e)(2).
    Device,
    /// Another FAA regulation requires notice of it: 77.9(e)(3).
    OtherRule,
    /// It is an antenna structure of at most 20 feet that does not increase the height of another one: 77.9(e)(4).
    Antenna,
}
