//! The convex polygon of the centers of an airport's arcs: the area that the tangents of all arcs enclose beside the capsules of each two
//! (77.19(a)). It is the union of the closed triangles of each three centers, and a walk round it tests whether a point lies in it.
//! Coordinates are whole tenths of a foot.
#![tactic(auto)]

mod center;
mod corners;
mod polygon;
mod triangle;
mod triples;
mod walk;

pub use center::Center;
pub use polygon::CenterPolygon;
