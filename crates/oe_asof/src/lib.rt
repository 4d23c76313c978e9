//! What the list of findings was: the list of a structure over the airfields as they stood after an earlier entry, from a history that a desk
//! keeps while it answers lines.
#![tactic(auto)]

mod answer;
mod desk;
mod history;
mod laws;
mod listing;
mod lookup;
mod question;
mod session;
mod told;
mod version;

pub use answer::Dated;
pub use history::History;
pub use laws::field_of_the_number;
pub use lookup::dated;
pub use session::dated_records;
