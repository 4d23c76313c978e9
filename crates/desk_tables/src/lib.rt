//! The five tables that store the desk: their contents, the row changes for an accepted request, and opening the desk from
//! its rows, which may find a first bad row. Laws: each desk that can be reached has rows.
//!
//! Lengths, coordinates and elevations are whole tenths of a foot.
#![tactic(auto)]

mod amendments;
mod change_list;
mod counts;
mod desk_laws;
mod finding_laws;
mod layout;
mod opening;
mod opening_laws;
mod part;
mod register_laws;
mod renewal;
mod row_laws;
mod unread;
mod value;

pub use change_list::ChangeList;
pub use desk_laws::{desk_goes_on, desk_starts, opened_is_desk};
pub use finding_laws::findings_are_told;
pub use layout::Layout;
pub use opening::{OpenedDesk, read_desk};
pub use opening_laws::{opened_empty, opened_rows};
pub use register_laws::{
    airport_comes, all_is_whole, heliport_comes, names_go_on, nothing_is_part, register_goes_on,
    runway_comes,
};
pub use row_laws::{keeps_rows, no_rows, one_rows};
pub use unread::{BadRow, Unread};
pub use value::RowValue;
