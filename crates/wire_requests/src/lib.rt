//! The requests of the desk: reads records into requests and writes changes as records.
//!
//! Each request has one spelling, field by field. Lengths, coordinates and elevations are whole tenths of a foot.
#![tactic(auto)]

mod change;
mod determination;
mod extension;
mod filing;
mod form;
mod forms_of_acts;
mod laws;
mod queries;
mod read;
mod register;
mod request;
mod write;
mod written;

pub use case_requests::{Act, Impact, Party, Submission};
pub use form::{ActForm, Form};
pub use forms_of_acts::{act_form, plain_of};
pub use laws::{canonical_line, first_bad_field, one_reading};
pub use read::{RecordReader, read_record};
pub use request::{Change, Query, ReadRefusal, Request};
pub use wire_values::ReportKind;
pub use write::write_request;
pub use written::question;
