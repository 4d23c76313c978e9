//! The texts of the desk: records and replies.
//!
//! It re-exports `wire_values` (values of fields), `wire_requests` (records, and changes written as records) and
//! `wire_replies` (replies).
//! Lengths, coordinates and elevations are whole tenths of a foot.
#![tactic(auto)]

pub use wire_replies::{
    CaseList, CaseView, Outcome, Refusal, Reply, append_airfield, append_found, append_reply,
    write_reply,
};
pub use wire_requests::{
    Act, Change, Impact, Party, Query, ReadRefusal, RecordReader, Request, Submission,
    canonical_line, first_bad_field, one_reading, plain_of, question, read_record, write_request,
};
pub use wire_values::{Plain, ReportKind, Word};
