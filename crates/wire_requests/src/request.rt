//! Requests.

use airfields::{FieldId, Filing};
use case_requests::Act;
use std::marker::Model;
use wire_values::{ReportKind, Word};

/// A request that changes the desk's state; the key identifies it among its caller's requests. It has a record: each value is within
/// the limits of its field.
#[derive(Clone, Copy)]
pub struct Change {
    /// The caller's name.
    pub caller: Word,
    /// The caller's key for the request.
    pub key: Word,
    /// The content of the request.
    pub act: Act,
}

impl Model for Change {
    ghost use Rattle.wire_requests.specs.Changes.{Asked};
    ghost use Rattle.wire_requests.specs.Limits.{IsChangeRecord};

    ghost Value = { Asked };

    ghost view = { λ c. record { caller = c.caller; key = c.key; act = c.act } };

    ghost invariant = { λ c. IsChangeRecord (record { caller = c.caller; key = c.key; act = c.act }) };

    ghost inverse = { λ v. record { caller = v.caller; key = v.key; act = v.act } };
}

impl Change {
    ghost use Rattle.case_requests.specs.Evaluated.{HasFacts};
    ghost use Rattle.wire_requests.specs.Limits.{IsChangeRecord};

    /// Shows to a proof that the change has a record.
    pub fn has_record(&self)
        ensures { IsChangeRecord self.now }
    {
        let _ = &self.act;
    }

    /// Shows to a proof that the new facts of a revision are within their limits.
    #[tactic(auto, using(crate::proofs::FactsIn::has_facts))]
    pub fn has_facts(&self)
        ensures { HasFacts self.now.act }
    {
        self.has_record();
    }
}

/// A request that changes nothing.
#[derive(Clone, Copy)]
pub enum Query {
    /// The list of findings of a structure.
    Screen(Filing),
    /// The verdict on a structure's findings.
    Verdict(Filing),
    /// The status of the case of this number.
    Case(u32),
    /// The row of the airfield of this name.
    Airfield(FieldId),
    /// The cases that are marked for review.
    Review,
    /// A report.
    Report(ReportKind),
    /// The number of the newest entry that the session sees.
    Sync,
}

/// A request.
#[derive(Clone, Copy)]
pub enum Request {
    /// One that changes nothing.
    Query(Query),
    /// One that changes the desk's state.
    Change(Change),
}

/// Why a line could not be read as a request.
#[derive(Clone, Copy, Debug, PartialEq, Eq)]
pub enum ReadRefusal {
    /// The line is the record of no request. The field, counted from 1, is the first that no record with the same earlier fields has; it is
    /// 0 where the line is longer than `LINE_LIMIT` bytes or not one record.
    Malformed { field: u32 },
    /// Memory was refused.
    NoMemory,
}
