//! The forms of acts.

ghost use Rattle.std.specs.Prelude.{◌≡◌};
ghost use Rattle.wire_requests.specs.Forms.{act_word};
ghost use Rattle.wire_requests.specs.Spellings.{plain_of, act_form};

use crate::form::ActForm;
use airport_register::Amendment;
use case_requests::Act;
use wire_values::Plain;

/// The form of an amendment's record.
pub fn plain_of(amendment: &Amendment) -> Plain
    ensures { result ≡ plain_of amendment.now }
{
    match amendment {
        Amendment::PutAirport { .. } => Plain::Airport,
        Amendment::PutRunway { .. } => Plain::Runway,
        Amendment::DropRunway { .. } => Plain::DropRunway,
        Amendment::PutHeliport(_) => Plain::Heliport,
        Amendment::Drop(_) => Plain::Drop,
    }
}

/// The form of an act's record.
pub fn act_form(act: &Act) -> ActForm
    ensures { result ≡ act_form act.now }
{
    match act {
        Act::Amend(amendment) => ActForm::Plain(plain_of(amendment)),
        Act::Day(_) => ActForm::Plain(Plain::Day),
        Act::Closed(_) => ActForm::Plain(Plain::Closed),
        Act::File(_) => ActForm::File,
        Act::Form(_) => ActForm::Form,
        Act::Determine { .. } => ActForm::Determine,
        Act::Petition { .. } => ActForm::Petition,
        Act::Dispose { .. } => ActForm::Dispose,
        Act::Extend { .. } => ActForm::Extend,
        Act::Revise { .. } => ActForm::Revise,
        Act::Fcc { .. } => ActForm::Fcc,
        Act::Abandon(_) => ActForm::Abandon,
    }
}

impl ActForm {
    /// The word of the form, the first field of its records.
    pub fn word(self) -> &'static str
        ensures { result.now ≡ act_word self }
    {
        match self {
            ActForm::Plain(plain) => plain.word(),
            ActForm::File => "file",
            ActForm::Form => "form",
            ActForm::Determine => "determine",
            ActForm::Petition => "petition",
            ActForm::Dispose => "dispose",
            ActForm::Extend => "extend",
            ActForm::Revise => "revise",
            ActForm::Fcc => "fcc",
            ActForm::Abandon => "abandon",
        }
    }
}
