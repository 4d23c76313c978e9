//! The forms of records.

ghost use Rattle.std.specs.Prelude.{◌≡◌, ◌≢◌, ◌∷◌, [], IfSome, IfNone};
ghost use Rattle.wire_values.specs.Wanted.{Spelled};
ghost use Rattle.wire_cursor.specs.Shape.{Took};
ghost use Rattle.wire_requests.specs.Forms.{form_word, BeginsWith};
ghost use Rattle.wire_requests.specs.declared.form.Form.{Form as SomeForm};

use wire_cursor::Cursor;
use wire_values::Plain;

/// A form of changing records, chosen by the first field.
#[derive(Clone, Copy)]
pub enum ActForm {
    /// A change whose accepted reply holds nothing but the form's name.
    Plain(Plain),
    /// A notice, which opens a case.
    File,
    /// The form of an emergency notice.
    Form,
    /// A determination.
    Determine,
    /// A petition for review.
    Petition,
    /// The decision on a petition.
    Dispose,
    /// A request for an extension.
    Extend,
    /// A request for a revision on new facts.
    Revise,
    /// The FCC's decision on a construction permit.
    Fcc,
    /// A structure is abandoned.
    Abandon,
}

/// A form of records, chosen by the first field.
#[derive(Clone, Copy)]
pub enum Form {
    /// A change.
    Act(ActForm),
    /// The list of findings of a structure.
    Screen,
    /// The verdict on a structure's findings.
    Verdict,
    /// The status of a case.
    Case,
    /// The row of an airfield.
    Airfield,
    /// The cases that are marked for review.
    Review,
    /// A report.
    Report,
    /// The number of the newest entry.
    Sync,
}

// Finds the form with this word.
#[tactic(auto, using(crate::proofs::FormFacts::no_form))]
fn form_of(word: &[u8]) -> Option<Form>
    ensures some { IfSome result (λ form. word.now ≡ form_word form) }
    ensures none { IfNone result ((form : SomeForm) → word.now ≢ form_word form) }
{
    match word {
        b"screen" => Some(Form::Screen),
        b"airport" => Some(Form::Act(ActForm::Plain(Plain::Airport))),
        b"runway" => Some(Form::Act(ActForm::Plain(Plain::Runway))),
        b"droprunway" => Some(Form::Act(ActForm::Plain(Plain::DropRunway))),
        b"heliport" => Some(Form::Act(ActForm::Plain(Plain::Heliport))),
        b"drop" => Some(Form::Act(ActForm::Plain(Plain::Drop))),
        b"day" => Some(Form::Act(ActForm::Plain(Plain::Day))),
        b"closed" => Some(Form::Act(ActForm::Plain(Plain::Closed))),
        b"file" => Some(Form::Act(ActForm::File)),
        b"form" => Some(Form::Act(ActForm::Form)),
        b"determine" => Some(Form::Act(ActForm::Determine)),
        b"petition" => Some(Form::Act(ActForm::Petition)),
        b"dispose" => Some(Form::Act(ActForm::Dispose)),
        b"extend" => Some(Form::Act(ActForm::Extend)),
        b"revise" => Some(Form::Act(ActForm::Revise)),
        b"fcc" => Some(Form::Act(ActForm::Fcc)),
        b"abandon" => Some(Form::Act(ActForm::Abandon)),
        b"verdict" => Some(Form::Verdict),
        b"case" => Some(Form::Case),
        b"airfield" => Some(Form::Airfield),
        b"review" => Some(Form::Review),
        b"report" => Some(Form::Report),
        b"sync" => Some(Form::Sync),
        _ => None,
    }
}

/// Takes the first field and finds the form that it names.
pub(crate) fn named_form(cursor: &mut Cursor<'_>) -> Option<Form>
    ensures took { IfSome result (λ form. Took (Spelled (form_word form) ∷ [])
        (form_word form ∷ []) cursor.old cursor.new) }
    ensures before { IfSome result (λ form. cursor.new.before ≡ form_word form) }
    ensures none { IfNone result ((form : SomeForm)
        → ¬ BeginsWith (form_word form) cursor.old.rest) }
{
    let word = cursor.next()?;
    form_of(word)
}
