//! The texts of outcomes. Each begins with a comma.

ghost use Rattle.std.specs.Prelude.{◌≡◌, [], ◌∷◌, ◌++◌, OnOk, OnErr, codes, string_bytes};
ghost use Rattle.std.specs.Fmt.{decimal};
ghost use Rattle.grid_exact.specs.Texts.{Extends};
ghost use Rattle.wire_values.specs.Commas.{with_commas};
ghost use Rattle.wire_values.specs.Words.{decision_word as decided_word};
ghost use Rattle.wire_replies.specs.States.{date_word, day_text};
ghost use Rattle.wire_replies.specs.Entries.{list_text};
ghost use Rattle.wire_replies.specs.Outcomes as spec;

use crate::dates::{append_date, append_next_date, append_next_day};
use crate::entries::append_list;
use crate::fields::{append_next_number, append_next_word, append_number};
use case_records::Outcome;
use determination_dates::{Decision, Timeliness};
use grid_exact::NoMemory;
use jiff::civil::Date;
use wire_values::{append_text, decision_word};

// Appends a comma and a number of days late.
#[tactic(auto, using(grid_exact::proofs::Extending::extending))]
fn append_late(text: &mut String, days: u32) -> Result<(), NoMemory>
    ensures ok { OnOk result (string_bytes text.new
        ≡ string_bytes text.old ++ (codes "," ++ spec.late_text days)) }
    ensures part { OnErr result (Extends (string_bytes text.old) (string_bytes text.new)) }
{
    append_text(text, ",late ")?;
    append_number(text, u64::from(days))
}

// Appends a comma and a number of days late, or `word` where the number is 0.
fn append_lateness(text: &mut String, word: &str, days: u32) -> Result<(), NoMemory>
    ensures ok { OnOk result (string_bytes text.new
        ≡ string_bytes text.old ++ (codes "," ++ spec.lateness_text word.now days)) }
    ensures part { OnErr result (Extends (string_bytes text.old) (string_bytes text.new)) }
{
    if days == 0 {
        append_next_word(text, word)
    } else {
        append_late(text, days)
    }
}

// Appends a comma, a word, a space and a date.
#[tactic(auto, using(grid_exact::proofs::Extending::extending))]
fn append_word_and_date(text: &mut String, word: &str, date: Date) -> Result<(), NoMemory>
    ensures ok { OnOk result (string_bytes text.new
        ≡ string_bytes text.old ++ (codes "," ++ word.now ++ codes " " ++ date_word date)) }
    ensures part { OnErr result (Extends (string_bytes text.old) (string_bytes text.new)) }
{
    append_next_word(text, word)?;
    append_text(text, " ")?;
    append_date(text, date)
}

// Appends whether a notice is in time.
fn append_timeliness(text: &mut String, timely: Timeliness) -> Result<(), NoMemory>
    ensures ok { OnOk result (string_bytes text.new
        ≡ string_bytes text.old ++ (codes "," ++ spec.timeliness_text timely)) }
    ensures part { OnErr result (Extends (string_bytes text.old) (string_bytes text.new)) }
{
    match timely {
        Timeliness::Timely => append_next_word(text, "timely"),
        Timeliness::Late(days) => append_late(text, days),
        Timeliness::Emergency { due } => append_word_and_date(text, "emergency", due),
    }
}

// Appends whether a notice is in time before the application to the FCC.
fn append_fcc(text: &mut String, fcc: Option<u32>) -> Result<(), NoMemory>
    ensures ok { OnOk result (string_bytes text.new
        ≡ string_bytes text.old ++ (codes "," ++ spec.fcc_text fcc)) }
    ensures part { OnErr result (Extends (string_bytes text.old) (string_bytes text.new)) }
{
    match fcc {
        Some(days) => append_lateness(text, "timely", days),
        None => append_next_word(text, "-"),
    }
}

fn presumption_word(explained: Option<bool>) -> &'static str
    ensures { result.now ≡ spec.presumption_text explained }
{
    match explained {
        Some(true) => "explained",
        Some(false) => "unexplained",
        None => "-",
    }
}

// Appends a form and its case, a comma before each.
#[tactic(auto, using(grid_exact::proofs::Extending::extending))]
fn append_head(text: &mut String, form: &str, case: u32) -> Result<(), NoMemory>
    ensures ok { OnOk result (string_bytes text.new
        ≡ string_bytes text.old ++ with_commas (form.now ∷ decimal case ∷ [])) }
    ensures part { OnErr result (Extends (string_bytes text.old) (string_bytes text.new)) }
{
    append_next_word(text, form)?;
    append_next_number(text, u64::from(case))
}

// Appends the outcome of a notice that opened a case.
#[tactic(auto, using(grid_exact::proofs::Extending::extending))]
fn append_filed(
    text: &mut String,
    case: u32,
    timely: Timeliness,
    fcc: Option<u32>,
    explained: Option<bool>,
) -> Result<(), NoMemory>
    ensures ok { OnOk result (string_bytes text.new
        ≡ string_bytes text.old ++ (codes "," ++ spec.filed_text case timely fcc explained)) }
    ensures part { OnErr result (Extends (string_bytes text.old) (string_bytes text.new)) }
{
    append_head(text, "case", case)?;
    append_timeliness(text, timely)?;
    append_fcc(text, fcc)?;
    append_next_word(text, presumption_word(explained))
}

// Appends the outcome of a received form.
#[tactic(auto, using(grid_exact::proofs::Extending::extending))]
fn append_form(text: &mut String, case: u32, late: u32) -> Result<(), NoMemory>
    ensures ok { OnOk result (string_bytes text.new
        ≡ string_bytes text.old ++ (codes "," ++ spec.form_text case late)) }
    ensures part { OnErr result (Extends (string_bytes text.old) (string_bytes text.new)) }
{
    append_head(text, "form", case)?;
    append_lateness(text, "intime", late)
}

// Appends the decision of a determination, the entry number of its register, and its day of issuance.
#[tactic(auto, using(grid_exact::proofs::Extending::extending))]
fn append_issued(
    text: &mut String,
    decision: Decision,
    last: u64,
    issued: Date,
) -> Result<(), NoMemory>
    ensures ok { OnOk result (string_bytes text.new
        ≡ string_bytes text.old ++ with_commas
        (decided_word decision ∷ decimal last ∷ date_word issued ∷ [])) }
    ensures part { OnErr result (Extends (string_bytes text.old) (string_bytes text.new)) }
{
    append_next_word(text, decision_word(decision))?;
    append_next_number(text, last)?;
    append_next_date(text, issued)
}

// Appends the days that follow from the issuance of a determination.
#[tactic(auto, using(grid_exact::proofs::Extending::extending))]
fn append_days(
    text: &mut String,
    deadline: Option<Date>,
    effective: Option<Date>,
    expiry: Option<Date>,
) -> Result<(), NoMemory>
    ensures ok { OnOk result (string_bytes text.new
        ≡ string_bytes text.old ++ with_commas
        (day_text deadline ∷ day_text effective ∷ day_text expiry ∷ [])) }
    ensures part { OnErr result (Extends (string_bytes text.old) (string_bytes text.new)) }
{
    append_next_day(text, deadline)?;
    append_next_day(text, effective)?;
    append_next_day(text, expiry)
}

fn disposal_word(affirmed: bool) -> &'static str
    ensures { result.now ≡ spec.disposal_word affirmed }
{
    if affirmed { "affirm" } else { "reverse" }
}

fn disposal_day(affirmed: bool, day: Option<Date>) -> Option<Date>
    ensures { day_text result ≡ spec.disposal_day affirmed day }
{
    if affirmed { day } else { None }
}

// Appends the outcome of a decided petition.
#[tactic(auto, using(grid_exact::proofs::Extending::extending))]
fn append_disposed(
    text: &mut String,
    case: u32,
    affirmed: bool,
    effective: Option<Date>,
    expiry: Option<Date>,
) -> Result<(), NoMemory>
    ensures ok { OnOk result (string_bytes text.new
        ≡ string_bytes text.old ++
        (codes "," ++ spec.disposed_text case affirmed effective expiry)) }
    ensures part { OnErr result (Extends (string_bytes text.old) (string_bytes text.new)) }
{
    append_head(text, "dispose", case)?;
    append_next_word(text, disposal_word(affirmed))?;
    append_next_day(text, disposal_day(affirmed, effective))?;
    append_next_day(text, disposal_day(affirmed, expiry))
}

// Appends the outcome of an extension.
#[tactic(auto, using(grid_exact::proofs::Extending::extending))]
fn append_extended(
    text: &mut String,
    case: u32,
    expiry: Date,
    last_day: Date,
) -> Result<(), NoMemory>
    ensures ok { OnOk result (string_bytes text.new
        ≡ string_bytes text.old ++ (codes "," ++ spec.extended_text case expiry last_day)) }
    ensures part { OnErr result (Extends (string_bytes text.old) (string_bytes text.new)) }
{
    append_head(text, "extend", case)?;
    append_next_date(text, expiry)?;
    append_next_date(text, last_day)
}

// Appends the expiry that was set by the FCC's decision.
#[tactic(auto, using(grid_exact::proofs::Extending::extending))]
fn append_fcc_act(text: &mut String, case: u32, expiry: Date) -> Result<(), NoMemory>
    ensures ok { OnOk result (string_bytes text.new
        ≡ string_bytes text.old ++ (codes "," ++ spec.fcc_act_text case expiry)) }
    ensures part { OnErr result (Extends (string_bytes text.old) (string_bytes text.new)) }
{
    append_head(text, "fcc", case)?;
    append_next_date(text, expiry)
}

/// Appends the outcome of an accepted request, with a comma before it.
///
/// # Errors
///
/// `NoMemory` where memory was refused; the text may then have a part of it.
#[tactic(auto, using(grid_exact::proofs::Extending::extending))]
pub fn append_outcome(text: &mut String, outcome: &Outcome) -> Result<(), NoMemory>
    ensures ok { OnOk result (string_bytes text.new
        ≡ string_bytes text.old ++ (codes "," ++ spec.outcome_text outcome.now)) }
    ensures part { OnErr result (Extends (string_bytes text.old) (string_bytes text.new)) }
{
    match outcome {
        Outcome::Plain(plain) => append_next_word(text, plain.word()),
        Outcome::Filed {
            case,
            timely,
            fcc,
            explained,
        } => append_filed(text, *case, *timely, *fcc, *explained),
        Outcome::FormCame { case, late } => append_form(text, *case, *late),
        Outcome::Determined {
            case,
            decision,
            last,
            issued,
            deadline,
            effective,
            expiry,
            list,
        } => {
            append_head(text, "determine", *case)?;
            append_issued(text, *decision, *last, *issued)?;
            append_days(text, *deadline, *effective, *expiry)?;
            append_list(text, list.as_slice())
        }
        Outcome::Revised {
            case,
            decision,
            last,
            issued,
            deadline,
            effective,
            expiry,
            list,
        } => {
            append_head(text, "revise", *case)?;
            append_issued(text, *decision, *last, *issued)?;
            append_days(text, *deadline, *effective, *expiry)?;
            append_list(text, list.as_slice())
        }
        Outcome::Petitioned { case } => append_head(text, "petition", *case),
        Outcome::Disposed {
            case,
            affirmed,
            effective,
            expiry,
        } => append_disposed(text, *case, *affirmed, *effective, *expiry),
        Outcome::Extended {
            case,
            expiry,
            last_day,
        } => append_extended(text, *case, *expiry, *last_day),
        Outcome::Fcc { case, expiry } => append_fcc_act(text, *case, *expiry),
        Outcome::Abandoned { case } => append_head(text, "abandon", *case),
    }
}
