//! Values spelled by one word of a fixed list.

ghost use Rattle.std.specs.Prelude.{◌≡◌, ◌≢◌, Some, IfSome, IfNone, refl};
ghost use Rattle.airfields.specs.declared.category.Category.{Category};
ghost use Rattle.case_requests.specs.declared.act.Impact.{Impact as SomeImpact};
ghost use Rattle.wire_values.specs.Words.{category_word, kind_word, impact_word, party_word, report_word};
ghost use Rattle.wire_values.specs.Wanted.{CategoryWanted, KindWanted, ImpactWanted, PartyWanted, ReportWanted};

use crate::field_value::{FieldValue, append_text};
use crate::report::ReportKind;
use airfields::{Category, StructureKind};
use case_requests::{Impact, Party};
use grid_exact::NoMemory;

fn text_of_category(category: Category) -> &'static str
    ensures { result.now ≡ category_word category }
{
    match category {
        Category::PublicUse => "public",
        Category::PublicBuilding => "building",
        Category::MilitaryBuilding => "military",
        Category::Federal => "federal",
        Category::Dod => "dod",
        Category::Procedure => "procedure",
        Category::OtherPrivate => "private",
    }
}

impl FieldValue for Category {
    ghost wanted = { CategoryWanted };

    ghost spelled = { category_word };

    ghost good = { λ _. Unit {0} };

    #[tactic(auto, using(crate::proofs::WordFacts::no_category))]
    fn parse(text: &[u8]) -> Option<Category> {
        match text {
            b"public" => Some(Category::PublicUse),
            b"building" => Some(Category::PublicBuilding),
            b"military" => Some(Category::MilitaryBuilding),
            b"federal" => Some(Category::Federal),
            b"dod" => Some(Category::Dod),
            b"procedure" => Some(Category::Procedure),
            b"private" => Some(Category::OtherPrivate),
            _ => None,
        }
    }

    fn append(&self, text: &mut String) -> Result<(), NoMemory> {
        append_text(text, text_of_category(*self))
    }

    ghost fits = { λ v _ _. (v, refl) };
}

fn text_of_kind(kind: StructureKind) -> &'static str
    ensures { result.now ≡ kind_word kind }
{
    match kind {
        StructureKind::Object => "object",
        StructureKind::Antenna => "antenna",
        StructureKind::Interstate => "interstate",
        StructureKind::Road => "road",
        StructureKind::Private => "private",
        StructureKind::Rail => "rail",
        StructureKind::Water => "water",
    }
}

impl FieldValue for StructureKind {
    ghost wanted = { KindWanted };

    ghost spelled = { kind_word };

    ghost good = { λ _. Unit {0} };

    #[tactic(auto, using(crate::proofs::WordFacts::no_kind))]
    fn parse(text: &[u8]) -> Option<StructureKind> {
        match text {
            b"object" => Some(StructureKind::Object),
            b"antenna" => Some(StructureKind::Antenna),
            b"interstate" => Some(StructureKind::Interstate),
            b"road" => Some(StructureKind::Road),
            b"private" => Some(StructureKind::Private),
            b"rail" => Some(StructureKind::Rail),
            b"water" => Some(StructureKind::Water),
            _ => None,
        }
    }

    fn append(&self, text: &mut String) -> Result<(), NoMemory> {
        append_text(text, text_of_kind(*self))
    }

    ghost fits = { λ v _ _. (v, refl) };
}

fn text_of_impact(finding: Option<Impact>) -> &'static str
    ensures { result.now ≡ impact_word finding }
{
    match finding {
        None => "-",
        Some(Impact::NotSubstantial) => "none",
        Some(Impact::Substantial) => "substantial",
    }
}

// Parses the word of a finding.
#[tactic(auto, using(crate::proofs::WordFacts::no_impact))]
fn impact_of(text: &[u8]) -> Option<Impact>
    ensures some { IfSome result (λ i. text.now ≡ impact_word (Some i)) }
    ensures none { IfNone result ((i : SomeImpact) → text.now ≢ impact_word (Some i)) }
{
    if text == b"none".as_slice() {
        return Some(Impact::NotSubstantial);
    }
    if text == b"substantial".as_slice() {
        return Some(Impact::Substantial);
    }
    None
}

/// The finding where a standard is exceeded, or a dash where none is.
impl FieldValue for Option<Impact> {
    ghost wanted = { ImpactWanted };

    ghost spelled = { impact_word };

    ghost good = { λ _. Unit {0} };

    #[tactic(auto, using(crate::proofs::WordFacts::no_meaning))]
    fn parse(text: &[u8]) -> Option<Option<Impact>> {
        if text == b"-".as_slice() {
            return Some(None);
        }
        match impact_of(text) {
            Some(impact) => Some(Some(impact)),
            None => None,
        }
    }

    fn append(&self, text: &mut String) -> Result<(), NoMemory> {
        append_text(text, text_of_impact(*self))
    }

    ghost fits = { λ v _ _. (v, refl) };
}

fn text_of_party(party: Party) -> &'static str
    ensures { result.now ≡ party_word party }
{
    match party {
        Party::Sponsor => "sponsor",
        Party::Commenter => "commenter",
        Party::LateComment => "latecomment",
    }
}

impl FieldValue for Party {
    ghost wanted = { PartyWanted };

    ghost spelled = { party_word };

    ghost good = { λ _. Unit {0} };

    #[tactic(auto, using(crate::proofs::WordFacts::no_party))]
    fn parse(text: &[u8]) -> Option<Party> {
        match text {
            b"sponsor" => Some(Party::Sponsor),
            b"commenter" => Some(Party::Commenter),
            b"latecomment" => Some(Party::LateComment),
            _ => None,
        }
    }

    fn append(&self, text: &mut String) -> Result<(), NoMemory> {
        append_text(text, text_of_party(*self))
    }

    ghost fits = { λ v _ _. (v, refl) };
}

impl FieldValue for ReportKind {
    ghost wanted = { ReportWanted };

    ghost spelled = { report_word };

    ghost good = { λ _. Unit {0} };

    #[tactic(auto, using(crate::proofs::WordFacts::no_report))]
    fn parse(text: &[u8]) -> Option<ReportKind> {
        match text {
            b"review" => Some(ReportKind::Review),
            b"expiry" => Some(ReportKind::Expiry),
            b"airfields" => Some(ReportKind::Airfields),
            _ => None,
        }
    }

    fn append(&self, text: &mut String) -> Result<(), NoMemory> {
        append_text(text, self.word())
    }

    ghost fits = { λ v _ _. (v, refl) };
}
