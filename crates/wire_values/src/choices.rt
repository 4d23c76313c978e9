//! Yes-or-no values, each spelled by one of two words.

ghost use Rattle.std.specs.Prelude.{◌≡◌, ◌≢◌, Bool, IfSome, IfNone, refl, if◌then◌else◌};
ghost use Rattle.wire_values.specs.Words.{weight_word, pavement_word, urgency_word, statement_word, disposal_word, progress_word, warrant_word, grant_word};
ghost use Rattle.wire_values.specs.Wanted.{Choice};

use crate::field_value::{FieldValue, append_text};
use grid_exact::NoMemory;

/// The weight of aircraft that a runway is for (77.3).
#[derive(Clone, Copy, Debug, PartialEq, Eq)]
pub struct Weight {
    /// Whether it is a utility runway.
    pub utility: bool,
}

/// The surface of a runway (77.19(c)).
#[derive(Clone, Copy, Debug, PartialEq, Eq)]
pub struct Pavement {
    /// Whether it is a prepared hard surface.
    pub hard: bool,
}

/// The urgency of a notice (77.7(e)).
#[derive(Clone, Copy, Debug, PartialEq, Eq)]
pub struct Urgency {
    /// Whether it is an emergency that requires immediate construction.
    pub emergency: bool,
}

/// The explanation in a notice of a structure of more than 2,000 feet (77.7(d)).
#[derive(Clone, Copy, Debug, PartialEq, Eq)]
pub struct Statement {
    /// Whether a statement explains why the structure would be no hazard.
    pub explains: bool,
}

/// The decision on a petition (77.37).
#[derive(Clone, Copy, Debug, PartialEq, Eq)]
pub struct Disposal {
    /// Whether the determination is affirmed; else it is reversed.
    pub affirm: bool,
}

/// The progress of construction (77.35).
#[derive(Clone, Copy, Debug, PartialEq, Eq)]
pub struct Progress {
    /// Whether structural work has started.
    pub started: bool,
}

/// The ground of an extension (77.35(c)).
#[derive(Clone, Copy, Debug, PartialEq, Eq)]
pub struct Warrant {
    /// Whether more time is warranted.
    pub warranted: bool,
}

/// The FCC's decision on a construction permit (77.35(b), (c)).
#[derive(Clone, Copy, Debug, PartialEq, Eq)]
pub struct Grant {
    /// Whether it is granted; else it is refused.
    pub granted: bool,
}

// Whether the text is the first of two words; `None` where it is neither of them.
fn choice(text: &[u8], first: &[u8], second: &[u8]) -> Option<bool>
    ensures some { IfSome result (λ b. text.now ≡ (if b then first.now else second.now)) }
    ensures none { IfNone result ((b : Bool) → text.now ≢ (if b then first.now else second.now)) }
{
    if text == first {
        return Some(true);
    }
    if text == second {
        return Some(false);
    }
    None
}

// The first word where `holds`, else the second.
fn chosen(holds: bool, first: &'static str, second: &'static str) -> &'static str
    ensures { result.now ≡ (if holds then first.now else second.now) }
{
    if holds { first } else { second }
}

impl FieldValue for Weight {
    ghost wanted = { Choice weight_word };

    ghost spelled = { λ v. weight_word v.utility };

    ghost good = { λ _. Unit {0} };

    fn parse(text: &[u8]) -> Option<Weight> {
        match choice(text, b"utility", b"other") {
            Some(utility) => Some(Weight { utility }),
            None => None,
        }
    }

    fn append(&self, text: &mut String) -> Result<(), NoMemory> {
        append_text(text, chosen(self.utility, "utility", "other"))
    }

    ghost fits = { λ v _ _. (v.utility, refl) };
}

impl FieldValue for Pavement {
    ghost wanted = { Choice pavement_word };

    ghost spelled = { λ v. pavement_word v.hard };

    ghost good = { λ _. Unit {0} };

    fn parse(text: &[u8]) -> Option<Pavement> {
        match choice(text, b"hard", b"soft") {
            Some(hard) => Some(Pavement { hard }),
            None => None,
        }
    }

    fn append(&self, text: &mut String) -> Result<(), NoMemory> {
        append_text(text, chosen(self.hard, "hard", "soft"))
    }

    ghost fits = { λ v _ _. (v.hard, refl) };
}

impl FieldValue for Urgency {
    ghost wanted = { Choice urgency_word };

    ghost spelled = { λ v. urgency_word v.emergency };

    ghost good = { λ _. Unit {0} };

    fn parse(text: &[u8]) -> Option<Urgency> {
        match choice(text, b"emergency", b"normal") {
            Some(emergency) => Some(Urgency { emergency }),
            None => None,
        }
    }

    fn append(&self, text: &mut String) -> Result<(), NoMemory> {
        append_text(text, chosen(self.emergency, "emergency", "normal"))
    }

    ghost fits = { λ v _ _. (v.emergency, refl) };
}

impl FieldValue for Statement {
    ghost wanted = { Choice statement_word };

    ghost spelled = { λ v. statement_word v.explains };

    ghost good = { λ _. Unit {0} };

    fn parse(text: &[u8]) -> Option<Statement> {
        match choice(text, b"yes", b"-") {
            Some(explains) => Some(Statement { explains }),
            None => None,
        }
    }

    fn append(&self, text: &mut String) -> Result<(), NoMemory> {
        append_text(text, chosen(self.explains, "yes", "-"))
    }

    ghost fits = { λ v _ _. (v.explains, refl) };
}

impl FieldValue for Disposal {
    ghost wanted = { Choice disposal_word };

    ghost spelled = { λ v. disposal_word v.affirm };

    ghost good = { λ _. Unit {0} };

    fn parse(text: &[u8]) -> Option<Disposal> {
        match choice(text, b"affirm", b"reverse") {
            Some(affirm) => Some(Disposal { affirm }),
            None => None,
        }
    }

    fn append(&self, text: &mut String) -> Result<(), NoMemory> {
        append_text(text, chosen(self.affirm, "affirm", "reverse"))
    }

    ghost fits = { λ v _ _. (v.affirm, refl) };
}

impl FieldValue for Progress {
    ghost wanted = { Choice progress_word };

    ghost spelled = { λ v. progress_word v.started };

    ghost good = { λ _. Unit {0} };

    fn parse(text: &[u8]) -> Option<Progress> {
        match choice(text, b"started", b"unstarted") {
            Some(started) => Some(Progress { started }),
            None => None,
        }
    }

    fn append(&self, text: &mut String) -> Result<(), NoMemory> {
        append_text(text, chosen(self.started, "started", "unstarted"))
    }

    ghost fits = { λ v _ _. (v.started, refl) };
}

impl FieldValue for Warrant {
    ghost wanted = { Choice warrant_word };

    ghost spelled = { λ v. warrant_word v.warranted };

    ghost good = { λ _. Unit {0} };

    fn parse(text: &[u8]) -> Option<Warrant> {
        match choice(text, b"yes", b"no") {
            Some(warranted) => Some(Warrant { warranted }),
            None => None,
        }
    }

    fn append(&self, text: &mut String) -> Result<(), NoMemory> {
        append_text(text, chosen(self.warranted, "yes", "no"))
    }

    ghost fits = { λ v _ _. (v.warranted, refl) };
}

impl FieldValue for Grant {
    ghost wanted = { Choice grant_word };

    ghost spelled = { λ v. grant_word v.granted };

    ghost good = { λ _. Unit {0} };

    fn parse(text: &[u8]) -> Option<Grant> {
        match choice(text, b"granted", b"refused") {
            Some(granted) => Some(Grant { granted }),
            None => None,
        }
    }

    fn append(&self, text: &mut String) -> Result<(), NoMemory> {
        append_text(text, chosen(self.granted, "granted", "refused"))
    }

    ghost fits = { λ v _ _. (v.granted, refl) };
}
