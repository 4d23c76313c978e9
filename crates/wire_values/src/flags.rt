//! The flags of a notice as a value of a field.

ghost use Rattle.std.specs.Prelude.{◌≡◌, ◌≢◌, ◌++◌, [], IfSome, IfNone, OnOk, OnErr, string_bytes, refl};
ghost use Rattle.grid_exact.specs.Texts.{Extends};
ghost use Rattle.airfields.specs.declared.structure.Flags.{Flags as SomeFlags};
ghost use Rattle.wire_values.specs.Words.{marked_text, flag_letters, flags_text};
ghost use Rattle.wire_values.specs.Letters.{begins_with, letters_after, has_letter};
ghost use Rattle.wire_values.specs.Wanted.{FlagsWanted};

use crate::field_value::{FieldValue, append_text};
use airfields::Flags;
use grid_exact::NoMemory;

// The flag letters that are still to be read.
#[derive(Drop)]
struct Letters<'a> {
    rest: &'a [u8],
}

impl Letters<'_> {
    // Whether the next letter is `letter`; if so it is consumed.
    fn takes(&mut self, letter: u8) -> bool
        ensures read { result ≡ begins_with letter self.old.rest.now }
        ensures rest { self.new.rest.now ≡ letters_after letter self.old.rest.now }
    {
        match self.rest.split_first() {
            Some((first, others)) if *first == letter => {
                self.rest = others;
                true
            }
            _ => false,
        }
    }
}

// Parses the flag letters; each may stand once, in the fixed order.
fn lettered_flags(text: &[u8]) -> Option<Flags>
    ensures some { IfSome result (λ flags. text.now ≡ flag_letters flags) }
    ensures none { IfNone result ((flags : SomeFlags) → text.now ≢ flag_letters flags) }
{
    let mut letters = Letters { rest: text };
    let flags = Flags {
        shielded: letters.takes(b'S'),
        device: letters.takes(b'D'),
        other_rule: letters.takes(b'R'),
        increases: letters.takes(b'I'),
        controlled: letters.takes(b'G'),
        temporary: letters.takes(b'T'),
    };
    if letters.rest.is_empty() {
        Some(flags)
    } else {
        None
    }
}

// Whether any flag is set.
fn has_letter(flags: &Flags) -> bool
    ensures { result ≡ has_letter flags.now }
{
    flags.shielded
        || flags.device
        || flags.other_rule
        || flags.increases
        || flags.controlled
        || flags.temporary
}

// Appends a flag's letter where the flag is set.
fn append_letter(text: &mut String, stands: bool, letter: &str) -> Result<(), NoMemory>
    ensures ok { OnOk result (string_bytes text.new
        ≡ string_bytes text.old ++ marked_text stands letter.now []) }
    ensures part { OnErr result (Extends (string_bytes text.old) (string_bytes text.new)) }
{
    if stands {
        return append_text(text, letter);
    }
    Ok(())
}

// Appends the letters of the flags that are set.
#[tactic(auto, using(grid_exact::proofs::Extending::extending))]
fn append_letters(text: &mut String, flags: &Flags) -> Result<(), NoMemory>
    ensures ok { OnOk result (string_bytes text.new
        ≡ string_bytes text.old ++ flag_letters flags.now) }
    ensures part { OnErr result (Extends (string_bytes text.old) (string_bytes text.new)) }
{
    append_letter(text, flags.shielded, "S")?;
    append_letter(text, flags.device, "D")?;
    append_letter(text, flags.other_rule, "R")?;
    append_letter(text, flags.increases, "I")?;
    append_letter(text, flags.controlled, "G")?;
    append_letter(text, flags.temporary, "T")?;
    Ok(())
}

impl FieldValue for Flags {
    ghost wanted = { FlagsWanted };

    ghost spelled = { flags_text };

    ghost good = { λ _. Unit {0} };

    fn parse(text: &[u8]) -> Option<Flags> {
        if text.is_empty() {
            return None;
        }
        if text == b"-".as_slice() {
            return Some(Flags {
                shielded: false,
                device: false,
                other_rule: false,
                increases: false,
                controlled: false,
                temporary: false,
            });
        }
        lettered_flags(text)
    }

    #[tactic(auto, using(crate::proofs::LetterFacts::with_letters, crate::proofs::LetterFacts::without_letters))]
    fn append(&self, text: &mut String) -> Result<(), NoMemory> {
        if has_letter(self) {
            return append_letters(text, self);
        }
        append_text(text, "-")
    }

    ghost fits = { λ v _ _. (v, refl) };
}
