//! The trait of field values in records and replies: each value has one spelling, which can be parsed and appended.

ghost use Rattle.std.specs.Prelude.{◌≡◌, ◌++◌, ℕ, List, IfSome, IfNone, OnOk, OnErr, string_bytes, codes};
ghost use Rattle.grid_exact.specs.Texts.{Extends};
ghost use Rattle.wire_values.specs.Wanted.{Wanted, Fits};

use grid_exact::NoMemory;

/// A value of one field, with its one spelling.
pub trait FieldValue: Sized {
    /// The kind of field that a record expects for this type.
    ghost wanted: { Wanted };

    /// The spelling of a value.
    ghost spelled: { Self → List ℕ };

    /// Whether a value can be spelled in a field.
    ghost good: { Self → Type 0 };

    /// Parses `text`; `None` exactly where it spells no value.
    fn parse(text: &[u8]) -> Option<Self>
        ensures some { IfSome result (λ v. text.now ≡ spelled v) }
        ensures good { IfSome result (λ v. good v) }
        ensures none { IfNone result ((before : List ℕ) → ¬ Fits wanted before text.now) };

    /// Appends the spelling to `text`.
    ///
    /// # Errors
    ///
    /// `NoMemory` where memory was refused; a part of the spelling may then be appended.
    fn append(&self, text: &mut String) -> Result<(), NoMemory>
        ensures ok { OnOk result (string_bytes text.new
            ≡ string_bytes text.old ++ spelled self.now) }
        ensures part { OnErr result (Extends (string_bytes text.old) (string_bytes text.new)) };

    /// The spelling of a good value fits the expected field, whatever the field before it is.
    ghost fits: { (v : Self) → good v → (before : List ℕ) → Fits wanted before (spelled v) };
}

/// Appends `part` to `text`.
///
/// # Errors
///
/// `NoMemory` where memory was refused; nothing is then appended.
#[tactic(auto, using(grid_exact::proofs::Extending::extending))]
pub fn append_text(text: &mut String, part: &str) -> Result<(), NoMemory>
    ensures ok { OnOk result (string_bytes text.new ≡ string_bytes text.old ++ part.now) }
    ensures part { OnErr result (Extends (string_bytes text.old) (string_bytes text.new)) }
{
    text.push_str(part)?;
    Ok(())
}

/// Appends a comma and the spelling of `value` to `text`.
///
/// # Errors
///
/// `NoMemory` where memory was refused; a part of both may then be appended.
#[tactic(auto, using(grid_exact::proofs::Extending::extending))]
pub fn append_next<V: FieldValue>(text: &mut String, value: &V) -> Result<(), NoMemory>
    ensures ok { OnOk result (string_bytes text.new
        ≡ string_bytes text.old ++ (codes "," ++ V.spelled value.now)) }
    ensures part { OnErr result (Extends (string_bytes text.old) (string_bytes text.new)) }
{
    append_text(text, ",")?;
    value.append(text)
}
