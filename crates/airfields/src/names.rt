//! Names of airfields and runways.

ghost use Rattle.std.specs.Prelude.{◌≡◌, ◌↔◌, ◌<◌, IsTrue, MatchResult, nat_eq, Some, refl};
ghost use Rattle.airfields.specs.Names.{IsLetterOrDigit, IsRunwayByte, IsFieldId, IsRunwayName, name_cmp};

use short_text::ShortText;
use std::cmp::Ordering;
use std::marker::Model;

/// Most bytes in a name.
pub const NAME_LIMIT: usize = 8;

/// The text is not a name.
#[derive(Clone, Copy, Debug, PartialEq, Eq)]
pub struct BadName;

/// The name of an airfield: 1 to 8 letters A to Z and digits.
#[derive(Clone, Copy, Debug, PartialEq, Eq, PartialOrd, Ord)]
pub struct FieldId {
    text: ShortText<NAME_LIMIT>,
}

impl Model for FieldId {
    ghost use Rattle.std.specs.Prelude.{ℕ, List};
    ghost use Rattle.airfields.specs.Names.{IsFieldId};

    ghost Value = { List ℕ };

    ghost view = { λ n. n.text };

    ghost invariant = { λ n. IsFieldId n.text };

    ghost inverse = { λ v. record { text = v } };
}

/// The name of a runway: 1 to 8 letters A to Z, digits and slashes, as `09/27`.
#[derive(Clone, Copy, Debug, PartialEq, Eq, PartialOrd, Ord)]
pub struct RunwayName {
    text: ShortText<NAME_LIMIT>,
}

impl Model for RunwayName {
    ghost use Rattle.std.specs.Prelude.{ℕ, List};
    ghost use Rattle.airfields.specs.Names.{IsRunwayName};

    ghost Value = { List ℕ };

    ghost view = { λ n. n.text };

    ghost invariant = { λ n. IsRunwayName n.text };

    ghost inverse = { λ v. record { text = v } };
}

/// Whether the byte is a letter A to Z or a digit.
fn is_letter_or_digit(byte: u8) -> bool
    ensures { IsTrue result ↔ IsLetterOrDigit byte }
{
    byte.is_ascii_uppercase() || byte.is_ascii_digit()
}

/// Whether the byte is a letter A to Z, a digit or a slash.
fn is_runway_byte(byte: u8) -> bool
    ensures { IsTrue result ↔ IsRunwayByte byte }
{
    is_letter_or_digit(byte) || byte == b'/'
}

impl FieldId {
    /// The name that `text` is.
    ///
    /// # Errors
    ///
    /// `BadName` exactly where `text` is not 1 to 8 letters A to Z and digits.
    pub fn new(text: &[u8]) -> Result<FieldId, BadName>
        ensures exact { MatchResult result (λ n. n ≡ text.now) (λ _. ¬ IsFieldId text.now) }
    {
        if text.is_empty() || !text.iter().all(|byte| is_letter_or_digit(*byte)) {
            return Err(BadName);
        }
        match ShortText::new(text) {
            Some(text) => Ok(FieldId { text }),
            None => Err(BadName),
        }
    }

    /// The bytes of the name.
    pub fn as_bytes(&self) -> &[u8]
        ensures value { result.now ≡ self.now }
        ensures name { IsFieldId self.now }
    {
        self.text.as_bytes()
    }

    /// The name as text.
    pub fn as_str(&self) -> &str
        ensures value { result.now ≡ self.now }
        ensures name { IsFieldId self.now }
    {
        match str::from_utf8(self.text.as_bytes()) {
            Ok(text) => text,
            Err(_) => unreachable!(),
        }
    }

    /// The order of the two names, byte by byte.
    pub fn compare(&self, other: &FieldId) -> Ordering
        ensures order { result ≡ name_cmp self.now other.now }
    {
        self.text.compare(&other.text)
    }
}

impl RunwayName {
    /// The name that `text` is.
    ///
    /// # Errors
    ///
    /// `BadName` exactly where `text` is not 1 to 8 letters A to Z, digits and slashes.
    pub fn new(text: &[u8]) -> Result<RunwayName, BadName>
        ensures exact { MatchResult result (λ n. n ≡ text.now) (λ _. ¬ IsRunwayName text.now) }
    {
        if text.is_empty() || !text.iter().all(|byte| is_runway_byte(*byte)) {
            return Err(BadName);
        }
        match ShortText::new(text) {
            Some(text) => Ok(RunwayName { text }),
            None => Err(BadName),
        }
    }

    /// The bytes of the name.
    pub fn as_bytes(&self) -> &[u8]
        ensures value { result.now ≡ self.now }
        ensures name { IsRunwayName self.now }
    {
        self.text.as_bytes()
    }

    /// The name as text.
    pub fn as_str(&self) -> &str
        ensures value { result.now ≡ self.now }
        ensures name { IsRunwayName self.now }
    {
        match str::from_utf8(self.text.as_bytes()) {
            Ok(text) => text,
            Err(_) => unreachable!(),
        }
    }

    /// The order of the two names, byte by byte.
    pub fn compare(&self, other: &RunwayName) -> Ordering
        ensures order { result ≡ name_cmp self.now other.now }
    {
        self.text.compare(&other.text)
    }
}
