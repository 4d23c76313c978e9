//! The parts of replies: numbers and words, each with a comma before it unless it is the first.

ghost use Rattle.std.specs.Prelude.{◌≡◌, ◌++◌, OnOk, OnErr, codes, string_bytes};
ghost use Rattle.std.specs.Fmt.{decimal};
ghost use Rattle.grid_exact.specs.Texts.{Extends};

use grid_exact::NoMemory;
use itoa::Buffer;
use wire_values::append_text;

/// Appends a number.
///
/// # Errors
///
/// `NoMemory` where memory was refused; nothing is then appended.
pub fn append_number(text: &mut String, number: u64) -> Result<(), NoMemory>
    ensures ok { OnOk result (string_bytes text.new ≡ string_bytes text.old ++ decimal number) }
    ensures part { OnErr result (Extends (string_bytes text.old) (string_bytes text.new)) }
{
    let mut buffer = Buffer::new();
    append_text(text, buffer.format(number))
}

/// Appends a comma and a number.
///
/// # Errors
///
/// `NoMemory` where memory was refused; the text may then have the comma.
#[tactic(auto, using(grid_exact::proofs::Extending::extending))]
pub fn append_next_number(text: &mut String, number: u64) -> Result<(), NoMemory>
    ensures ok { OnOk result (string_bytes text.new
        ≡ string_bytes text.old ++ (codes "," ++ decimal number)) }
    ensures part { OnErr result (Extends (string_bytes text.old) (string_bytes text.new)) }
{
    append_text(text, ",")?;
    append_number(text, number)
}

/// Appends a comma and a word.
///
/// # Errors
///
/// `NoMemory` where memory was refused; the text may then have the comma.
#[tactic(auto, using(grid_exact::proofs::Extending::extending))]
pub fn append_next_word(text: &mut String, word: &str) -> Result<(), NoMemory>
    ensures ok { OnOk result (string_bytes text.new
        ≡ string_bytes text.old ++ (codes "," ++ word.now)) }
    ensures part { OnErr result (Extends (string_bytes text.old) (string_bytes text.new)) }
{
    append_text(text, ",")?;
    append_text(text, word)
}
