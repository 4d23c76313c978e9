//! Writing whole texts.

ghost use Rattle.std.specs.Prelude.{◌≡◌, List, ℕ, [], OnOk, OnErr};
ghost use Rattle.oe_http.specs.Causes.{HasCause};
ghost use Rattle.oe_http.specs.Written.{Sent};

use crate::{Failed, Sink};

/// Writes all of a text.
///
/// # Errors
///
/// `Failed` where the sink fails. A front of the text was then written.
#[tactic(auto, using(crate::proofs::SentFacts::sent_start, crate::proofs::SentFacts::sent_on, crate::proofs::SentFacts::sent_keep))]
pub fn write_whole<O: Sink>(output: &mut O, text: &[u8]) -> Result<(), Failed>
    ensures ok { OnOk result (Sent (O.held output.old) (O.held output.new) text.now []) }
    ensures err { OnErr result ((rest : List ℕ)
        × Sent (O.held output.old) (O.held output.new) text.now rest) }
    ensures beside { O.beside output.new ≡ O.beside output.old }
    ensures cause { HasCause (O.faults output.old) (O.faults output.new) result }
{
    let mut rest = text;
    while !rest.is_empty() {
        let count = output.write(rest)?;
        let (_, after) = rest.split_at(count);
        rest = after;
    }
    Ok(())
}
