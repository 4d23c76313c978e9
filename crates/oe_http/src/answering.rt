//! The trait of what answers the lines of a session.

ghost use Rattle.std.specs.Prelude.{◌≡◌, ◌≤◌, ◌<◌, ◌++◌, List, ℕ, length, OnOk, OnErr, string_bytes};
ghost use Rattle.grid_exact.specs.Texts.{Extends};

use grid_exact::{LINE_LIMIT, NoMemory};

/// Answers the lines of a session, one after another. Its value is the state of the session.
pub trait Answering {
    /// One line and its reply take one state to the next: the state before, the line, the text of the reply, the state after.
    ghost step: { Self → List ℕ → List ℕ → Self → Type 0 };

    /// Appends the text of the reply to a line. An empty line has an empty reply.
    ///
    /// # Errors
    ///
    /// `NoMemory` where memory was refused. The state is then the one after the line and some reply to it, which may be that memory is wanting;
    /// a part of the reply may stand at the end of the text.
    fn answer(&mut self, line: &[u8], text: &mut String) -> Result<(), NoMemory>
        requires short { length line.now ≤ LINE_LIMIT }
        ensures reply { OnOk result ((reply : List ℕ) × step self.old line.now reply self.new
            × (string_bytes text.new ≡ string_bytes text.old ++ reply)) }
        ensures made { OnErr result ((reply : List ℕ) × step self.old line.now reply self.new) }
        ensures part { OnErr result (Extends (string_bytes text.old) (string_bytes text.new)) };

    /// As above for a line of more than [`LINE_LIMIT`] bytes, whose bytes are dropped.
    ///
    /// # Errors
    ///
    /// As above.
    fn answer_long(&mut self, text: &mut String) -> Result<(), NoMemory>
        ensures reply { OnOk result ((reply : List ℕ)
            × ((line : List ℕ) → LINE_LIMIT < length line → step self.old line reply self.new)
            × (string_bytes text.new ≡ string_bytes text.old ++ reply)) }
        ensures made { OnErr result ((reply : List ℕ)
            × ((line : List ℕ) → LINE_LIMIT < length line → step self.old line reply self.new)) }
        ensures part { OnErr result (Extends (string_bytes text.old) (string_bytes text.new)) };
}
