//! Laws of the definitions.

ghost use Rattle.std.specs.Prelude.{◌≡◌, ◌≤◌, ◌<◌, Bool, ℕ, List, length};
ghost use Rattle.httparse.specs.Grammar.{RequestHead, ReadsRequest, print_request};
ghost use Rattle.http_messages.specs.Heads.{RefusesLarge, RefusesMalformed};
ghost use Rattle.http_messages.specs.Messages.{Comes, IsMessage};
ghost use Rattle.http_messages.specs.declared.decision.TheConstants.{HEAD_LIMIT, MOST_FIELDS};
ghost use Rattle.http_messages.specs.declared.request.Incoming.TheVariants as incoming;

/// No bytes are both too large and malformed, and bytes that begin with a head within the limits are neither.
pub fn one_outcome()
    ensures refused { (bytes : List ℕ) → RefusesLarge bytes → RefusesMalformed bytes → ⊥ }
    ensures good { (bytes : List ℕ) (h : RequestHead) (rest : List ℕ) → ReadsRequest bytes h rest
        → length h.fields ≤ MOST_FIELDS → length (print_request h) ≤ HEAD_LIMIT
        → RefusesLarge bytes → ⊥ }
    ensures well { (bytes : List ℕ) (h : RequestHead) (rest : List ℕ) → ReadsRequest bytes h rest
        → length h.fields ≤ MOST_FIELDS → RefusesMalformed bytes → ⊥ }
{}

/// A stream begins with one request at most, and it is neither cut, refused nor at its end where it does. It is refused with
/// one status at most, and not where it is cut.
pub fn one_message()
    ensures method { (stream m t b n u d left after : List ℕ) (c e : Bool)
        → IsMessage stream m t b c left → IsMessage stream n u d e after → m ≡ n }
    ensures target { (stream m t b n u d left after : List ℕ) (c e : Bool)
        → IsMessage stream m t b c left → IsMessage stream n u d e after → t ≡ u }
    ensures body { (stream m t b n u d left after : List ℕ) (c e : Bool)
        → IsMessage stream m t b c left → IsMessage stream n u d e after → b ≡ d }
    ensures close { (stream m t b n u d left after : List ℕ) (c e : Bool)
        → IsMessage stream m t b c left → IsMessage stream n u d e after → c ≡ e }
    ensures left { (stream m t b n u d left after : List ℕ) (c e : Bool)
        → IsMessage stream m t b c left → IsMessage stream n u d e after → left ≡ after }
    ensures some { (stream m t b left : List ℕ) (c : Bool) → IsMessage stream m t b c left
        → 0 < length stream }
    ensures whole { (stream m t b left after : List ℕ) (c : Bool) → IsMessage stream m t b c left
        → Comes stream incoming.Truncated after → ⊥ }
    ensures good { (stream m t b left after : List ℕ) (c : Bool) (status : ℕ)
        → IsMessage stream m t b c left → Comes stream (incoming.Refused status) after → ⊥ }
    ensures cut { (stream left after : List ℕ) (status : ℕ) → Comes stream incoming.Truncated left
        → Comes stream (incoming.Refused status) after → ⊥ }
    ensures status { (stream left after : List ℕ) (status other : ℕ)
        → Comes stream (incoming.Refused status) left → Comes stream (incoming.Refused other) after
        → status ≡ other }
{}
