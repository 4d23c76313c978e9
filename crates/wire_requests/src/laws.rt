//! Laws of the forms.

ghost use Rattle.std.specs.Prelude.{ℕ, List, ◌≡◌, ◌⊎◌};
ghost use Rattle.wire_values.specs.Commas.{joined};
ghost use Rattle.wire_requests.specs.Forms.{FirstWrong};
ghost use Rattle.wire_requests.specs.declared.request.Request.{Request};
ghost use Rattle.wire_requests.specs.Requests.{spelling, IsGood, IsFirstWithout, IsRecord, IsMalformed};

/// The field in a refusal is the first that no request with the same earlier fields has.
pub fn first_bad_field()
    ensures { (fields : List (List ℕ)) (n : ℕ) → FirstWrong fields n → IsFirstWithout fields n }
{}

/// Each line is either the record of exactly one request or malformed at one field.
pub fn one_reading()
    ensures some { (line : List ℕ) → ((r : Request) × IsRecord line r) ⊎ ((field : ℕ)
        × IsMalformed line field) }
    ensures same { (line : List ℕ) (r s : Request) → IsRecord line r → IsRecord line s → r ≡ s }
    ensures once { (line : List ℕ) (a b : ℕ) → IsMalformed line a → IsMalformed line b → a ≡ b }
    ensures apart { (line : List ℕ) (r : Request) (field : ℕ) → IsRecord line r
        → IsMalformed line field → ⊥ }
{}

/// The fields of a request, joined by commas, are a line that is its record.
pub fn canonical_line()
    ensures { (r : Request) → IsGood r → IsRecord (joined (spelling r)) r }
{}
