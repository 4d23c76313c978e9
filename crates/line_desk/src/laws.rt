//! Laws of desks whose keeper never fails.

ghost use Rattle.std.specs.Prelude.{List, ℕ, Option};
ghost use Rattle.oe_http.specs.Session.{Answered, AnsweredFront, AnsweredRead, Begun};
ghost use Rattle.line_desk.specs.Desk.{Plain, Serving, StepOver};

use oe_keeper::Keeper;

/// Over a keeper that never fails, no line is refused as not kept, and the keeper goes on so.
pub fn steady_never_fails<K: Keeper>()
    ensures plain { (s t : Serving K) (line text : List ℕ) → K.IsSteady s.keeper
        → StepOver K.Tells K.IsSteady K.faults s line text t → Plain s.state line text t.state }
    ensures steady { (s t : Serving K) (line text : List ℕ) → K.IsSteady s.keeper
        → StepOver K.Tells K.IsSteady K.faults s line text t → K.IsSteady t.keeper }
{}

/// A session over a keeper that never fails goes as one that has no keeper.
pub fn steady_sessions<K: Keeper>()
    ensures answered { (s t : Serving K) (input x y : Option (List ℕ)) → K.IsSteady s.keeper
        → Answered (StepOver K.Tells K.IsSteady K.faults) s t input x y
        → Answered Plain s.state t.state input x y }
    ensures front { (s : Serving K) (input x y : Option (List ℕ)) → K.IsSteady s.keeper
        → AnsweredFront (StepOver K.Tells K.IsSteady K.faults) s input x y
        → AnsweredFront Plain s.state input x y }
    ensures read { (s t : Serving K) (input left x y : Option (List ℕ)) → K.IsSteady s.keeper
        → AnsweredRead (StepOver K.Tells K.IsSteady K.faults) s t input left x y
        → AnsweredRead Plain s.state t.state input left x y }
    ensures begun { (s : Serving K) (input x y : Option (List ℕ)) → K.IsSteady s.keeper
        → Begun (StepOver K.Tells K.IsSteady K.faults) s input x y
        → Begun Plain s.state input x y }
{}
