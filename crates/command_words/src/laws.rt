//! A lemma on the words of a command; never run.

ghost use Rattle.std.specs.Prelude.{◌≡◌, List, ℕ, Option};
ghost use Rattle.command_words.specs.Commands.{AskFor, AsksToServe, IsGenerate};
ghost use Rattle.command_words.specs.declared.commands.Service.{Service};

/// Words are one command at most: no two services, paths, addresses or numbers, and not a service and workers, a service and draws, or
/// workers and draws.
pub fn one_command()
    ensures service { (words : List (List ℕ)) (s t : Service) (p q : Option (List ℕ)) →
        AskFor s words p → AskFor t words q → (s ≡ t) × (p ≡ q) }
    ensures serve { (words : List (List ℕ)) (a b : List ℕ) (n i m j : ℕ) (p q : Option (List ℕ)) →
        AsksToServe words a n m p → AsksToServe words b i j q → (a ≡ b) × (n ≡ i) × (m ≡ j) × (p ≡ q) }
    ensures generate { (words : List (List ℕ)) (s c seed count : ℕ) →
        IsGenerate words s c → IsGenerate words seed count → (s ≡ seed) × (c ≡ count) }
    ensures service_or_serve { (s : Service) (words : List (List ℕ)) (p : Option (List ℕ)) (a : List ℕ) (n m : ℕ) (q : Option (List ℕ)) →
        AskFor s words p → AsksToServe words a n m q → ⊥ }
    ensures service_or_generate { (s : Service) (words : List (List ℕ)) (p : Option (List ℕ)) (seed count : ℕ) →
        AskFor s words p → IsGenerate words seed count → ⊥ }
    ensures serve_or_generate { (words : List (List ℕ)) (a : List ℕ) (n m : ℕ) (p : Option (List ℕ)) (seed count : ℕ) →
        AsksToServe words a n m p → IsGenerate words seed count → ⊥ }
{}
