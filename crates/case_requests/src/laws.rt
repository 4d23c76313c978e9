//! Laws of acts.

ghost use Rattle.std.specs.Prelude.{◌≡◌, ◌↔◌, true};
ghost use Rattle.case_requests.specs.contracts.act.ActPartialEq.TheImpl as act;
ghost use Rattle.case_requests.specs.declared.act.Act.{Act};

/// Two acts are one exactly where `==` says so.
pub fn same_act()
    ensures { (a b : Act) → (act.ghosts.eq a b ≡ true) ↔ (a ≡ b) }
{}
