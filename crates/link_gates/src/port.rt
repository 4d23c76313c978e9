//! The traits of what hands out links, and of what makes it.

ghost use Rattle.std.specs.Prelude.{◌≡◌, ◌≤◌, Bool, true, false, List, ℕ, [], ◌∷◌, Option, IfOk, IfSome, IfNone, OnErr, IsErrOf};
ghost use Rattle.oe_http.specs.Causes.{Rose, HasCause};
ghost use Rattle.oe_http.specs.declared.session.Ended.{Ended};
ghost use Rattle.link_gates.specs.Ports.{ahead, behind, NoneLeft, TakesList};

use oe_http::{Ended, Failed, TwoWay};
use std::alloc::Global;

/// Hands out links, one after another, and takes each back with how its session ended.
pub trait Port {
    type Link: TwoWay;

    /// The links that are left, where it tells.
    ghost links: { Self → Option (List Self.Link) };

    /// The links that were given back, each with how its session ended, where it tells.
    ghost given: { Self → Option (List (Self.Link × Ended)) };

    /// Whether a link is out.
    ghost out: { Self → Bool };

    /// The number of its faults. Its own calls alone raise it.
    ghost faults: { Self → ℕ };

    /// No call of it fails, now or later.
    ghost IsSteady: { Self → Type 0 };

    /// Hands out the first of the links that are left, which is then out. `None` only where no told link is left.
    ///
    /// # Errors
    ///
    /// `Failed` where no link could be had. The fault is then counted, and all else is as it was.
    fn next(&mut self) -> Result<Option<Self::Link>, Failed>
        ensures first { IfOk result (λ o. IfSome o (λ link.
            (links self.old ≡ ahead (link ∷ []) (links self.new)) × (out self.new ≡ true))) }
        ensures none { IfOk result (λ o. IfNone o (NoneLeft (links self.old)
            × (links self.new ≡ links self.old) × (out self.new ≡ out self.old))) }
        ensures failed { OnErr result ((links self.new ≡ links self.old)
            × (out self.new ≡ out self.old)) }
        ensures given { given self.new ≡ given self.old }
        ensures cause { HasCause (faults self.old) (faults self.new) result }
        ensures steady { IsSteady self.old → IsSteady self.new }
        ensures unfailing { IsSteady self.old → OnErr result ⊥ };

    /// Takes a link back, as it then is, with how its session ended. It allocates nothing.
    fn done(&mut self, link: Self::Link, ended: Ended)
        requires out { out self.old ≡ true }
        ensures out { out self.new ≡ false }
        ensures given { given self.new ≡ behind (given self.old) ((link, ended) ∷ []) }
        ensures links { links self.new ≡ links self.old }
        ensures faults { faults self.new ≡ faults self.old }
        ensures steady { IsSteady self.old → IsSteady self.new };
}

/// Why a gate made no port.
#[derive(Clone, Copy, Debug, PartialEq, Eq)]
pub enum GateErr {
    /// It failed, and counted the fault.
    Failed,
    /// Memory was refused.
    NoMemory,
}

/// Makes ports.
pub trait Gate {
    type Port: Port<Link: Send> + Send + Drop;

    /// The lists of links, one for each port to come, where it tells.
    ghost lists: { Self → Option (List (List Self.Port.Link)) };

    /// The number of its faults. Its own calls alone raise it.
    ghost faults: { Self → ℕ };

    /// No call of it or of its ports fails, now or later.
    ghost IsSteady: { Self → Type 0 };

    /// Waits for links at an address from here on.
    ///
    /// # Errors
    ///
    /// `Failed` where it can't. The fault is then counted.
    fn listen(&mut self, address: &str) -> Result<(), Failed>
        ensures lists { lists self.new ≡ lists self.old }
        ensures cause { HasCause (faults self.old) (faults self.new) result }
        ensures steady { IsSteady self.old → IsSteady self.new }
        ensures unfailing { IsSteady self.old → OnErr result ⊥ };

    /// A port with the first list of links, or with no links where there is no list.
    ///
    /// # Errors
    ///
    /// `Failed` where it can't. The fault is then counted. `NoMemory` where memory was refused.
    fn port(&mut self, alloc: Global) -> Result<Self::Port, GateErr>
        ensures list { IfOk result (λ port. TakesList (lists self.old) (lists self.new)
            (Self.Port.links port)) }
        ensures fresh { IfOk result (λ port. (Self.Port.out port ≡ false)
            × NoneLeft (Self.Port.given port)) }
        ensures kept { OnErr result (lists self.new ≡ lists self.old) }
        ensures later { faults self.old ≤ faults self.new }
        ensures cause { IsErrOf result GateErr.Failed → Rose (faults self.old) (faults self.new) }
        ensures steady { IsSteady self.old → IsSteady self.new }
        ensures steady_port { IsSteady self.old → IfOk result (λ port. Self.Port.IsSteady port) }
        ensures unfailing { IsSteady self.old → IsErrOf result GateErr.Failed → ⊥ };
}
