//! Addresses on loopback.

ghost use Rattle.std.specs.Prelude.{IfSome, IfNone};
ghost use Rattle.link_gates.specs.Loopback.{IsLoopbackText, Spells};

use std::net::SocketAddr;

/// The address on loopback that a text spells. No name is looked up.
#[tactic(auto, using(std::proofs::NetLemmas::Theorems::IsSocketText_unique))]
pub(crate) fn loopback_address(text: &str) -> Option<SocketAddr>
    ensures some { IfSome result (λ address. Spells text.now address) }
    ensures none { IfNone result (IsLoopbackText text.now → ⊥) }
{
    let Ok(address) = text.parse::<SocketAddr>() else {
        return None;
    };
    if address.ip().is_loopback() {
        return Some(address);
    }
    None
}
