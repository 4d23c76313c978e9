//! A gate over TCP, and its ports.

ghost use Rattle.std.specs.Prelude.{◌≡◌, true, List, [], ◌∷◌, Option, None, IfOk, IfSome, IfNone, IsSome, OnOk, OnErr};
ghost use Rattle.oe_http.specs.Causes.{HasCause};
ghost use Rattle.oe_http.specs.declared.session.Ended.{Ended};
ghost use Rattle.link_gates.specs.Ports.{ahead};
ghost use Rattle.link_gates.specs.declared.tcp_link.TcpLink.{TcpLink};

use crate::address::loopback_address;
use crate::{Gate, GateErr, Port, TcpLink};
use oe_http::{Ended, Failed};
use std::alloc::Global;
use std::net::{Net, SocketAddr, TcpListener, TcpStream};
use std::time::{Clock, Duration};
use std::{io, thread};

/// The tries in a row after which a port fails.
const ACCEPT_TRIES: u64 = 10_000;

/// The pause after a try that failed, in milliseconds.
const PAUSE: u64 = 10;

/// Hands out the connections that come to a listener, which other ports may share. It counts the tries that failed.
#[derive(Drop)]
pub struct TcpPort<'a, R: Clock> {
    clock: &'a R,
    listener: TcpListener,
    is_out: bool,
    faults: u64,
}

/// Takes the next connection.
fn accept(listener: &TcpListener) -> io::Result<TcpLink> {
    let (stream, _) = listener.accept()?;
    TcpLink::new(stream)
}

/// Takes the next connection. A peer that is gone again, or want of descriptors, ends no worker: each is counted, and
/// tried again after a pause.
fn wait_for_link<R: Clock>(
    clock: &R,
    listener: &TcpListener,
    faults: &mut u64,
) -> Result<TcpLink, Failed>
    ensures cause { HasCause faults.old faults.new result }
{
    for _ in 0..ACCEPT_TRIES {
        match accept(listener) {
            Ok(link) => return Ok(link),
            Err(_) => {
                *faults = faults.saturating_add(1);
                thread::sleep(clock, Duration::from_millis(PAUSE));
            }
        }
    }
    Err(Failed)
}

impl<'a, R: Clock> Port for TcpPort<'a, R> {
    type Link = TcpLink;

    ghost links = { λ p. None };

    ghost given = { λ p. None };

    ghost out = { λ p. p.is_out };

    ghost faults = { λ p. p.faults };

    ghost IsSteady = { λ p. ⊥ };

    fn next(&mut self) -> Result<Option<TcpLink>, Failed>
        ensures first { IfOk result (λ o. IfSome o (λ link. (None ≡ ahead (link ∷ []) None)
            × (self.new.is_out ≡ true))) }
        ensures none { IfOk result (λ o. IfNone o (Unit {0} × (◌≡◌ {A = Option (List TcpLink)} None None)
            × (self.new.is_out ≡ self.old.is_out))) }
        ensures failed { OnErr result ((◌≡◌ {A = Option (List TcpLink)} None None)
            × (self.new.is_out ≡ self.old.is_out)) }
        ensures given { ◌≡◌ {A = Option (List (TcpLink × Ended))} None None }
        ensures cause { HasCause self.old.faults self.new.faults result }
        ensures steady { ⊥ → ⊥ }
        ensures unfailing { ⊥ → OnErr result ⊥ }

        // There is always one more to wait for.
        ensures some { IfOk result IsSome }
    {
        let link = wait_for_link(self.clock, &self.listener, &mut self.faults)?;
        self.is_out = true;
        Ok(Some(link))
    }

    fn done(&mut self, _link: TcpLink, _ended: Ended) {
        self.is_out = false;
    }
}

/// Listens at an address on loopback, once it is told one, and makes ports that share its listener. It counts the
/// calls that failed.
#[derive(Drop)]
pub struct TcpGate<'a, R: Net<Listener = TcpListener, Stream = TcpStream> + Clock> {
    runtime: &'a R,
    listener: Option<TcpListener>,
    faults: u64,
}

impl<'a, R: Net<Listener = TcpListener, Stream = TcpStream> + Clock> TcpGate<'a, R> {
    /// A gate that does not listen yet.
    pub fn new(runtime: &'a R) -> TcpGate<'a, R>
        ensures faults { result.faults ≡ 0 }
    {
        TcpGate {
            runtime,
            listener: None,
            faults: 0,
        }
    }

    /// The address at which it listens, once it does. Where it was told port 0, the system chose the port.
    pub fn address(&self) -> Option<SocketAddr> {
        self.listener.as_ref()?.local_addr().ok()
    }

    /// The listener again, for a port of its own.
    fn share(&self) -> Option<TcpListener> {
        self.listener.as_ref()?.try_clone().ok()
    }
}

impl<'a, R: Net<Listener = TcpListener, Stream = TcpStream> + Clock + Sync> Gate
    for TcpGate<'a, R> {
    type Port = TcpPort<'a, R>;

    ghost use Rattle.link_gates.specs.Loopback.{IsLoopbackText};

    ghost lists = { λ g. None };

    ghost faults = { λ g. g.faults };

    ghost IsSteady = { λ g. ⊥ };

    fn listen(&mut self, address: &str) -> Result<(), Failed>
        ensures lists { ◌≡◌ {A = Option (List (List TcpLink))} None None }
        ensures cause { HasCause self.old.faults self.new.faults result }
        ensures steady { ⊥ → ⊥ }
        ensures unfailing { ⊥ → OnErr result ⊥ }

        // It is never open to a network: any other address is a fault.
        ensures loopback { OnOk result (IsLoopbackText address.now) }
    {
        let Some(address) = loopback_address(address) else {
            self.faults = self.faults.saturating_add(1);
            return Err(Failed);
        };
        match TcpListener::bind(self.runtime, address) {
            Ok(listener) => {
                self.listener = Some(listener);
                Ok(())
            }
            Err(_) => {
                self.faults = self.faults.saturating_add(1);
                Err(Failed)
            }
        }
    }

    fn port(&mut self, _alloc: Global) -> Result<TcpPort<'a, R>, GateErr> {
        match self.share() {
            Some(listener) => Ok(TcpPort {
                clock: self.runtime,
                listener,
                is_out: false,
                faults: 0,
            }),
            None => {
                self.faults = self.faults.saturating_add(1);
                Err(GateErr::Failed)
            }
        }
    }
}
