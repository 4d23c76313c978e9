//! Ports that hand out links, gates that make ports, over memory and over TCP on loopback alone, a worker that serves the links of one port, and
//! workers in threads of their own.
#![tactic(auto)]

mod address;
mod fake_gate;
mod open;
mod port;
mod shift;
mod tcp_gate;
mod tcp_link;
mod work;

pub use fake_gate::{FakeGate, FakePort};
pub use open::open_ports;
pub use port::{Gate, GateErr, Port};
pub use shift::{Shift, TURN_LIMIT, work_all};
pub use tcp_gate::{TcpGate, TcpPort};
pub use tcp_link::TcpLink;
pub use work::{Worked, worker};
