//! Connections over TCP: the edge of the project. What they really do is trusted and not proved.
#![tactic(auto)]

mod tcp_door;
mod tcp_link;

pub use tcp_door::TcpDoor;
pub use tcp_link::TcpLink;
pub use wk_door::Door;
pub use wk_link::Link;
