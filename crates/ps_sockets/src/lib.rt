//! Doors, porches and links over sockets, and the system's clock: logic over small traits of calls, and these over the
//! standard library. Each wait of a socket has an end.
#![tactic(auto)]

pub mod connector;
pub mod cooldown;
pub mod deadline;
pub mod exchange;
pub mod head;
pub mod listener;
pub mod pace;
pub mod socket;
pub mod socket_door;
pub mod socket_link;
pub mod socket_porch;
pub mod system_clock;
pub mod timed_stream;
pub mod waiting_room;
pub mod waits;
