//! TCP listeners as listeners of the outside: the trusted edge of the server.
#![tactic(auto)]

mod listen;

pub use listen::TcpListen;
