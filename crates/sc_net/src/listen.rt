ghost use Rattle.std.specs.Prelude.{◌≡◌, ◌+◌, ◌-◌, ◌^◌, min, None};
ghost use Rattle.sc_net.specs.Listen.{tcp_faults};

use sc_outside::{Failed, Listen, StdSink, StdSource};
use std::io::ErrorKind;
use std::net::{TcpListener, TcpStream};
use std::time::Duration;

/// How many seconds a read or a write of a connection waits before it is a fault.
const PATIENCE_SECONDS: u64 = 30;

/// A listening TCP socket. Contracts are told nothing of its connections but how often it failed.
///
/// Each connection sends what is written at once (TCP_NODELAY), and a read or a write that waits for more than 30 seconds
/// fails, so that a silent peer doesn't hold its worker.
#[derive(Drop)]
pub struct TcpListen {
    listener: Option<TcpListener>,
    faults: u64,
}

impl TcpListen {
    /// A listener of the socket, with no fault. Takes no memory.
    pub fn new(listener: TcpListener) -> TcpListen
        ensures { tcp_faults result ≡ 0 }
    {
        TcpListen {
            listener: Some(listener),
            faults: 0,
        }
    }

    /// A listener that fails whenever it is asked. Takes no memory.
    pub fn failed() -> TcpListen
        ensures { tcp_faults result ≡ 0 }
    {
        TcpListen {
            listener: None,
            faults: 0,
        }
    }
}

/// The two directions of a connection, or none where its options can't be set, as after a peer that is gone.
fn directions(stream: TcpStream) -> Option<(StdSource<TcpStream>, StdSink<TcpStream>)> {
    let patience = Some(Duration::from_secs(PATIENCE_SECONDS));
    stream.set_nodelay(true).ok()?;
    stream.set_read_timeout(patience).ok()?;
    stream.set_write_timeout(patience).ok()?;
    let writer = stream.try_clone().ok()?;
    Some((StdSource::new(stream), StdSink::new(writer)))
}

/// The next connection of the socket. A peer that is gone before it is served is passed over.
fn next_connection(
    listener: &TcpListener,
) -> Result<(StdSource<TcpStream>, StdSink<TcpStream>), Failed> {
    for stream in listener.incoming() {
        match stream {
            Ok(stream) => {
                if let Some(connection) = directions(stream) {
                    return Ok(connection);
                }
            }
            Err(error) if error.kind() == ErrorKind::ConnectionAborted => {}
            Err(error) if error.kind() == ErrorKind::Interrupted => {}
            Err(_) => return Err(Failed),
        }
    }
    Err(Failed)
}

impl Listen for TcpListen {
    ghost use Rattle.sc_outside.specs.Causes.{HasCause, counted};
    ghost use Rattle.sc_outside.specs.Connections.{Accepts, Stays, TakesBack, IsOwed};

    type In = StdSource<TcpStream>;

    type Out = StdSink<TcpStream>;

    ghost left = { λ _. None };

    ghost handed_out = { λ _. None };

    ghost handed_back = { λ _. None };

    ghost faults = { λ l. l.faults };

    fn accept(&mut self) -> Result<Option<(StdSource<TcpStream>, StdSink<TcpStream>)>, Failed> {
        let next = match &self.listener {
            Some(listener) => next_connection(listener),
            None => Err(Failed),
        };
        match next {
            Ok(connection) => Ok(Some(connection)),
            Err(Failed) => {
                self.faults = self.faults.saturating_add(1);
                Err(Failed)
            }
        }
    }

    fn done(&mut self, _input: StdSource<TcpStream>, _output: StdSink<TcpStream>) {}

    ghost fewer_back = { λ _. tt };
}
