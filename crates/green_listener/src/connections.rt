//! The connections that come to a listener.
ghost use Rattle.std.specs.Prelude.{◌≡◌};

use session_pool::Accept;
use std::alloc::Global;
use std::net::{TcpListener, TcpStream};
use std::sync::Wait;

// After how many refusals in a row no more connections are waited for.
const MOST_REFUSALS: u32 = 1000;

/// Accepts connections, up to a number of them. It ends sooner where none can be accepted any more.
#[derive(Drop)]
pub(crate) struct Connections {
    listener: TcpListener,
    most: u64,
    given: u64,
    ended: bool,
}

impl Connections {
    /// The connections to this listener, up to so many. With no number it is the greatest of 64 bits, which no server comes to.
    pub(crate) fn new(listener: TcpListener, sessions: Option<u32>) -> Connections
        ensures { result.given ≡ 0 }
    {
        let most = match sessions {
            Some(sessions) => u64::from(sessions),
            None => u64::MAX,
        };
        Connections {
            listener,
            most,
            given: 0,
            ended: false,
        }
    }
}

// The next connection, where one can be accepted in so many tries.
fn next_connection(listener: &TcpListener) -> Option<TcpStream> {
    for _ in 0..MOST_REFUSALS {
        if let Ok((stream, _)) = listener.accept() {
            return Some(stream);
        }
    }
    None
}

impl Accept<TcpStream> for Connections {
    ghost given_count = { λ connections. connections.given };

    ghost has_ended = { λ connections. connections.ended };

    fn given(&self) -> u64 {
        self.given
    }

    fn ended(&self) -> bool {
        self.ended
    }

    fn accept<R: Wait>(&mut self, _rt: &R, _alloc: Global) -> Option<TcpStream> {
        if self.given >= self.most {
            self.ended = true;
            return None;
        }
        let Some(connection) = next_connection(&self.listener) else {
            self.ended = true;
            return None;
        };
        self.given += 1;
        Some(connection)
    }
}
