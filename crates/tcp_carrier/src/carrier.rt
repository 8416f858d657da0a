// The carrier over a connection to its own listener.
ghost use Rattle.std.specs.Prelude.{◌≡◌, true, false};

use crate::connection::{Connection, drain};
use carriers::{Carried, Carrier, LabError, Peer};
use std::alloc::Global;
use std::net::{Net, TcpListener, TcpStream};
use std::{io, mem};

// No connection was made yet, one is open, or the last one broke.
#[derive(Drop)]
enum ConnectionState {
    NotMade,
    Open(Connection),
    Broken,
}

/// Carries bytes over one TCP connection to its own listener. What does not come back as it was
/// sent is lost, and the next call makes a new connection.
#[derive(Drop)]
pub struct TcpCarrier<R> {
    rt: R,
    listener: TcpListener,
    state: ConnectionState,
}

impl<R: Net<Listener = TcpListener, Stream = TcpStream>> TcpCarrier<R> {
    /// A carrier that connects to this listener, which nobody else should use. The first call of
    /// `carry` makes the connection.
    pub fn new(rt: R, listener: TcpListener) -> TcpCarrier<R>
        ensures listener { result.listener ≡ listener }
        ensures state { result.state ≡ ConnectionState.NotMade }
    {
        TcpCarrier {
            rt,
            listener,
            state: ConnectionState::NotMade,
        }
    }

    // The open connection, or a new one. Until it is put back, it counts as broken.
    fn ready_connection(&mut self) -> io::Result<Connection>
        ensures { self.new.state ≡ ConnectionState.Broken }
    {
        match mem::replace(&mut self.state, ConnectionState::Broken) {
            ConnectionState::Open(connection) => return Ok(connection),
            ConnectionState::NotMade => (),
            ConnectionState::Broken => drain(&self.listener)?,
        }
        Connection::new(&self.rt, &self.listener)
    }

    // Passes the bytes through the connection. It stays open only where they came back the same.
    fn pass(&mut self, bytes: &[u8], got: &mut [u8]) -> bool
        ensures same { result ≡ true → got.new ≡ bytes.now }
        ensures open { result ≡ true →
            (it : Connection) × (self.new.state ≡ ConnectionState.Open it) }
        ensures closed { result ≡ false → self.new.state ≡ ConnectionState.Broken }
    {
        let Ok(mut connection) = self.ready_connection() else {
            return false;
        };
        if connection.pass(bytes, got).is_err() || *got != *bytes {
            return false;
        }
        self.state = ConnectionState::Open(connection);
        true
    }
}

impl<R: Net<Listener = TcpListener, Stream = TcpStream>> Carrier for TcpCarrier<R> {
    ghost is_faithful = { λ _. Unit {0} };

    ghost loses = { Unit {0} };

    ghost has_carried = { λ _ _. Unit {0} };

    fn carry(
        &mut self,
        alloc: Global,
        _from: Peer,
        _to: Peer,
        bytes: &[u8],
    ) -> Result<Carried, LabError> {
        // Before anything is sent, so that a refusal for memory changes nothing.
        let mut got = vec![in alloc; 0u8; bytes.len()]?;
        if self.pass(bytes, &mut got) {
            return Ok(Carried::Bytes(got));
        }
        Ok(Carried::Lost)
    }
}
