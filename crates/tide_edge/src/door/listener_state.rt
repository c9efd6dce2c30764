//! The part of a door's state that contracts know for every door.

ghost use Rattle.std.specs.Prelude.{◌≡◌, Ok, true, false};

use crate::count::one_more;
use std::marker::Model;

/// The port passed to `listen`, whether the door listens, the number of connections accepted (which
/// saturates at the greatest `u64`), whether one is open, and whether `next` has returned false.
#[derive(Drop)]
pub(crate) struct ListenerState {
    port: Option<u16>,
    listens: bool,
    accepted: u64,
    is_open: bool,
    is_over: bool,
}

impl Model for ListenerState {
    ghost use Rattle.tide_edge.specs.Doors as spec;

    ghost Value = { spec.ListenerState };

    ghost view = { λ d. record {
      port = d.port;
      listens = d.listens;
      accepted = d.accepted;
      is_open = d.is_open;
      is_over = d.is_over;
    } };
}

impl ListenerState {
    ghost use Rattle.tide_edge.specs.Doors.{not_listening, listen_requested, after_next, closed};

    /// Returns the state before `listen` is called.
    pub(crate) fn not_listening() -> ListenerState
        ensures { result ≡ not_listening }
    {
        ListenerState {
            port: None,
            listens: false,
            accepted: 0,
            is_open: false,
            is_over: false,
        }
    }

    /// Returns the state after a call of `listen` with `port`; `listens` is true if the call succeeded.
    pub(crate) fn listen_requested(port: u16, listens: bool) -> ListenerState
        ensures { result ≡ listen_requested port listens }
    {
        ListenerState {
            port: Some(port),
            listens,
            accepted: 0,
            is_open: false,
            is_over: false,
        }
    }

    /// Records that another connection was accepted: it is counted, and it is open.
    pub(crate) fn open(&mut self)
        ensures { self.new ≡ after_next (Ok true) self.old }
    {
        self.accepted = one_more(self.accepted);
        self.is_open = true;
    }

    /// Records that `next` has returned false: there are no more connections.
    pub(crate) fn end(&mut self)
        ensures { self.new ≡ after_next (Ok false) self.old }
    {
        self.is_over = true;
    }

    /// Records that the open connection was closed.
    pub(crate) fn close(&mut self)
        ensures { self.new ≡ closed self.old }
    {
        self.is_open = false;
    }
}
