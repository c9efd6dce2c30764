//! The connections of a server, one after the other.

ghost use Rattle.std.specs.Prelude.{◌≡◌, false, true, IsTrue};
ghost use Rattle.tide_edge.specs.Doors.{listen_requested};
ghost use Rattle.tide_server.specs.Serving.{exchange};
ghost use Rattle.tide_server.specs.Workings.Steps.{Serves, StepBy};

use crate::connection::serve_connection;
use crate::outage::Outage;
use crate::request::Request;
use crate::served_data::ValidServedData;
use std::alloc::Global;
use tide_edge::{Clock, Door};

/// Serves one connection after the other, until there are no more or 2^64 - 1 of them were served.
///
/// # Errors
/// [`Outage`] if the port or the clock failed.
pub(crate) fn serve_all<D: Door, K: Clock>(
    alloc: Global,
    served_data: &ValidServedData,
    request: &mut Request,
    door: &mut D,
    clock: &mut K,
) -> Result<(), Outage>
    requires listens { (D.state door.old).listener_state ≡ listen_requested served_data.now.port true }
    ensures serves { Serves served_data.now result
        (exchange (D.state door.old) (K.state clock.old)) (exchange (D.state door.new) (K.state clock.new)) }
    ensures clock_unread { (D.state door.new).listener_state.accepted ≡ 0 → clock.new ≡ clock.old }
{
    for _accepted in 0..u64::MAX {
        if !serve_next(alloc, served_data, request, door, clock)? {
            return Ok(());
        }
    }
    Ok(())
}

/// Serves the next connection, and returns true if there was one.
fn serve_next<D: Door, K: Clock>(
    alloc: Global,
    served_data: &ValidServedData,
    request: &mut Request,
    door: &mut D,
    clock: &mut K,
) -> Result<bool, Outage>
    requires listens { IsTrue (D.state door.old).listener_state.listens }
    requires none_open { (D.state door.old).listener_state.is_open ≡ false }
    ensures steps { StepBy result served_data.now
        (exchange (D.state door.old) (K.state clock.old)) (exchange (D.state door.new) (K.state clock.new)) }
    ensures clock_unread { (D.state door.new).listener_state.accepted ≡ 0 → clock.new ≡ clock.old }
{
    match door.next() {
        Ok(comes) => {
            if !comes {
                return Ok(false);
            }
            match serve_connection(alloc, served_data, request, door, clock) {
                Ok(()) => Ok(true),
                Err(_) => Err(Outage::Clock),
            }
        }
        Err(_) => Err(Outage::Door),
    }
}
