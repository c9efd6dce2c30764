//! Texts sent over the open connection.

ghost use Rattle.std.specs.Prelude.{IsTrue, is_err};
ghost use Rattle.tide_server.specs.Workings.Connections.{SentBy};

use http_rows::rest_from;
use tide_edge::{Door, Failed};

/// Sends all of `text` over the open connection. It doesn't allocate.
///
/// # Errors
/// [`Failed`] if a write failed. Nothing was sent after it.
pub(crate) fn send<D: Door>(door: &mut D, text: &[u8]) -> Result<(), Failed>
    requires { IsTrue (D.state door.old).listener_state.is_open }
    ensures { SentBy (is_err result) text.now (D.state door.old) (D.state door.new) }
{
    let mut at = 0;
    while at < text.len() {
        at += door.write(rest_from(text, at))?;
    }
    Ok(())
}
