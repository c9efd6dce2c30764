//! A call on files in memory.

ghost use Rattle.std.specs.Prelude.{◌≡◌, [], ◌∷◌, ◌++◌};
ghost use Rattle.tide_edge.specs.Memory.{Open, Read};

use decimal_text::Text;
use ghost_log::Log;
use std::marker::Model;
use std::slice;

/// A call on files in memory: `open` of the file `name` if `opens` is true, else `read` with a
/// buffer of `more + 1` bytes (a buffer isn't empty).
#[derive(Drop)]
pub(crate) struct OneFileCall {
    opens: bool,
    name: Log<u8>,
    more: usize,
}

impl Model for OneFileCall {
    ghost use Rattle.std.specs.Prelude.{if◌then◌else◌};
    ghost use Rattle.tide_edge.specs.Memory.{FileCall, Open, Read};

    ghost Value = { FileCall };

    ghost view = { λ c. if c.opens then Open c.name.items else Read c.more };
}

/// Returns the calls of `history` followed by a call of `open` for the file `name`.
pub(crate) fn then_open(history: &Log<OneFileCall>, name: &Text) -> Log<OneFileCall>
    ensures { result.items ≡ history.now.items ++ Open name.now ∷ [] }
{
    let call = OneFileCall {
        opens: true,
        name: Log::new().then(name.as_str().as_bytes()),
        more: 0,
    };
    history.then(slice::from_ref(&call))
}

/// Returns the calls of `history` followed by a call of `read` with a buffer of `more + 1` bytes.
pub(crate) fn then_read(history: &Log<OneFileCall>, more: usize) -> Log<OneFileCall>
    ensures { result.items ≡ history.now.items ++ Read more ∷ [] }
{
    let call = OneFileCall {
        opens: false,
        name: Log::new(),
        more,
    };
    history.then(slice::from_ref(&call))
}
