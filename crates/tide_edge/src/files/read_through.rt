//! Reading a file of the machine once.

ghost use Rattle.std.specs.Prelude.{◌≡◌, ◌<◌, ◌≤◌, length, None, is_none, IsTrue, IfOk};
ghost use Rattle.std.specs.Io.KnownBytes.{ReadConsumes};
ghost use Rattle.tide_edge.specs.Adapters.{left_of};

use crate::failed::Failed;
use std::io::Read;

/// Reads the next bytes of the open file into the first bytes of `buffer`, and returns their count:
/// 0 at the end of the file, which is then closed, and if no file is open.
///
/// # Errors
/// [`Failed`] if the file can't be read.
pub(crate) fn read_through<F: Read + Drop>(
    opened: &mut Option<F>,
    buffer: &mut [u8],
) -> Result<usize, Failed>
    requires { 0 < length buffer.old }
    ensures within { IfOk result (λ count. count ≤ length buffer.old) }
    ensures closed { IfOk result (λ count. count ≡ 0 → opened.new ≡ None) }
    ensures none_open { IsTrue (is_none opened.old) → IsTrue (is_none opened.new) × IfOk result (λ count. count ≡ 0) }
    ensures through { ReadConsumes (left_of F.remaining opened.old) (left_of F.remaining opened.new) result buffer.new }
{
    let Some(file) = opened else {
        return Ok(0);
    };
    let count = match file.read(buffer) {
        Ok(count) => count,
        Err(_) => return Err(Failed),
    };
    if count == 0 {
        *opened = None;
    }
    Ok(count)
}
