//! Replies that follow from only a request's bytes.

ghost use Rattle.std.specs.Prelude.{◌≡◌, [], is_some, unwrap_or};
ghost use Rattle.http_rows.specs.Responses.{fixed_of, unavailable_of};
ghost use Rattle.http_rows.specs.Rows.{is_settled, IsRow};
ghost use Rattle.http_rows.specs.Rows as rows;

use crate::reply_row::{ReplyRow, row_for};
use crate::responses::{write_rejection, write_unavailable};
use arrayvec::ArrayString;

/// Returns true if `request`, the bytes of a request received so far, determines the reply: further bytes
/// can't change which row of the table of HTTP statuses applies. The call doesn't allocate.
///
/// The program doesn't call this function: it calls [`row_for`] once, and uses the row.
pub fn enough(request: &[u8]) -> bool
    ensures { (row : rows.ReplyRow) × IsRow request.now row × (result ≡ is_settled row) }
{
    row_for(request).is_settled()
}

/// Returns true and writes the reply to the empty `out` if `request`, the bytes of a whole request, is
/// rejected. Returns false and writes nothing if the predictor of tides answers `request`. The call
/// doesn't allocate.
///
/// The program doesn't call this function: it calls [`row_for`] once, and uses the row.
pub fn fixed_reply(request: &[u8], out: &mut ArrayString<256>) -> bool
    requires { out.old.bytes ≡ [] }
    ensures { (row : rows.ReplyRow) × IsRow request.now row
        × (result ≡ is_some (fixed_of row)) × (out.new.bytes ≡ unwrap_or (fixed_of row) []) }
{
    match row_for(request) {
        ReplyRow::Rejects(rejection, is_head_request) => {
            write_rejection(rejection, is_head_request, out);
            true
        }
        ReplyRow::Asks(_) => false,
    }
}

/// Writes to the empty `out` the reply to `request` with status 503 (Service Unavailable), which replaces
/// any other reply if memory runs out. The reply has no body if the method is HEAD. The call doesn't
/// allocate.
///
/// The program doesn't call this function: it calls [`row_for`] once, and uses the row.
pub fn unavailable_reply(request: &[u8], out: &mut ArrayString<256>)
    requires { out.old.bytes ≡ [] }
    ensures { (row : rows.ReplyRow) × IsRow request.now row × (out.new.bytes ≡ unavailable_of row) }
{
    write_unavailable(row_for(request).is_bodiless(), out);
}
