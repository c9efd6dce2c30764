//! Examples of the definitions that contracts cite.

ghost use Rattle.std.specs.Prelude.{◌≡◌, true, [], ◌∷◌, Some, None, codes};
ghost use Rattle.http_rows.specs.Heads.{head_length, head_of};
ghost use Rattle.http_rows.specs.Paths.{path_named};
ghost use Rattle.http_rows.specs.Responses.{rejection_of};
ghost use Rattle.http_rows.specs.Rows.{path_of, query_of, length_in, field_rows, first_row};
ghost use Rattle.http_rows.specs.declared.limits.TheConstants.{MOST_BODY, MOST_DIGITS, MOST_FIELDS, MOST_HEAD, MOST_LINES};

use crate::path::Path;
use crate::request_rejection::RequestRejection;

/// Proves examples of parsing a request. A head ends with the first empty line (LF or CR LF), which
/// counts in its length of 14 or 3 bytes; without an empty line it has no length. The path of a target
/// ends before the first `?`, and the query follows it. A head with two Content-Lengths or with a
/// Transfer-Encoding gives no length of the body. A path is compared with its case, so `/Clock` isn't
/// one.
#[tactic(auto, unfolding(crate::specs::Heads::empty_line, crate::specs::Heads::head_length))]
pub fn sample_requests()
    ensures ended { head_length (codes "G / H\r\nA:b\r\n\r\nxy") ≡ Some 14 }
    ensures bare { head_length (codes "G\n\nxy") ≡ Some 3 }
    ensures unended { head_length (codes "G\r\n\r") ≡ None }
    ensures path { path_of (codes "/predict?a=b?c") ≡ codes "/predict" }
    ensures query { query_of (codes "/predict?a=b?c") ≡ codes "a=b?c" }
    ensures no_query { query_of (codes "/stations") ≡ [] }
    ensures two_lengths { length_in (head_of (codes "POST") (codes "/check") 0
        ((codes "content-length", codes "5") ∷ (codes "Content-Length", codes "5") ∷ [])) ≡ None }
    ensures coded { length_in (head_of (codes "POST") (codes "/check") 0
        ((codes "content-length", codes "5") ∷ (codes "Transfer-Encoding", codes "chunked") ∷ [])) ≡ None }
    ensures known { path_named (codes "/clock") ≡ Some Path.Clock }
    ensures unknown { path_named (codes "/Clock") ≡ None }
{}

/// Proves examples of the first rejection that applies to a head, or `None` (`head_of` takes a method, a
/// target, the minor version of HTTP and fields). HTTP/1.1 without a Host is a bad request, even if the
/// path is unknown; an unknown path precedes a wrong method; a POST without a Content-Length requires
/// one, even if it has a Transfer-Encoding; two Content-Lengths are a bad request. Also proves the bytes
/// of a reply to HEAD (so without a body) at a path that requires POST.
pub fn worked_replies()
    ensures host_first { first_row (field_rows (head_of (codes "PUT") (codes "/tides") 1 [])) ≡ Some RequestRejection.BadRequest }
    ensures path_before_method { first_row (field_rows (head_of (codes "PUT") (codes "/tides") 0 [])) ≡ Some RequestRejection.NotFound }
    ensures no_length { first_row (field_rows (head_of (codes "POST") (codes "/check") 0
        ((codes "Transfer-Encoding", codes "chunked") ∷ []))) ≡ Some RequestRejection.LengthRequired }
    ensures two_lengths { first_row (field_rows (head_of (codes "POST") (codes "/check") 0
        ((codes "content-length", codes "5") ∷ (codes "Content-Length", codes "5") ∷ []))) ≡ Some RequestRejection.BadRequest }
    ensures asks { first_row (field_rows (head_of (codes "HEAD") (codes "/clock?station=Pier") 1
        ((codes "HOST", codes "a") ∷ []))) ≡ None }
    ensures left_out { rejection_of RequestRejection.RequiresPost true
        ≡ codes "HTTP/1.1 405 Method Not Allowed\r\nContent-Type: text/plain; charset=utf-8\r\nContent-Length: 19\r\nAllow: POST\r\nConnection: close\r\n\r\n" }
{}

/// Proves the values of the limits on requests: the greatest numbers of bytes, lines and fields of a
/// head, of digits of a Content-Length, and of bytes of a body.
pub fn worked_limits()
    ensures head { MOST_HEAD ≡ 8192 }
    ensures lines { MOST_LINES ≡ 66 }
    ensures fields { MOST_FIELDS ≡ 64 }
    ensures digits { MOST_DIGITS ≡ 18 }
    ensures body { MOST_BODY ≡ 4194304 }
{}
