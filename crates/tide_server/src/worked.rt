//! Queries and replies worked out by hand.

ghost use Rattle.std.specs.Prelude.{◌≡◌, ℤ, true, false, List, [], ◌∷◌, Some, codes};
ghost use Rattle.harmonics_book.specs.declared.book.Book.{Book};
ghost use Rattle.station_table.specs.declared.offsets.Offsets.{Offsets};
ghost use Rattle.tide_server.specs.Queries.{items_of, decoded_text};
ghost use Rattle.tide_server.specs.Replies.{reply_of};
ghost use Rattle.http_rows.specs.Rows.{asks};

/// Proves examples of decoding the query of a URL: its pairs of keys and values, where an empty
/// pair is ignored and a key without `=` has an empty value (`items`); and a byte that isn't UTF-8,
/// which becomes U+FFFD (`no_text`).
pub fn worked_queries()
    ensures items { items_of (codes "station=Pier+test&&zone=%2B05:30&mark") ≡
        record { key = codes "station"; value = Some (codes "Pier test") }
        ∷ record { key = codes "zone"; value = Some (codes "+05:30") }
        ∷ record { key = codes "mark"; value = Some [] }
        ∷ [] }
    ensures no_text { decoded_text (codes "%FFa") ≡ 239 ∷ 191 ∷ 189 ∷ 97 ∷ [] }
{}

/// Proves examples of replies with HTTP status 400, to web queries that lack an argument: one to GET,
/// and one to HEAD, which has no body.
pub fn worked_answers()
    ensures none_asked { (book : Book) (table : List Offsets) (minute : ℤ)
        → reply_of book table minute (asks record { path = codes "/clock"; query = codes "zone=UTC"; body = []; is_head_request = false })
        ≡ codes "HTTP/1.1 400 Bad Request\r\nContent-Type: text/plain; charset=utf-8\r\nContent-Length: 26\r\nConnection: close\r\n\r\nwords: station is missing\n" }
    ensures head_alone { (book : Book) (table : List Offsets) (minute : ℤ)
        → reply_of book table minute (asks record { path = codes "/stations"; query = codes "offsets=o"; body = []; is_head_request = true })
        ≡ codes "HTTP/1.1 400 Bad Request\r\nContent-Type: text/plain; charset=utf-8\r\nContent-Length: 33\r\nConnection: close\r\n\r\n" }
{}
