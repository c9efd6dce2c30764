//! Laws of requests and of their replies.

ghost use Rattle.std.specs.Prelude.{◌≡◌, ℕ, ℤ, ◌≤◌, false, List, ◌++◌, length, Option, Some, None, Ok, IsTrue};
ghost use Rattle.harmonics_book.specs.declared.book.Book.{Book};
ghost use Rattle.named_files.specs.RunFaults.{is_read_fault};
ghost use Rattle.question.specs.Questions.{question_of};
ghost use Rattle.question.specs.declared.origin.Origin.{Origin};
ghost use Rattle.question.specs.declared.pairs.Item.{Item};
ghost use Rattle.question.specs.declared.question.Question.{Question};
ghost use Rattle.station_table.specs.declared.offsets.Offsets.{Offsets};
ghost use Rattle.tide_server.specs.declared.limits.TheConstants.{LONGEST};
ghost use Rattle.tide_edge.specs.Memory.{folder_of};
ghost use Rattle.tide_fault.specs.declared.status.Status.{Status};
ghost use Rattle.tide_server.specs.declared.served_data.ServedData.{ServedData};
ghost use Rattle.tide_server.specs.Laws.{HasAnswered, InMemory, server_states_in};
ghost use Rattle.tide_server.specs.Openings.{EndsAs, served_data_of};
ghost use Rattle.tide_server.specs.Replies.{IsReply, names_file};
ghost use Rattle.tide_server.specs.Responses.{fixed_of};
ghost use Rattle.tide_server.specs.Rows.{ReplyRow, IsRow, is_settled};

/// Proves that each request has at most one row of the table of HTTP statuses, which says how the server
/// replies to it.
pub fn one_row()
    ensures { (request : List ℕ) (a b : ReplyRow) → IsRow request a → IsRow request b → a ≡ b }
{}

/// Proves that more bytes of a request don't change its row of the table of HTTP statuses (which says
/// how the server replies), if the bytes received so far determine the row.
pub fn settled_rows_stay()
    ensures { (request more : List ℕ) (row : ReplyRow)
        → IsRow request row → IsTrue (is_settled row) → IsRow (request ++ more) row }
{}

/// Proves that 4,202,496 bytes, the length of the longest request, are enough to determine a request's
/// row of the table of HTTP statuses, which says how the server replies.
pub fn long_requests_are_settled()
    ensures { (request : List ℕ) (row : ReplyRow) → IsRow request row → LONGEST ≤ length request → IsTrue (is_settled row) }
{}

/// Proves that each request has at most one reply, for the same harmonic constants, table of offsets and
/// minute.
pub fn one_reply()
    ensures { (book : Book) (table : List Offsets) (minute : ℤ) (request a b : List ℕ)
        → IsReply book table minute request a → IsReply book table minute request b → a ≡ b }
{}

/// Proves that more bytes of a request don't change the reply to it, if the bytes received so far
/// determine its row of the table of HTTP statuses, which says how the server replies.
pub fn settled_replies_stay()
    ensures { (book : Book) (table : List Offsets) (minute : ℤ) (request more reply : List ℕ) (row : ReplyRow)
        → IsRow request row → IsTrue (is_settled row)
        → IsReply book table minute request reply → IsReply book table minute (request ++ more) reply }
{}

/// Proves that a reply with a fixed text, such as to a malformed request, is the same for all harmonic
/// constants, tables of offsets and minutes.
pub fn fixed_rows_reply()
    ensures { (book : Book) (table : List Offsets) (minute : ℤ) (request reply : List ℕ) (row : ReplyRow)
        → IsRow request row → fixed_of row ≡ Some reply → IsReply book table minute request reply }
{}

/// Proves that a request made by a web query never names a zone file.
pub fn queries_name_no_file()
    ensures { (command : Option (List ℕ)) (items : List Item) (question : Question)
        → question_of record { origin = Origin.Query; command = command; items = items } ≡ Ok question
        → names_file question.zone ≡ false }
{}

/// Proves, for a server with files, a port, a sink and a clock in memory that has listened: the port has
/// one reply for each accepted request, in the same order. Each is the reply to the bytes of its request
/// at the clock's minute, unless a read or write failed. If the server ended with a read fault, the last
/// accepted request may have an empty reply instead, because the clock failed for it.
pub fn serve_in_memory()
    ensures { (words : List (List ℕ)) (status : Status) (before after : InMemory)
        → before.door.listener_state.port ≡ None → ¬ (after.door.listener_state.port ≡ None)
        → EndsAs (IsTrue (server_states_in before).files.file_contents.is_steady) (served_data_of (folder_of before.files.files) words) status
        (server_states_in before) (server_states_in after)
        → (served_data : ServedData) × (served_data_of (folder_of before.files.files) words ≡ Ok served_data)
        × HasAnswered served_data (is_read_fault status) before after }
{}
