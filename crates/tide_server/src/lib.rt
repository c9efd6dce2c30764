//! Tides over HTTP: requests and their replies.
//!
//! [`enough`] returns true if the bytes received of a request determine the reply, and [`reply`] returns
//! it. [`fixed_reply`] writes the replies that need no prediction, such as to a malformed head or an
//! unknown path, and [`unavailable_reply`] the reply 503, which replaces another if memory runs out;
//! neither allocates. [`serve`] reads the arguments and the files, listens, and serves one connection
//! after the other.
#![tactic(auto)]

mod completeness;
mod connection;
mod connections;
mod http_reply;
mod laws;
mod limits;
mod outage;
mod query;
mod request;
mod sent_text;
mod served_data;
mod served_data_reading;
mod service;
mod worked;

pub use completeness::{servers_are_complete, worked_servers};
pub use http_reply::reply;
pub use http_rows::{
    Code, Path, RequestRejection, enough, fixed_reply, sample_requests, unavailable_reply,
    worked_replies,
};
pub use laws::{
    fixed_rows_reply, long_requests_are_settled, one_reply, one_row, queries_name_no_file,
    serve_in_memory, settled_replies_stay, settled_rows_stay,
};
pub use served_data::ServedData;
pub use service::serve;
pub use worked::{worked_answers, worked_queries};
