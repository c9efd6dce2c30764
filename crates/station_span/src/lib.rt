//! A span of a station: the station that has a given name, and its curves.
//!
//! [`StationData`] has the stations that can be requested, and a [`StationRequest`] is a request about a
//! span of one of them. [`find_station`] takes the steps of every such request (the name, the unit, the
//! span, the bounds on the constants and the mark) and returns the first refusal. [`find_level`] also
//! requires a level at each minute, and [`find_reference`] takes no span. A station that was found has
//! curves ([`turn_curve`], [`slack_curve`], [`mark_curve`]), events ([`find_events`], or one at a time
//! by [`merge_of`]), levels ([`level_at`], [`is_rising`]) and a highest water ([`find_highest`],
//! [`judge_highest`]). [`tracks_over`] returns the cells of curves, [`rejection_over`] the first fault of
//! the cells of a certificate, and [`rejection_line`] the line that reports it. [`send_track`] writes
//! cells while a search finds them. `specs/Sites.antt` has the order of the refusals,
//! `specs/Following.antt` the curves of the requested tracks, and `specs/Rejections.antt` the order of
//! the faults.
#![tactic(auto)]

mod cell_sending;
mod curves;
mod following;
mod found_station;
mod judging;
mod levels;
mod peaks;
mod purpose;
mod reference_station;
mod rejection;
mod span_request;
mod station;
mod station_curves;
mod station_data;
mod station_request;
mod tracks;
mod worked;

pub use cell_sending::{SentCells, send_if_followed, send_track};
pub use curves::{mark_curve, slack_curve, turn_curve};
pub use following::{
    FoundEvents, find_events, list_station, mark_search, merge_of, slack_search, turn_search,
};
pub use found_station::FoundStation;
pub use judging::rejection_over;
pub use levels::{check_level, is_rising, level_at, worked_levels};
pub use peaks::{find_highest, find_level, highest_minute, judge_highest, moved_minute};
pub use purpose::Purpose;
pub use reference_station::{ReferenceStation, find_reference};
pub use rejection::{Rejection, rejection_line};
pub use span_request::SpanRequest;
pub use station::find_station;
pub use station_data::StationData;
pub use station_request::StationRequest;
pub use tracks::{cell_count, tracks_over};
pub use worked::worked_spans;
