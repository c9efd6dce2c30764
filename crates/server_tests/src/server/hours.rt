//! A server with a clock that advances, and one with a long reply.

ghost use Rattle.std.specs.Prelude.{◌≡◌, length, min};

use super::coming::Coming;
use super::serving::{ASKED, NONE, Outcome, assert_done, serve_by, serve_over};
use crate::asserts::{assert_count, assert_holds};
use ghost_log::Log;
use std::process::Abort;
use tide_edge::{Clock, Failed};

/// The number of hours that the test's clock shows, one after the other, before it stops.
const HOURS: u64 = 24;

/// An observable clock that advances by an hour at each reading, from 2000-01-10T03:00Z on.
#[derive(Drop)]
struct HourClock {
    hours: u64,
    readings: Log<()>,
    ghost counted: { hours ≡ min (length readings.items) 24 },
}

impl Clock for HourClock {
    ghost use Rattle.std.specs.Prelude.{◌≡◌, ◌+◌, ◌*◌, true, false, length, min, pos};
    ghost use Rattle.tide_edge.specs.Clocks.{ClockState, held_readings};
    ghost use Rattle.tide_edge.specs.Workings.HeldClocks.{held_lawful};

    ghost state = { λ c. record {
      is_observable = true;
      minute_at = (λ n. pos (15791160 + 60 * min (n + 1) 24));
      fails_at = (λ n. false);
      readings = held_readings (λ n. pos (15791160 + 60 * min (n + 1) 24)) (λ n. false) (length c.readings.items);
      faults = 0;
    } };

    ghost lawful = { λ c _. held_lawful (λ n. pos (15791160 + 60 * min (n + 1) 24)) (λ n. false) (length c.readings.items) };

    fn minute(&mut self) -> Result<i64, Failed> {
        self.hours = (self.hours + 1).min(HOURS);
        self.readings = self.readings.then(&[()]);
        Ok(15_791_160 + 60 * self.hours as i64)
    }
}

const NOW: &str = "GET /clock?station=Pier HTTP/1.1\r\nHost: a\r\n\r\n";

/// Returns true if the reply with this number, the first being 0, has this line.
fn says(outcome: &Outcome, i: u64, line: &str) -> bool {
    let reply = outcome.door.reply(i).unwrap_or(b"");
    match std::str::from_utf8(reply) {
        Ok(text) => text.contains(line),
        Err(_) => false,
    }
}

/// The number of a reply, and a line of it.
const SHOWN: &[(u64, &str)] = &[
    (0, "\nNow 2000-01-10 03:00 UTC       0.00 feet  Falling\n"),
    (2, "\nNow 2000-01-10 04:00 UTC      -0.50 feet  Falling\n"),
];

fn assert_shown(rt: &impl Abort, outcome: &Outcome) {
    assert_done(rt, outcome, ASKED);
    for &(i, line) in SHOWN {
        assert_holds(rt, says(outcome, i, line), line);
    }
}

#[test]
fn each_request_is_answered_at_its_own_minute(rt: HostRuntime) {
    let requests = [Coming::Whole(NOW), Coming::Whole(""), Coming::Whole(NOW)];
    let mut clock = HourClock {
        hours: 0,
        readings: Log::new(),
    };
    let outcome = serve_by(&rt, rt.alloc(), ASKED, &requests, 4096, NONE, &mut clock);
    assert_shown(&rt, &outcome);
}

const YEAR: &str =
    "GET /predict?station=Pier&begin=2000-01-01T00:00Z&end=2001-01-01T00:00Z HTTP/1.1\r\nHost: a\r\n\r\n";

/// The lines of a reply: two highs and two lows on each of 366 days, after the head and the
/// station's name.
const LINES: usize = 5 + 1 + 4 * 366;

fn assert_year(rt: &impl Abort, outcome: &Outcome) {
    assert_done(rt, outcome, ASKED);
    let reply = outcome.door.reply(0).unwrap_or(b"");
    assert_holds(rt, reply.starts_with(b"HTTP/1.1 200 OK\r\n"), YEAR);
    let lines = reply.iter().filter(|byte| **byte == b'\n').count();
    assert_count(rt, lines, LINES, YEAR);
}

#[test]
fn a_list_of_a_year_is_sent_whole(rt: HostRuntime) {
    let requests = [Coming::Whole(YEAR)];
    let outcome = serve_over(&rt, rt.alloc(), ASKED, &requests, 1_000_000, NONE);
    assert_year(&rt, &outcome);
}
