//! Quiet cells and cells of one minute, decided from approximate values of a curve. If these don't
//! decide, the exact values do.

ghost use Rattle.std.specs.Prelude.{◌≡◌, ◌*◌, ◌^◌, ◌<◌, ◌≤◌, ℤ, pos, ◌+ℤ◌, ◌-ℤ◌, ◌≤ℤ◌, int_lt, unsigned_abs, IfSome};
ghost use Rattle.curve_law.specs.Track.{side_at};
ghost use Rattle.curve_law.specs.CurveSpec.{IsApproximateValue, IsMinute, IsSpan};
ghost use Rattle.curve_law.specs.Cover.{is_quiet, unit_cell};
ghost use Rattle.curve_law.specs.declared.quiet.TheConstants.{MOST_MINUTES};
ghost use Rattle.curve_law.specs.Workings.Approximate.{IsFar};

use crate::cell::Cell;
use crate::curve::Curve;
use crate::quiet::{MOST_MINUTES, cell_of_sides, is_quiet, most_change};

/// Returns true if the `n` minutes from minute `a` on can be one quiet cell (2 to 1,024 minutes in
/// which, by a bound on the curve's change in a minute, its value can't cross 0). This is decided
/// from the values at `a` and at `a + n`, their sum and the bound, and is false without a bound.
/// `n` is at most 1,024. `approximate` and `approximate_end` are the curve's approximate values at
/// `a` and at `a + n`; the exact values are used only if these don't decide.
#[inline(always)]
pub fn is_quiet_from_approximate<C: Curve>(
    curve: &C,
    a: i64,
    n: u32,
    approximate: i128,
    approximate_end: i128,
) -> bool
    requires span { IsSpan (C.state curve.now).curve_model.curve_spec a n }
    requires count_bound { n ≤ MOST_MINUTES }
    requires approximate { approximate ≡ (C.state curve.now).curve_model.approximate a }
    requires approximate_end { approximate_end ≡ (C.state curve.now).curve_model.approximate (a +ℤ pos n) }
    ensures { result ≡ is_quiet (C.state curve.now).curve_model.curve_spec a n }
{
    match quiet_if_decided(curve, a, n, approximate, approximate_end) {
        Some(quiet) => quiet,
        None => is_quiet_exactly(curve, a, n, approximate, approximate_end),
    }
}

/// Returns the cell of the single minute `a`: a cell with an event ([`Cell::Turn`]) if the curve's
/// value is above 0 at `a` and not at `a + 1`, or not at `a` and above 0 at `a + 1`; otherwise
/// [`Cell::Still`]. `approximate` and `approximate_next` are the curve's approximate values at `a`
/// and at `a + 1`; the exact values are used only if these don't decide.
pub fn unit_cell_from_approximate<C: Curve>(
    curve: &C,
    a: i64,
    approximate: i128,
    approximate_next: i128,
) -> Cell
    requires span { IsSpan (C.state curve.now).curve_model.curve_spec a 1 }
    requires approximate { approximate ≡ (C.state curve.now).curve_model.approximate a }
    requires approximate_next { approximate_next ≡ (C.state curve.now).curve_model.approximate (a +ℤ pos 1) }
    ensures { result ≡ unit_cell (C.state curve.now).curve_model.curve_spec.track a }
{
    let is_above = is_above_from_approximate(curve, a, approximate);
    let is_above_next = is_above_from_approximate(curve, a + 1, approximate_next);
    cell_of_sides(curve, a, is_above, is_above_next)
}

/// Returns whether the `n` minutes from minute `a` on can be one quiet cell, or `None` if the
/// approximate values at `a` and at `a + n` don't decide it. The two exact values differ by at most
/// the rate times `n`. If their sum is greater than this in size, both are on one side of 0; the
/// approximate sum differs from the exact one by at most twice the error.
#[inline(always)]
fn quiet_if_decided<C: Curve>(
    curve: &C,
    a: i64,
    n: u32,
    approximate: i128,
    approximate_end: i128,
) -> Option<bool>
    requires span { IsSpan (C.state curve.now).curve_model.curve_spec a n }
    requires count_bound { n ≤ MOST_MINUTES }
    requires approximate { IsApproximateValue (C.state curve.now).curve_model.curve_spec (C.state curve.now).curve_model.error a approximate }
    requires approximate_end { IsApproximateValue (C.state curve.now).curve_model.curve_spec (C.state curve.now).curve_model.error
        (a +ℤ pos n) approximate_end }
    ensures { IfSome result (λ quiet. is_quiet (C.state curve.now).curve_model.curve_spec a n ≡ quiet) }
{
    if n < 2 {
        return Some(false);
    }
    let error = curve.error();
    match curve.rate(a, n) {
        Some(rate) => passes(
            approximate + approximate_end,
            2 * error,
            most_change(rate, n),
        ),
        None => Some(false),
    }
}

/// Returns whether the `n` minutes from minute `a` on can be one quiet cell, by the exact values.
#[cold]
#[inline(never)]
fn is_quiet_exactly<C: Curve>(
    curve: &C,
    a: i64,
    n: u32,
    approximate: i128,
    approximate_end: i128,
) -> bool
    requires span { IsSpan (C.state curve.now).curve_model.curve_spec a n }
    requires count_bound { n ≤ MOST_MINUTES }
    requires approximate { approximate ≡ (C.state curve.now).curve_model.approximate a }
    requires approximate_end { approximate_end ≡ (C.state curve.now).curve_model.approximate (a +ℤ pos n) }
    ensures { result ≡ is_quiet (C.state curve.now).curve_model.curve_spec a n }
{
    let value = curve.exact_value(a, approximate);
    let end_value = curve.exact_value(a + i64::from(n), approximate_end);
    is_quiet(curve, a, n, value, end_value)
}

/// Returns true if the curve's value at minute `m` is above 0; `approximate` is its approximate
/// value. The exact value is used only if `approximate` doesn't decide.
fn is_above_from_approximate<C: Curve>(curve: &C, m: i64, approximate: i128) -> bool
    requires minute { IsMinute (C.state curve.now).curve_model.curve_spec m }
    requires approximate { approximate ≡ (C.state curve.now).curve_model.approximate m }
    ensures { result ≡ side_at (C.state curve.now).curve_model.curve_spec.track m }
{
    match side_of(approximate, curve.error()) {
        Some(is_above) => is_above,
        None => is_above_exactly(curve, m, approximate),
    }
}

/// Returns true if the curve's exact value at minute `m` is above 0.
#[cold]
#[inline(never)]
fn is_above_exactly<C: Curve>(curve: &C, m: i64, approximate: i128) -> bool
    requires minute { IsMinute (C.state curve.now).curve_model.curve_spec m }
    requires approximate { approximate ≡ (C.state curve.now).curve_model.approximate m }
    ensures { result ≡ side_at (C.state curve.now).curve_model.curve_spec.track m }
{
    curve.exact_value(m, approximate) > 0
}

/// Returns `Some(true)` if each value that differs from `approximate` by at most `error` is above
/// 0, `Some(false)` if none of these values is, and `None` otherwise.
fn side_of(approximate: i128, error: i128) -> Option<bool>
    requires approximate { unsigned_abs approximate < 2 * 10 ^ 37 }
    requires least { pos 0 ≤ℤ error }
    requires most { error ≤ℤ pos (10 ^ 36) }
    ensures { IfSome result (λ side. (value : ℤ) → unsigned_abs (approximate -ℤ value) ≤ unsigned_abs error
        → int_lt (pos 0) value ≡ side) }
{
    if approximate > error {
        Some(true)
    } else if approximate + error <= 0 {
        Some(false)
    } else {
        None
    }
}

/// Returns `Some(true)` if each sum that differs from `approximate` by at most `error` is greater
/// than `most` in size, `Some(false)` if each is smaller than `most` in size, and `None` otherwise.
fn passes(approximate: i128, error: i128, most: i128) -> Option<bool>
    requires approximate { unsigned_abs approximate < 4 * 10 ^ 37 }
    requires least { pos 0 ≤ℤ error }
    requires error_bound { error ≤ℤ pos (2 * 10 ^ 36) }
    requires most { unsigned_abs most < 5 * 10 ^ 37 }
    ensures { IfSome result (λ far. (sum : ℤ) → unsigned_abs (approximate -ℤ sum) ≤ unsigned_abs error
        → IsFar most sum far) }
{
    let size = approximate.abs();
    if size - error > most {
        Some(true)
    } else if size + error < most {
        Some(false)
    } else {
        None
    }
}
