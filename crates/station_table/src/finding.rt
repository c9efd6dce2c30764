//! Finding a station by its name: its reference station and its offsets.

ghost use Rattle.std.specs.Prelude.{◌≡◌, ◌<◌, IfOk, IfErr, IfSome, length};
ghost use Rattle.harmonics_book.specs.Books.{IsBook};
ghost use Rattle.station_table.specs.Bases.{IsBasis, IsFindFault, station_at, row_at, basis_in, basis_over, basis_of};
ghost use Rattle.station_table.specs.Offsets.{IsOffsets};

use crate::basis::Basis;
use crate::offset::Offset;
use crate::offsets::Offsets;
use crate::table::OffsetTable;
use decimal_text::Text;
use harmonics_book::{Book, ValidBook};

/// The reason why no reference station and offsets (a basis) were found for the name of a station.
#[derive(Clone, Copy, Debug, PartialEq, Eq)]
pub enum FindFault {
    /// Neither the book nor the table has a station with the name.
    NoStation,
    /// The book doesn't have the name. The first row of the table with this name has the index
    /// `row`, counted from 0, and the book doesn't have the reference station that this row names.
    NoReference { row: u32 },
}

/// Returns the basis of the station `name`: its reference station in `book` and its offsets. If the
/// book has a station `name`, the first one is its own reference, without offsets. Otherwise the
/// basis is the first row `name` of `table`, with the first station of the book that has the row's
/// reference name. It doesn't allocate.
///
/// # Errors
/// - [`FindFault::NoStation`]: when neither the book nor the table has `name`.
/// - [`FindFault::NoReference`]: when the book doesn't have `name`, and the first row `name` of the
///   table names a reference that the book doesn't have.
///
/// # Examples
/// ```
/// let text =
///     b"1\nS2 30\n1999\n1\nS2\n0\n*END*\n1\nS2\n1\n*END*\nPier\n0:00 :UTC\n0 feet\nS2 1 0\n";
/// let book = read_book(rt.alloc(), text)?;
/// let table = OffsetTable::new(rt.alloc());
/// let pier = Text::from_str(rt.alloc(), "Pier")?;
/// let basis = find(&book, &table, &pier);
/// assert_eq!(rt; basis.map(|basis| basis.station), Ok(0));
/// let quay = Text::from_str(rt.alloc(), "Quay")?;
/// let fault = find(&book, &table, &quay).err();
/// assert_eq!(rt; fault, Some(FindFault::NoStation));
/// ```
#[tactic(auto, unfolding(crate::specs::Bases::basis_of))]
pub fn find(book: &Book, table: &OffsetTable, name: &Text) -> Result<Basis, FindFault>
    requires book { IsBook book.now }
    ensures exact { result ≡ basis_of book.now table.now name.now }
    ensures valid { IfOk result (IsBasis (length book.now.stations)) }
    ensures row { IfErr result (IsFindFault (length table.now)) }
{
    match station_place(book, name) {
        Some(station) => Ok(Basis {
            station: station as u32,
            row: None,
            high: Offset::USUAL,
            low: Offset::USUAL,
            slack: None,
        }),
        None => find_row(&ValidBook::new(book), table, name),
    }
}

/// Returns the basis of the first row `name` of `table`. The errors are [`FindFault::NoStation`] if
/// there is no such row, and [`FindFault::NoReference`] if the book doesn't have its reference.
#[tactic(auto, unfolding(crate::specs::Bases::basis_in))]
fn find_row(book: &ValidBook<'_>, table: &OffsetTable, name: &Text) -> Result<Basis, FindFault>
    ensures exact { result ≡ basis_in book.now table.now name.now }
    ensures valid { IfOk result (IsBasis (length book.now.stations)) }
    ensures row { IfErr result (IsFindFault (length table.now)) }
{
    let rows = table.as_slice();
    match row_place(rows, name) {
        Some(row) => basis_over(book, row as u32, &rows[row]),
        None => Err(FindFault::NoStation),
    }
}

/// Returns the basis of `offsets`, the row of the table with index `row`, or
/// [`FindFault::NoReference`] if the book doesn't have its reference.
#[tactic(auto, unfolding(crate::specs::Bases::basis_over))]
fn basis_over(book: &ValidBook<'_>, row: u32, offsets: &Offsets) -> Result<Basis, FindFault>
    requires valid { IsOffsets offsets.now }
    ensures exact { result ≡ basis_over book.now row offsets.now }
    ensures valid { IfOk result (IsBasis (length book.now.stations)) }
    ensures row { IfErr result (λ fault. fault ≡ FindFault.NoReference row) }
{
    match station_place(book.get(), &offsets.reference) {
        Some(station) => Ok(Basis {
            station: station as u32,
            row: Some(row),
            high: offsets.high,
            low: offsets.low,
            slack: offsets.slack,
        }),
        None => Err(FindFault::NoReference { row }),
    }
}

/// Returns the index, counted from 0, of the book's first station called `name`, or `None` if there
/// is none.
fn station_place(book: &Book, name: &Text) -> Option<usize>
    ensures exact { result ≡ station_at book.now name.now }
    ensures index { IfSome result (λ index. index < length book.now.stations) }
{
    book.stations
        .as_slice()
        .iter()
        .position(|station| station.name.as_str() == name.as_str())
}

/// Returns the index, counted from 0, of the first row called `name`, or `None` if there is none.
fn row_place(rows: &[Offsets], name: &Text) -> Option<usize>
    ensures exact { result ≡ row_at rows.now name.now }
    ensures index { IfSome result (λ index. index < length rows.now) }
{
    rows.iter()
        .position(|row| row.name.as_str() == name.as_str())
}
