//! The constants that control the searches, each with the measurements behind it.

/// A search of at least so many rows uses lists of their least entries, others scan whole rows.
/// Random costs below 10^6: whole rows take 1.3 times as long as lists at 700 and 1,000 rows, and
/// 2.4 times at 2,000; random costs below 100: 1.8, 2.5 and 1.7 times.
pub(crate) const LIST_ROWS: u32 = 700;

/// The number of entries in a list. At 1,000 rows 16, 24 and 48 take 5.7, 6.2 and 7.9 ms on random
/// costs, and 80, 74 and 58 ms on Euclidean ones.
pub(crate) const LIST_LENGTH: usize = 24;

/// A list takes its entries from this many blocks of 16 columns, those with the least entries:
/// three quarters of its length.
pub(crate) const LIST_BLOCKS: u32 = 18;

/// If less than one row in `FEW_FREE` is free after column reduction, reduction transfer scans
/// whole rows, and a row gets a list only when a bid or a path needs it. At 1,000 rows this saves a
/// seventh of the time on tracking costs, and half on distances of points on a line, where most or
/// all rows keep their first column.
pub(crate) const FEW_FREE: u32 = 4;

/// In a round of row reduction, rows bid again at once at most this many times per row, so that a
/// round can't take long.
pub(crate) const BIDS_PER_ROW: u32 = 4;

/// A search by whole rows gives up after it has settled this many columns per row. Random costs
/// settle 1 to 2 per row, Euclidean ones 9 to 20 at 300 to 600 rows, and products of row and column
/// numbers, the worst case for augmenting paths, half as many as there are rows.
pub(crate) const SETTLED_PER_ROW: u64 = 12;

/// With fewer rows than this a search by whole rows doesn't give up: 100 rows of products take 0.4
/// ms.
pub(crate) const BUDGET_ROWS: u32 = 200;

/// A search by lists gives up after the work of this many scans of the whole matrix. Euclidean
/// costs need more, and the simplex solves them in a third of the time.
pub(crate) const LIST_READINGS: u64 = 2;

/// The fixed cost of an augmenting path, in entries read.
pub(crate) const PATH_ENTRIES: u64 = 64;

/// The cost of a settled column per entry of a list, in entries read.
pub(crate) const SETTLED_ENTRIES: u64 = 8;

/// A search of at least this many rows gives up at once if column reduction leaves over nine tenths
/// of them free. It leaves all free on products of row and column numbers, and 0.97 on costs of
/// rank 3, where each path settles a third of the columns; 0.35 to 0.44 on random and Euclidean
/// costs.
pub(crate) const HARD_ROWS: u32 = 300;
