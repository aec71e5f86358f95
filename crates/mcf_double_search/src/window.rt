//! The range of the bits that the entries of a matrix have.

use mcf_matrix_doubles::{DoubleMatrix, EXACT_BITS, INFINITY, Scaled};

// The bits of whole costs: 2^49 is below 10^15, the limit of a cost.
const WHOLE_BITS: u32 = 49;

// All bits of a double but its sign: as numbers, sizes are in the order of their values.
const SIZE_BITS: u64 = (1 << 63) - 1;

/// The exponents of 2 from a bit below which no finite entry has one to above the highest, or the
/// highest 118 of these. If it `is_cut`, there are entries with lower bits, and the search takes
/// all entries as rounded down.
#[derive(Clone, Copy)]
pub(crate) struct Window {
    pub(crate) low: u32,
    pub(crate) top: u32,
    pub(crate) is_cut: bool,
}

// The least size of the finite entries other than 0, less 1, and the greatest size.
#[derive(Clone, Copy)]
struct Sizes {
    least_less_one: u64,
    greatest: u64,
}

impl Window {
    /// Returns a window of a matrix. Its low end is the lowest set bit of all entries if these may
    /// be whole costs without rounding, or if it has to be; finding it takes longer than finding
    /// the last place of the least entry, which is the low end otherwise. A window is cut if it has
    /// more bits than the refinement's sums of prices allow.
    pub(crate) fn of(matrix: &DoubleMatrix<'_>) -> Window {
        let window = Sizes::of(matrix).window();
        let first_row = Window::exact(matrix, matrix.rows().min(1));
        if first_row.is_whole() || !window.is_narrow() {
            return Window::exact(matrix, matrix.rows()).cut();
        }
        window
    }

    // Returns the window without the bits that are too low for the refinement.
    fn cut(self) -> Window {
        if self.is_narrow() {
            return self;
        }
        Window {
            low: self.top.wrapping_sub(EXACT_BITS),
            top: self.top,
            is_cut: true,
        }
    }

    // Returns the window of so many rows, from the lowest set bit on.
    fn exact(matrix: &DoubleMatrix<'_>, rows: usize) -> Window {
        let mut window = Window {
            low: u32::MAX,
            top: 0,
            is_cut: false,
        };
        'rows: for row in 0..rows.min(matrix.rows()) {
            window.widen(matrix.row(row));
        }
        window.low = window.low.min(window.top);
        window
    }

    // Widens the window to the entries of a row.
    fn widen(&mut self, row: &[u64]) {
        'columns: for column in 0..row.len() {
            self.take(row[column]);
        }
    }

    // Widens the window to an entry.
    #[inline(always)]
    fn take(&mut self, bits: u64) {
        if bits == INFINITY {
            return;
        }
        let Scaled { mantissa, shift } = Scaled::of(bits);
        if mantissa == 0 {
            return;
        }
        let size = mantissa.unsigned_abs();
        self.low = self.low.min(shift.wrapping_add(size.trailing_zeros()));
        self.top = self
            .top
            .max(shift.wrapping_add(64).wrapping_sub(size.leading_zeros()));
    }

    /// Returns the exponent of the power of 2 to whose multiples entries are rounded at first.
    pub(crate) fn grid(self) -> u32 {
        self.low.max(self.top.saturating_sub(WHOLE_BITS))
    }

    /// Returns whether that rounding changes no entry.
    pub(crate) fn is_whole(self) -> bool {
        self.grid() <= self.low
    }

    // Returns whether the refinement's sums of prices fit 128 bits.
    fn is_narrow(self) -> bool {
        self.top.wrapping_sub(self.low) <= EXACT_BITS
    }
}

impl Sizes {
    // Returns the sizes of a matrix.
    fn of(matrix: &DoubleMatrix<'_>) -> Sizes {
        let mut sizes = Sizes {
            least_less_one: u64::MAX,
            greatest: 0,
        };
        'rows: for row in 0..matrix.rows() {
            sizes.widen(matrix.row(row));
        }
        sizes
    }

    // Takes the entries of a row into account. An infinite entry is above all finite sizes, and an
    // entry of 0, less 1, is above all of them.
    fn widen(&mut self, row: &[u64]) {
        let mut least = self.least_less_one;
        let mut greatest = self.greatest;
        'columns: for column in 0..row.len() {
            let size = row[column] & SIZE_BITS;
            least = least.min(size.wrapping_sub(1));
            greatest = greatest.max(if size < INFINITY { size } else { 0 });
        }
        self.least_less_one = least;
        self.greatest = greatest;
    }

    // Returns the window from the last place of the least size to above the greatest.
    fn window(self) -> Window {
        if self.greatest == 0 {
            return Window {
                low: 0,
                top: 0,
                is_cut: false,
            };
        }
        Window {
            low: Scaled::of(self.least_less_one.wrapping_add(1) & SIZE_BITS).shift,
            top: Scaled::of(self.greatest).shift.wrapping_add(53),
            is_cut: false,
        }
    }
}
