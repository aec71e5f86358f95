//! The entries of transport plans, and the supplies and demands that a plan has to meet.

/// An entry of a transport plan: `amount` units go from a row to a column. Rows and columns count
/// from 0.
#[repr(C)]
#[derive(Clone, Copy, Debug, PartialEq, Eq)]
pub struct Shipment {
    pub row: u32,
    pub column: u32,
    pub amount: i64,
}

/// The supply of each row and the demand of each column, in order.
#[derive(Clone, Copy)]
pub struct Masses<'a> {
    pub supplies: &'a [i64],
    pub demands: &'a [i64],
}
