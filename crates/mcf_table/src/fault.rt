//! Why a text isn't read as a table.

/// Why a field isn't read.
#[derive(Clone, Copy, Debug, PartialEq, Eq)]
pub enum FieldFault {
    /// A quote opens the field, and none closes it.
    Unclosed,
    /// Something stands after the closing quote; a quote within quotes is written twice.
    AfterQuote,
}

/// Why a text isn't read as rows.
#[derive(Clone, Copy, Debug, PartialEq, Eq)]
pub struct TextFault {
    /// The line on which the row begins, from 1.
    pub line: usize,
    /// What is wrong with one of its fields.
    pub kind: FieldFault,
}
