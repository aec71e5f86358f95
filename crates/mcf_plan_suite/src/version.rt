//! The version of the program.

/// The name and the version of the program, and the logic that proved it.
pub const VERSION: &str = "mcfplan 1.0.0\nproved with Rattle, logic dac8208d650f15bf\n";
