//! The greatest sizes of a text of lines.

/// The most bytes of a line.
pub const MAX_LINE: usize = 65_536;

/// The most lines of a text. A line counts once more for each full [`MAX_LINE`] bytes.
pub const MAX_LINES: u32 = 1_000_000;
