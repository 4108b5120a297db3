//! Shared text, blank bytes, decimal numbers, and a stream of bytes cut into lines.
#![tactic(auto)]

mod blank;
mod lines;
mod number;
mod text;

pub use blank::{is_blank, trim, trim_end, trim_start};
pub use lines::{Line, LineCutter};
pub use number::{are_digits, decimal, digits_value};
pub use text::Text;
