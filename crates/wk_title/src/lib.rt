//! Page titles: which title a text names, and how a title is shown.
#![tactic(auto)]

mod ascii;
mod characters;
mod legal;
mod namespace;
mod naming;
mod parts;
mod rules;
mod spaces;
mod target;
mod title;

pub use characters::to_nfc;
pub use namespace::{CATEGORY, TEMPLATE, is_namespace, namespace_name};
pub use naming::{named, page_named};
pub use rules::{normalize, shown};
pub use spaces::{push_with_spaces, spaced};
pub use target::target_len;
pub use title::{Title, TitleRefusal, order_is_by_namespace_then_key};
