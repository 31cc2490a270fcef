// ACB colour books as they are shown: the texts of the header, components and pages.
#![tactic(auto)]

mod component;
mod page;
mod text;

pub use component::shown_component;
pub use page::page_records;
pub use text::{shown_start, shown_text};
