//! A page (HTML) that publishes a complete list: it shows pictures and counts, and holds the three texts.
#![tactic(auto)]

mod counts;
mod elements;
mod fixed;
mod joining;
mod pages;
mod pictures;
mod rows;
mod texts;
mod titles;

pub use counts::PageCounts;
pub use elements::element_law;
pub use pages::write_page;
pub use pictures::{PagePictures, draw_pictures};
pub use texts::{ListTexts, MOST_INSIDE};
pub use titles::title_law;
