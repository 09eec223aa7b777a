//! Images: the words that a crash leaves, and their text.
#![tactic(auto)]

mod bodies;
mod faults;
mod found_words;
mod headers;
mod laws;
mod lifts;
mod pieces;
mod reading;
#[cfg(test)]
mod tests;
mod viewed_words;
mod views;
mod word_lines;
mod writing;

pub use faults::ImageError;
pub use flit_model::Image;
pub use laws::{both_ways, image_or_fault, one_image};
pub use lifts::lift;
pub use pieces::{behind, cut_at};
pub use reading::read_image;
pub use views::{ImageView, view_image};
pub use word_lines::word_line_of;
pub use writing::write_image;
