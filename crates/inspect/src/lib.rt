// What image headers and product headers say, sound or not, for a bench that shows them.
#![tactic(auto)]

pub mod image_header;
pub mod product_header;
