// Link images: a taken image read as a link, and a link written as its image.
#![tactic(auto)]

mod flows; // the flows of an image
mod reading;
mod writing;

pub use reading::{Kept, read};
pub use writing::write;
