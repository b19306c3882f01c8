//! A value as the bytes of a page, escaped: for the engine, which renders a page where a script stops.
#![tactic(auto)]

mod escape;
mod fault;
mod laws;
mod names;
mod page;
mod parts;
mod shape;

pub use fault::RenderFault;
pub use laws::{attributes_stay_inside, markup_closes_its_elements, texts_stay_inside};
pub use page::render;
