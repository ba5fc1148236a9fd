//! Data of locales with fallback: the best that the map of an image has for a wanted text; and the
//! form `locale`, whose lines ask for it.
#![tactic(auto)]

mod asks;
mod lookup;
mod replies;
mod walk;
mod wanted;

pub use asks::Asks;
pub use lookup::{Provided, provide, provide_counted};
pub use wanted::Wanted;
