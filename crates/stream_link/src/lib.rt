//! The stream link: it passes the words that it is given to a part on the bench, one by one, and the part's replies back.
#![tactic(auto)]

mod queue;
pub mod standing;
pub mod stream;
pub mod word;

pub use standing::StreamStanding;
pub use stream::Stream;
pub use word::StreamWord;
