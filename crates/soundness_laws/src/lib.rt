//! What a stream gives is a sound history, such as reading gives it.
#![tactic(auto)]

mod examples;
mod laws;

pub use examples::a_stream_is_read;
pub use laws::{
    ids_are_places, what_is_read_is_read_again, what_is_read_is_sound,
    what_is_read_passes_no_limit, what_reading_never_gives,
};
