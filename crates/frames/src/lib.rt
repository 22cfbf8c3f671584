// The small parts of reading and writing scenario files: digits, what a frame holds, and marks.
#![tactic(auto)]

mod digits; // hexadecimal, and a line's frame
mod fields; // what the frames of the three kinds hold
mod marks; // one bit for each cell

pub use digits::{digit_of, frame_of, no_frame};
pub use fields::{count_in, line_in, route_in, settings_in, size_of, word_told};
pub use marks::{clear, is_marked, set_mark};
