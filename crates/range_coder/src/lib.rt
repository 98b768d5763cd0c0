//! The range coder of a CELT frame (RFC 6716, sections 4.1 and 5.1): a reader answers its questions from the bytes of the
//! frame, and a writer codes answers into them.
#![tactic(auto)]

mod answers;
mod carry;
mod laws;
mod logarithm;
mod places;
mod reader;
mod sender;
mod sending;
mod shares;
#[cfg(test)]
mod tests;
mod window;
mod writer;
#[cfg(test)]
mod writer_tests;

pub use laws::{
    law_answers_determined, law_bit_answer, law_code_bits, law_code_determined, law_code_exists,
    law_code_is_read, law_head, law_interval_end, law_interval_has_an_ending, law_narrowing,
    law_nearest_determined, law_one_pace, law_pace_bounds, law_readings_determined, law_reads,
    law_shared_pace, law_tail, law_writes, law_written_is_read,
};
pub use reader::Reader;
pub use sender::Finish;
pub use writer::Writer;
