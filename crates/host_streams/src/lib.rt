//! Sources and sinks over streams of bytes, as standard input and output.
#![tactic(auto)]

mod byte_input;
mod byte_output;
mod input_source;
mod mem_input;
mod mem_output;
mod output_sink;
mod stream_flaw;

pub use block_device::{Failed, Sink, Source};
pub use byte_input::ByteInput;
pub use byte_output::ByteOutput;
pub use input_source::InputSource;
pub use mem_input::MemInput;
pub use mem_output::MemOutput;
pub use output_sink::OutputSink;
pub use stream_flaw::StreamFlaw;
