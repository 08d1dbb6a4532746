//! Names, sorts, verdicts, and all that the checker asks of the outside.
//!
//! A [`Source`] gives bytes, a [`Sink`] takes them, and a [`Library`] finds modules by name. Each
//! counts its faults, and answers `Failed` only where that count rose in the call; every other answer
//! is exact wherever the object tells what it has left or holds. [`MemSource`], [`MemSink`] and
//! [`MemLibrary`] tell it, and fail at the calls that they are told, a [`MemSink`] also where it has no
//! room; [`StdSource`] and [`StdSink`] stand over any reader and writer of std, and [`DirLibrary`] over
//! the files of the current folder. A [`Name`], a [`Text`] and a [`Sorts`] are seen as lists, `==` on
//! them and on a [`Sort`] says whether they are the same, and [`Steps`] is a number to which `tick`
//! adds one. A [`Verdict`] is what a statement gets, where [`Verdict::is_good`] tells which count as
//! good, and a [`Status`] is how a run ends, where [`Status::number`] is the exit status.
#![tactic(auto)]

mod dir_library;
mod failed;
mod found;
mod library;
mod library_error;
mod limits;
mod mem_library;
mod mem_sink;
mod mem_source;
mod name;
mod no_memory;
mod sink;
mod sort;
mod sorts;
mod source;
mod status;
mod std_sink;
mod std_source;
mod steps;
mod text;
mod verdict;

pub use dir_library::DirLibrary;
pub use failed::Failed;
pub use found::Found;
pub use library::Library;
pub use library_error::LibraryError;
pub use limits::MAX_TEXT_LEN;
pub use mem_library::MemLibrary;
pub use mem_sink::MemSink;
pub use mem_source::MemSource;
pub use name::Name;
pub use no_memory::NoMemory;
pub use sink::Sink;
pub use sort::Sort;
pub use sorts::Sorts;
pub use source::Source;
pub use status::Status;
pub use std_sink::StdSink;
pub use std_source::StdSource;
pub use steps::Steps;
pub use text::Text;
pub use verdict::Verdict;
