//! Runs of the program over its words and its input, and over the files of kept conferences.

mod journals;
mod scripts;
