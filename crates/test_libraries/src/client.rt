//! The worked examples of a client, all numbers open, and lines in every form.

mod conversing;
mod lines;
mod reasons;
