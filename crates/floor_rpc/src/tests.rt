//! What no clause says: lines by hand, each call once, and lines at random.

mod answers;
mod lines;
mod random;
