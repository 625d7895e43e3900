//! Lines of the console, and what a board of one room answers them.

mod commands;
mod one_room;
mod refusals;
