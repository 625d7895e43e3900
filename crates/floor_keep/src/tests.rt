//! What no clause says: names, epochs and files by hand, sinks that fail, and a folder on a disk.

mod disks;
mod epochs;
mod files;
mod folders;
mod names;
