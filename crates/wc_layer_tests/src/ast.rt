//! Bodies, lists and functions, and their copies.

mod bodies;
mod lists;
mod rows;
