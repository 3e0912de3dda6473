//! The tests of what no clause and no row of `wc_rows` says, over public items of single layers: integers, memory
//! that is given back, sizes, limits, and values in an order that no row has.
#![tactic(auto)]

#[cfg(test)]
mod ast;
#[cfg(test)]
mod integers;
#[cfg(test)]
mod many;
#[cfg(test)]
mod reading;
#[cfg(test)]
mod spaces;
#[cfg(test)]
mod surface;
