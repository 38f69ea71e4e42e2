//! The tests of the cells and managers, from outside: what their contracts can't show.
//!
//! A test is a list of rows, each a call with what it is to answer, which a driver goes through; or threads race. Each
//! public call is made once and its answer compared, each generic at a concrete type, and each growth of memory is
//! refused in turn.
#![tactic(auto)]

#[cfg(test)]
mod cells;
#[cfg(test)]
mod manager;
#[cfg(test)]
mod rows;
