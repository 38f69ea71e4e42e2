//! Tests as rows: a call, and the text of what it is to answer.

use std::alloc::Global;
use std::fmt::Debug;
use std::process::Abort;
use std::sync::Wait;
use wl_types::Memory;

/// What the calls of a list are made on. It owns all that they make, so that the list owns nothing.
pub trait Driver {
    /// A call, with its arguments.
    type Call: Debug;

    fn answer<R: Wait>(&mut self, rt: &R, call: &Self::Call) -> Result<String, Memory>;
}

/// Makes the calls in turn, and wants each to answer as its row says.
pub fn assert_rows<D: Driver, R: Wait + Abort>(
    rt: &R,
    driver: &mut D,
    rows: &[(D::Call, &str)],
) -> Result<(), Memory> {
    for (call, wanted) in rows {
        let answer = driver.answer(rt, call)?;
        assert_eq!(rt; answer.as_str(), *wanted, "{call:?}");
    }
    Ok(())
}

/// An answer as Rust shows it.
pub fn show<T: Debug>(alloc: Global, answer: &T) -> Result<String, Memory> {
    Ok(format!(in alloc; "{answer:?}")?)
}
