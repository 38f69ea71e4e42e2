//! Lists of calls, each with what it is to answer.
//!
//! A line is a call, an arrow and its answer: `due 30000 -> Ping`.

use std::alloc::Global;
use std::process::Abort;
use std::sync::Wait;
use std::test::Fail;

/// What does the calls of a list.
pub trait Scene: Sized + Drop {
    fn new(alloc: Global) -> Self;

    /// Does a call, and adds its answer.
    fn call<R: Wait>(&mut self, rt: &R, call: &str, came: &mut String) -> Result<(), Fail>;
}

/// Wants each list to come out as it is written, each in a new scene.
pub fn assert_lists<S: Scene, R: Wait + Abort>(
    rt: &R,
    alloc: Global,
    lists: &[&str],
) -> Result<(), Fail> {
    for list in lists {
        let mut scene = S::new(alloc);
        let mut came = String::new(alloc);
        do_calls(rt, &mut scene, list, &mut came)?;
        assert_eq!(rt; came.as_str(), *list);
    }
    Ok(())
}

fn do_calls<S: Scene, R: Wait>(
    rt: &R,
    scene: &mut S,
    list: &str,
    came: &mut String,
) -> Result<(), Fail> {
    for line in list.lines() {
        if let Some((call, _)) = line.split_once(" -> ") {
            write!(came, "{call} -> ")?;
            scene.call(rt, call, came)?;
            came.push('\n')?;
        }
    }
    Ok(())
}

/// The word at a place of a call.
pub fn word(call: &str, place: usize) -> &str {
    call.split(' ').nth(place).unwrap_or("")
}

/// What stands behind the first word of a call.
pub fn rest(call: &str) -> &str {
    match call.split_once(' ') {
        Some((_, rest)) => rest,
        None => "",
    }
}
