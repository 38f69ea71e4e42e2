//! Values by number.

use std::alloc::Global;
use std::test::Fail;
use wl_number_map::NumberMap;
use wl_test_support::fail_refused;
use wl_types::Memory;

/// Does the calls of a list on a new map, a call a line, and gives the list as it came out. A line is a call, an arrow
/// and its answer. The calls are `insert NUMBER VALUE`, `set NUMBER VALUE` (where there is one), `get NUMBER`,
/// `remove NUMBER`, `has NUMBER`, `len`, `rows` and `clear`.
fn do_list(alloc: Global, list: &str) -> Result<String, Memory> {
    let mut map = NumberMap::new(alloc);
    let mut came = String::new(alloc);
    for line in list.lines() {
        let (call, _) = line.split_once(" -> ").unwrap_or((line, ""));
        let answer = do_call(alloc, &mut map, call)?;
        write!(came, "{call} -> {answer}\n")?;
    }
    Ok(came)
}

fn do_call(alloc: Global, map: &mut NumberMap<u64>, call: &str) -> Result<String, Memory> {
    let (word, rest) = call.split_once(' ').unwrap_or((call, ""));
    let (number, value) = rest.split_once(' ').unwrap_or((rest, ""));
    let number = number.parse::<u64>().unwrap_or(0);
    let value = value.parse::<u64>().unwrap_or(0);
    match word {
        "rows" => rows(alloc, map),
        "has" => Ok(format!(in alloc; "{}", map.contains(number))?),
        "insert" => show_value(alloc, map.insert(number, value)?),
        "set" => show_value(alloc, set(map, number, value)),
        "remove" => show_value(alloc, map.remove(number)),
        "get" => show_value(alloc, map.get(number).copied()),
        _ => length(alloc, map, word == "clear"),
    }
}

fn show_value(alloc: Global, value: Option<u64>) -> Result<String, Memory> {
    match value {
        Some(value) => Ok(format!(in alloc; "{value}")?),
        None => Ok("none".to_string(alloc)?),
    }
}

/// Puts the value at a number that has one, and gives it.
fn set(map: &mut NumberMap<u64>, number: u64, value: u64) -> Option<u64> {
    let place = map.get_mut(number)?;
    *place = value;
    Some(value)
}

fn length(alloc: Global, map: &mut NumberMap<u64>, is_cleared: bool) -> Result<String, Memory> {
    if is_cleared {
        map.clear();
    }
    Ok(format!(in alloc; "{}", map.len())?)
}

fn rows(alloc: Global, map: &NumberMap<u64>) -> Result<String, Memory> {
    let mut text = String::new(alloc);
    for (number, value) in map.rows(alloc)? {
        write!(text, "{number}:{},", *value)?;
    }
    Ok(text)
}

/// More than the few that stand together.
const MANY: &str = "\
insert 7 49 -> none
insert 2 4 -> none
insert 9 81 -> none
insert 4 16 -> none
insert 30 900 -> none
insert 21 441 -> none
insert 5 25 -> none
len -> 7
has 2 -> true
has 21 -> true
has 3 -> false
get 7 -> 49
get 2 -> 4
get 9 -> 81
get 4 -> 16
get 30 -> 900
get 21 -> 441
get 5 -> 25
get 3 -> none
set 9 8 -> 8
set 21 20 -> 20
set 3 1 -> none
get 9 -> 8
get 21 -> 20
get 3 -> none
";

/// Among the few there is room again when 5 comes anew, and it stands elsewhere already.
const COME_AND_GO: &str = "\
insert 7 49 -> none
insert 2 4 -> none
insert 9 81 -> none
insert 4 16 -> none
insert 30 900 -> none
insert 21 441 -> none
insert 5 25 -> none
insert 7 1 -> 49
insert 21 2 -> 441
insert 3 5 -> none
remove 7 -> 1
remove 7 -> none
remove 21 -> 2
insert 5 6 -> 25
len -> 6
remove 2 -> 4
rows -> 3:5,4:16,5:6,9:81,30:900,
clear -> 0
get 2 -> none
";

/// All that are there go, and others come.
const OTHERS: &str = "\
insert 7 49 -> none
insert 2 4 -> none
insert 9 81 -> none
insert 4 16 -> none
insert 30 900 -> none
insert 21 441 -> none
insert 5 25 -> none
remove 7 -> 49
remove 2 -> 4
remove 9 -> 81
remove 4 -> 16
remove 30 -> 900
remove 21 -> 441
remove 5 -> 25
len -> 0
insert 0 0 -> none
insert 1 1 -> none
insert 2 2 -> none
insert 3 3 -> none
insert 4 4 -> none
insert 5 5 -> none
insert 6 6 -> none
insert 7 7 -> none
insert 8 8 -> none
len -> 9
get 8 -> 8
";

#[test]
fn values_are_found_by_number(rt: HostRuntime) -> Result<(), Fail> {
    for list in [MANY, COME_AND_GO, OTHERS] {
        assert_eq!(rt; do_list(rt.alloc(), list)?.as_str(), list);
    }
    Ok(())
}

/// Puts a value at a number. Refused memory, the map is as it was, and the value is put when it is asked again.
fn try_insert(map: &mut NumberMap<u64>, number: u64) -> Result<(), Fail> {
    let count = map.len();
    if map.insert(number, number).is_ok() {
        return Ok(());
    }
    let is_as_before = map.len() == count && !map.contains(number) && map.contains(2);
    fail_refused(is_as_before && map.insert(number, number)? == None)
}

fn try_inserts(map: &mut NumberMap<u64>) -> Result<(), Fail> {
    map.insert(2, 4)?;
    for number in 3..40 {
        try_insert(map, number)?;
    }
    Ok(())
}

#[test]
fn a_refused_growth_leaves_the_map_as_it_was(rt: HostRuntime) -> Result<(), Fail> {
    try_inserts(&mut NumberMap::new(rt.alloc()))
}
