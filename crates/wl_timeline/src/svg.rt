//! The picture as a whole: its head, the axis of lines, the lanes, and its legend.

use crate::bars::draw_bar;
use crate::escaping::{escape, escape_front};
use crate::history::{History, Lane, Stay};
use crate::layout::{
    FOOT, LANE_HEAD, LEFT, MOST_CHARACTERS, MOST_LANES, ROW, Rows, Scale, TOP, rows_of,
};
use crate::manager::Manager;
use crate::naming::{manager_name, manager_text};
use crate::sayings::Fault;
use crate::style::{LEGEND, STYLE};
use std::alloc::Global;
use std::fmt::Write;
use wl_types::Memory;

/// The steps of the axis: the first is taken whose lines stand so far apart that their numbers can be read.
const STEPS: [u64; 15] = [
    1, 2, 5, 10, 20, 50, 100, 200, 500, 1000, 2000, 5000, 10_000, 100_000, 1_000_000,
];
/// How far apart the numbers of lines stand at least.
const APART: u64 = 40;

/// The picture of a history.
pub(crate) fn draw(alloc: Global, history: &History) -> Result<String, Memory> {
    let scale = Scale::of(history.lines);
    let lanes = rows_of(alloc, history, &scale)?;
    let bottom = bottom_of(&lanes);
    let mut out = String::new(alloc);
    draw_head(&mut out, history, &scale, bottom)?;
    draw_axis(&mut out, &scale, bottom)?;
    draw_faults(alloc, &mut out, &scale, &history.unread, TOP - 10)?;
    draw_lanes(alloc, &mut out, history, &scale, &lanes)?;
    draw_foot(&mut out, history, bottom)?;
    Ok(out)
}

/// The lower edge of the last lane.
fn bottom_of(lanes: &[Rows]) -> u64 {
    let mut bottom = TOP;
    for rows in lanes {
        bottom = bottom.saturating_add(rows.height());
    }
    bottom
}

/// The beginning of the document, with its title and its background.
fn draw_head(
    out: &mut String,
    history: &History,
    scale: &Scale,
    bottom: u64,
) -> Result<(), Memory> {
    let (width, height) = (scale.page(), bottom.saturating_add(FOOT));
    let (lines, labels) = (history.lines, history.lanes.len());
    let requests = count_requests(&history.managers);
    write!(
        out,
        "<svg xmlns=\"http://www.w3.org/2000/svg\" role=\"img\" aria-labelledby=\"title\" width=\"{width}\" height=\"{height}\""
    )?;
    write!(
        out,
        " viewBox=\"0 0 {width} {height}\">\n<title id=\"title\">Timeline of a script: "
    )?;
    write!(
        out,
        "{lines} lines, {labels} labels, {requests} requests</title>\n<style>\n{STYLE}</style>\n"
    )?;
    write!(
        out,
        "<rect class=\"paper\" width=\"{width}\" height=\"{height}\"/>\n"
    )?;
    Ok(())
}

fn count_requests(managers: &[Manager]) -> u64 {
    let mut count: u64 = 0;
    for manager in managers {
        count = count.saturating_add(manager.requests.len() as u64);
    }
    count
}

/// How many lines there are from one number on the axis to the next.
fn step_of(scale: &Scale) -> u64 {
    for step in STEPS {
        if scale.at(step).saturating_sub(LEFT) >= APART {
            return step;
        }
    }
    10_000_000
}

/// The numbers of lines, and a rule for each of these through all lanes.
fn draw_axis(out: &mut String, scale: &Scale, bottom: u64) -> Result<(), Memory> {
    out.push_str("<text class=\"quiet\" x=\"12\" y=\"24\">line</text>\n")?;
    let step = step_of(scale);
    let count = scale.lines.checked_div(step).unwrap_or(0);
    for n in 0..count {
        let line = n.saturating_add(1).saturating_mul(step);
        let x = scale.at(line);
        write!(
            out,
            "<path class=\"grid\" d=\"M{x} {TOP}V{bottom}\"/><text class=\"quiet\" text-anchor=\"middle\" x=\"{x}\" y=\"24\">{line}</text>\n"
        )?;
    }
    Ok(())
}

fn draw_lanes(
    alloc: Global,
    out: &mut String,
    history: &History,
    scale: &Scale,
    lanes: &[Rows],
) -> Result<(), Memory> {
    let mut top = TOP;
    for (lane, rows) in history.lanes.iter().zip(lanes) {
        draw_lane(alloc, out, history, scale, lane, rows, top)?;
        top = top.saturating_add(rows.height());
    }
    Ok(())
}

/// A lane, whose upper edge is given.
fn draw_lane(
    alloc: Global,
    out: &mut String,
    history: &History,
    scale: &Scale,
    lane: &Lane,
    rows: &Rows,
    top: u64,
) -> Result<(), Memory> {
    draw_label(alloc, out, scale, lane, top)?;
    if let Some(stay) = lane.stays.last() {
        draw_origin(alloc, out, history, stay, top.saturating_add(31))?;
    }
    let middle = top.saturating_add(10);
    draw_stays(alloc, out, history, scale, &lane.stays, middle)?;
    draw_faults(alloc, out, scale, &lane.faults, middle)?;
    for bar in &rows.bars {
        let row = (bar.row as u64).saturating_mul(ROW);
        let y = top.saturating_add(LANE_HEAD).saturating_add(row);
        draw_bar(alloc, out, history, scale, bar, y)?;
    }
    if rows.left_out > 0 {
        let (more, y) = (rows.left_out, top.saturating_add(rows.height()));
        let y = y.saturating_sub(4);
        write!(
            out,
            "<text class=\"quiet\" x=\"{LEFT}\" y=\"{y}\">{more} more requests are not drawn</text>\n"
        )?;
    }
    Ok(())
}

fn draw_stays(
    alloc: Global,
    out: &mut String,
    history: &History,
    scale: &Scale,
    stays: &[Stay],
    y: u64,
) -> Result<(), Memory> {
    for stay in stays {
        draw_stay(alloc, out, history, scale, stay, y)?;
    }
    Ok(())
}

fn draw_faults(
    alloc: Global,
    out: &mut String,
    scale: &Scale,
    faults: &[Fault],
    y: u64,
) -> Result<(), Memory> {
    for fault in faults {
        draw_fault(alloc, out, scale, fault, y)?;
    }
    Ok(())
}

/// The upper edge of a lane, and its label.
fn draw_label(
    alloc: Global,
    out: &mut String,
    scale: &Scale,
    lane: &Lane,
    top: u64,
) -> Result<(), Memory> {
    let (end, y) = (scale.page(), top.saturating_add(15));
    let whole = escape(alloc, lane.label.as_str())?;
    let front = escape_front(alloc, lane.label.as_str(), MOST_CHARACTERS - 4)?;
    write!(
        out,
        "<path class=\"edge\" d=\"M0 {top}H{end}\"/><text class=\"label\" x=\"12\" y=\"{y}\"><title>{whole}</title>{front}</text>\n"
    )?;
    Ok(())
}

/// Where the label was last, below it: requests of two lanes wait for each other at one manager alone.
fn draw_origin(
    alloc: Global,
    out: &mut String,
    history: &History,
    stay: &Stay,
    y: u64,
) -> Result<(), Memory> {
    let Some((place, _)) = stay.client else {
        return Ok(());
    };
    if let Some(manager) = history.managers.get(place) {
        let name = manager_name(alloc, manager)?;
        let front = escape_front(alloc, name.as_str(), MOST_CHARACTERS)?;
        write!(
            out,
            "<text class=\"quiet\" x=\"12\" y=\"{y}\">{front}</text>\n"
        )?;
    }
    Ok(())
}

/// From where to where the label was an agent.
fn draw_stay(
    alloc: Global,
    out: &mut String,
    history: &History,
    scale: &Scale,
    stay: &Stay,
    y: u64,
) -> Result<(), Memory> {
    let (from, start) = (stay.from, scale.at(stay.from));
    let end = match stay.to {
        Some(line) => scale.at(line),
        None => scale.end(),
    };
    write!(
        out,
        "<g class=\"agent\" data-from=\"{from}\"><title>opened at line {from}"
    )?;
    put_client(alloc, out, history, stay)?;
    if let Some(line) = stay.to {
        write!(out, "; closed at line {line}")?;
    }
    write!(
        out,
        "</title><path class=\"stay\" d=\"M{start} {y}H{end}\"/></g>\n"
    )?;
    Ok(())
}

/// What the label is: a client of a manager.
fn put_client(
    alloc: Global,
    out: &mut String,
    history: &History,
    stay: &Stay,
) -> Result<(), Memory> {
    let Some((place, number)) = stay.client else {
        out.push_str(" at an opaque origin")?;
        return Ok(());
    };
    if let Some(manager) = history.managers.get(place) {
        let origin = manager_text(alloc, manager)?;
        write!(out, " as client-{number} of {origin}")?;
    }
    Ok(())
}

/// A line that was answered by an error.
fn draw_fault(
    alloc: Global,
    out: &mut String,
    scale: &Scale,
    fault: &Fault,
    y: u64,
) -> Result<(), Memory> {
    let (line, x) = (fault.line, scale.at(fault.line));
    let name = escape(alloc, fault.name.as_str())?;
    let rule = escape(alloc, fault.rule.as_str())?;
    write!(
        out,
        "<path class=\"fault\" data-line=\"{line}\" transform=\"translate({x} {y})\" d=\"M0-6 6 0 0 6-6 0Z\">"
    )?;
    write!(out, "<title>line {line}: {name}, {rule}</title></path>\n")?;
    Ok(())
}

/// The lower edge, the legend, and the document's end.
fn draw_foot(out: &mut String, history: &History, bottom: u64) -> Result<(), Memory> {
    let y = bottom.saturating_add(40);
    write!(out, "<g transform=\"translate(12 {y})\">\n{LEGEND}</g>\n")?;
    let labels = history.lanes.len();
    if labels > MOST_LANES {
        let (more, y) = (labels - MOST_LANES, bottom.saturating_add(14));
        write!(
            out,
            "<text class=\"quiet\" x=\"12\" y=\"{y}\">{more} more labels are not drawn</text>\n"
        )?;
    }
    out.push_str("</svg>\n")?;
    Ok(())
}
