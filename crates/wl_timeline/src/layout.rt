//! Where everything stands in a picture, in pixels.

use crate::history::History;
use crate::manager::{Request, Step};
use std::alloc::Global;
use wl_types::{Memory, Phase};

/// The left edge of the lines' axis: labels stand before it.
pub(crate) const LEFT: u64 = 150;
/// The axis of the lines is at most so wide. More lines stand closer.
const MOST_WIDTH: u64 = 4000;
/// A line's width, where there is room.
const LINE_WIDTH: u64 = 60;
/// What stands right of the last line: the words of ends.
const RIGHT: u64 = 100;
/// The legend's width.
const LEAST_WIDTH: u64 = 1120;
/// The numbers of lines stand above the first lane.
pub(crate) const TOP: u64 = 44;
/// A lane's first part has its label's stays and faults.
pub(crate) const LANE_HEAD: u64 = 20;
/// A row has a text, a bar and the ticks below it.
pub(crate) const ROW: u64 = 38;
/// A lane ends with a line of space.
const LANE_FOOT: u64 = 18;
/// The legend stands below the last lane.
pub(crate) const FOOT: u64 = 64;
/// The rows of a lane, and the lanes of a picture, at most.
const MOST_ROWS: usize = 100;

pub(crate) const MOST_LANES: usize = 200;
/// A character's width, rounded up.
const CHARACTER: u64 = 7;
/// The characters of a name or a label that are shown.
pub(crate) const MOST_CHARACTERS: usize = 20;

/// Where lines stand.
#[derive(Clone, Copy, Drop)]
pub(crate) struct Scale {
    pub lines: u64,
    pub width: u64,
}

impl Scale {
    pub(crate) fn of(lines: u64) -> Scale {
        let width = lines.saturating_add(1).saturating_mul(LINE_WIDTH);
        Scale {
            lines,
            width: width.min(MOST_WIDTH),
        }
    }

    /// Where a line stands. The first has a line's width before it, and the last behind it.
    pub(crate) fn at(&self, line: u64) -> u64 {
        let whole = self.lines.saturating_add(1);
        let part = line.min(whole).saturating_mul(self.width);
        LEFT.saturating_add(part.checked_div(whole).unwrap_or(0))
    }

    /// The right edge of the axis, to which what hasn't ended reaches.
    pub(crate) fn end(&self) -> u64 {
        LEFT.saturating_add(self.width)
    }

    /// The picture's width.
    pub(crate) fn page(&self) -> u64 {
        self.end().saturating_add(RIGHT).max(LEAST_WIDTH)
    }
}

/// What is said of a request beside its bar, as its last phase: nothing where the bar tells it.
pub(crate) fn end_word(last: &Step) -> &'static str {
    match last.phase {
        Phase::Pending | Phase::Granted | Phase::Taken => "",
        _ if last.by_close => "closed",
        Phase::Released => "released",
        Phase::Aborted(_) => "aborted",
        Phase::Stolen => "stolen",
        Phase::Unavailable => "unavailable",
    }
}

/// How wide a text is, at most.
pub(crate) fn text_width(text: &str) -> u64 {
    (text.len() as u64).saturating_mul(CHARACTER)
}

/// From where to where a request takes up its row: its text, its bar, its end's word and the last line that told of it.
fn extent(scale: &Scale, request: &Request, number: usize) -> (u64, u64) {
    let (Some(first), Some(last)) = (request.steps.first(), request.steps.last()) else {
        return (0, 0);
    };
    let from = scale.at(first.line);
    let report = match request.reports.last() {
        Some(report) => scale.at(report.line).saturating_add(CHARACTER),
        None => 0,
    };
    let end = if last.phase.is_end() {
        scale
            .at(last.line)
            .saturating_add(text_width(end_word(last)))
            .saturating_add(2 * CHARACTER)
    } else {
        scale.end()
    };
    let name = request.name.len().min(4 * MOST_CHARACTERS) as u64;
    let digits = if number < 999 { 4 } else { 8 };
    let text = name
        .saturating_add(digits)
        .saturating_add((request.mode.word().len() + request.option.len()) as u64)
        .saturating_mul(CHARACTER);
    let to = from.saturating_add(text).max(report).max(end);
    (from, to.saturating_add(CHARACTER))
}

/// A request, by the places of its manager and of it there, and its row, if it has one.
#[derive(Clone, Copy, Drop)]
pub(crate) struct Bar {
    pub manager: usize,
    pub request: usize,
    pub row: usize,
}

/// The bars of a lane.
#[derive(Drop)]
pub(crate) struct Rows {
    pub bars: Vec<Bar>,
    /// How many requests found no row.
    pub left_out: u64,
    /// Where the last bar of each row ends.
    ends: Vec<u64>,
}

impl Rows {
    fn new(alloc: Global) -> Rows {
        Rows {
            bars: Vec::new(alloc),
            left_out: 0,
            ends: Vec::new(alloc),
        }
    }

    /// The lane's height.
    pub(crate) fn height(&self) -> u64 {
        (self.ends.len().max(1) as u64)
            .saturating_mul(ROW)
            .saturating_add(LANE_HEAD + LANE_FOOT)
    }

    /// Gives a request the first row in which it meets no other.
    fn place(&mut self, manager: usize, request: usize, from: u64, to: u64) -> Result<(), Memory> {
        let row = first_free(&self.ends, from);
        if row >= MOST_ROWS {
            self.left_out = self.left_out.saturating_add(1);
            return Ok(());
        }
        match self.ends.get_mut(row) {
            Some(end) => *end = to,
            None => self.ends.push(to)?,
        }
        self.bars.push(Bar {
            manager,
            request,
            row,
        })?;
        Ok(())
    }
}

/// The first row that is free from here on; as many as there are, where none is.
fn first_free(ends: &[u64], from: u64) -> usize {
    ends.iter()
        .position(|end| *end <= from)
        .unwrap_or(ends.len())
}

/// The rows of each lane that is drawn.
pub(crate) fn rows_of(
    alloc: Global,
    history: &History,
    scale: &Scale,
) -> Result<Vec<Rows>, Memory> {
    let mut lanes = empty_lanes(alloc, history.lanes.len().min(MOST_LANES))?;
    for (place, manager) in history.managers.iter().enumerate() {
        place_all(&mut lanes, scale, place, &manager.requests)?;
    }
    Ok(lanes)
}

/// So many lanes without requests.
fn empty_lanes(alloc: Global, count: usize) -> Result<Vec<Rows>, Memory> {
    let mut lanes = Vec::new(alloc);
    for _ in 0..count {
        lanes.push(Rows::new(alloc))?;
    }
    Ok(lanes)
}

/// Places the requests of a manager in the lanes of those who asked.
fn place_all(
    lanes: &mut [Rows],
    scale: &Scale,
    manager: usize,
    requests: &[Request],
) -> Result<(), Memory> {
    for (place, request) in requests.iter().enumerate() {
        let (from, to) = extent(scale, request, place);
        if let Some(rows) = lanes.get_mut(request.lane) {
            rows.place(manager, place, from, to)?;
        }
    }
    Ok(())
}
