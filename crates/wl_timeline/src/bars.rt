//! The bar of one request.

use crate::escaping::{escape, escape_front};
use crate::history::History;
use crate::layout::{Bar, MOST_CHARACTERS, Scale, end_word};
use crate::manager::{Request, Step};
use crate::naming::manager_text;
use crate::style::end_shape;
use std::alloc::Global;
use std::fmt::Write;
use wl_types::{Memory, Phase};

/// Draws a request: its text, a bar for each phase that lasted, its end, and when its agent was told.
pub(crate) fn draw_bar(
    alloc: Global,
    out: &mut String,
    history: &History,
    scale: &Scale,
    bar: &Bar,
    y: u64,
) -> Result<(), Memory> {
    let Some(manager) = history.managers.get(bar.manager) else {
        return Ok(());
    };
    let (Some(request), number) = (
        manager.requests.get(bar.request),
        (bar.request as u64).saturating_add(1),
    ) else {
        return Ok(());
    };
    let origin = manager_text(alloc, manager)?;
    write!(
        out,
        "<g class=\"request\" data-request=\"{number}\" data-manager=\"{origin}\""
    )?;
    put_request(alloc, out, history, request, number)?;
    draw_text(alloc, out, scale, request, number, y.saturating_add(11))?;
    let top = y.saturating_add(15);
    draw_phases(out, scale, request, number, top)?;
    draw_end(out, scale, request, number, top.saturating_add(6))?;
    draw_reports(out, scale, request, number, top.saturating_add(13))?;
    out.push_str("</g>\n")?;
    Ok(())
}

/// What a request is, and its whole course in words.
fn put_request(
    alloc: Global,
    out: &mut String,
    history: &History,
    request: &Request,
    number: u64,
) -> Result<(), Memory> {
    let name = escape(alloc, request.name.as_str())?;
    let label = match history.lanes.get(request.lane) {
        Some(lane) => escape(alloc, lane.label.as_str())?,
        None => String::new(alloc),
    };
    let (mode, option) = (request.mode.word(), request.option);
    write!(
        out,
        " data-label=\"{label}\" data-name=\"{name}\" data-mode=\"{mode}\">"
    )?;
    write!(out, "<title>request {number}: {name}, {mode}{option}")?;
    for step in &request.steps {
        let (word, line) = (step_word(step), step.line);
        write!(out, "; {word} at line {line}")?;
    }
    put_reports(out, &request.reports)?;
    out.push_str("</title>")?;
    Ok(())
}

/// What its agent was told, in words.
fn put_reports(out: &mut String, reports: &[Step]) -> Result<(), Memory> {
    for report in reports {
        let (word, line) = (report_word(report), report.line);
        write!(out, "; told {word} at line {line}")?;
    }
    Ok(())
}

/// The word of a phase, or of an end.
fn step_word(step: &Step) -> &'static str {
    match step.phase {
        Phase::Pending => "pending",
        Phase::Granted => "granted",
        Phase::Taken => "taken",
        _ => end_word(step),
    }
}

/// The word by which a reply tells of a phase.
fn report_word(report: &Step) -> &'static str {
    match report.phase {
        Phase::Taken => "granted",
        _ => step_word(report),
    }
}

/// The text above a bar.
fn draw_text(
    alloc: Global,
    out: &mut String,
    scale: &Scale,
    request: &Request,
    number: u64,
    y: u64,
) -> Result<(), Memory> {
    let Some(first) = request.steps.first() else {
        return Ok(());
    };
    let x = scale.at(first.line);
    let name = escape_front(alloc, request.name.as_str(), MOST_CHARACTERS)?;
    let (mode, option) = (request.mode.word(), request.option);
    write!(
        out,
        "<text x=\"{x}\" y=\"{y}\">{number} {name} <tspan class=\"quiet\">{mode}{option}</tspan></text>"
    )?;
    Ok(())
}

/// A bar for each phase that lasted: to the line of the next phase, or to the end.
fn draw_phases(
    out: &mut String,
    scale: &Scale,
    request: &Request,
    number: u64,
    y: u64,
) -> Result<(), Memory> {
    for (place, step) in request.steps.iter().enumerate() {
        let next = request.steps.get(place.saturating_add(1));
        draw_phase(out, scale, step, next, number, y)?;
    }
    Ok(())
}

fn draw_phase(
    out: &mut String,
    scale: &Scale,
    step: &Step,
    next: Option<&Step>,
    number: u64,
    y: u64,
) -> Result<(), Memory> {
    let (word, from, x) = (step_word(step), step.line, scale.at(step.line));
    let end = match next {
        Some(next) if next.line > from => scale.at(next.line),
        None if !step.phase.is_end() => scale.end(),
        _ => return Ok(()),
    };
    let width = end.saturating_sub(x).max(1);
    write!(
        out,
        "<rect class=\"{word}\" data-request=\"{number}\" data-phase=\"{word}\" data-from=\"{from}\""
    )?;
    if let Some(next) = next {
        let to = next.line;
        write!(out, " data-to=\"{to}\"")?;
    }
    write!(
        out,
        " x=\"{x}\" y=\"{y}\" width=\"{width}\" height=\"12\"/>"
    )?;
    Ok(())
}

/// How a request ended.
fn draw_end(
    out: &mut String,
    scale: &Scale,
    request: &Request,
    number: u64,
    y: u64,
) -> Result<(), Memory> {
    let last = match request.steps.last() {
        Some(last) if last.phase.is_end() => last,
        _ => return Ok(()),
    };
    let (word, line, x) = (end_word(last), last.line, scale.at(last.line));
    let shape = end_shape(word);
    write!(
        out,
        "<path class=\"end {word}\" data-request=\"{number}\" data-end=\"{word}\" data-line=\"{line}\""
    )?;
    write!(out, " transform=\"translate({x} {y})\" d=\"{shape}\"/>")?;
    let (x, y) = (x.saturating_add(9), y.saturating_add(4));
    write!(
        out,
        "<text class=\"quiet\" x=\"{x}\" y=\"{y}\">{word}</text>"
    )?;
    Ok(())
}

/// The lines at which the agent was told, and how far each was behind.
fn draw_reports(
    out: &mut String,
    scale: &Scale,
    request: &Request,
    number: u64,
    y: u64,
) -> Result<(), Memory> {
    for report in &request.reports {
        let (word, line, x) = (report_word(report), report.line, scale.at(report.line));
        write!(
            out,
            "<path class=\"told\" data-request=\"{number}\" data-told=\"{word}\" data-line=\"{line}\""
        )?;
        write!(out, " transform=\"translate({x} {y})\" d=\"M0 0-4 8H4Z\"/>")?;
    }
    if let (Some(last), Some(report)) = (request.steps.last(), request.reports.last()) {
        let (from, to, y) = (
            scale.at(last.line),
            scale.at(report.line),
            y.saturating_add(4),
        );
        if to > from {
            write!(out, "<path class=\"late\" d=\"M{from} {y}H{to}\"/>")?;
        }
    }
    Ok(())
}
