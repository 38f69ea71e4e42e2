//! What is counted, in the text format of Prometheus, version 0.0.4.

use std::alloc::{AllocError, Global};
use std::fmt::Write;
use wl_types::Memory;

/// What can be counted.
#[derive(Clone, Copy, Debug, PartialEq, Eq)]
pub enum Metric {
    Connections,
    ConnectionsTotal,
    /// By reason.
    HandshakesRefused,
    Messages,
    /// By rule.
    Refusals,
    Pushes,
    Grants,
    Agents,
    Managers,
    ReceivedBytes,
    SentBytes,
    /// In seconds since 1970.
    StartTime,
}

/// All of them, in the order in which they are written.
const METRICS: [Metric; 12] = [
    Metric::Connections,
    Metric::ConnectionsTotal,
    Metric::HandshakesRefused,
    Metric::Messages,
    Metric::Refusals,
    Metric::Pushes,
    Metric::Grants,
    Metric::Agents,
    Metric::Managers,
    Metric::ReceivedBytes,
    Metric::SentBytes,
    Metric::StartTime,
];

impl Metric {
    /// By Prometheus' rules of naming: the unit is a base unit, and what only grows ends in `_total`.
    fn name(self) -> &'static str {
        match self {
            Metric::Connections => "weblocks_connections",
            Metric::ConnectionsTotal => "weblocks_connections_total",
            Metric::HandshakesRefused => "weblocks_handshakes_refused_total",
            Metric::Messages => "weblocks_messages_total",
            Metric::Refusals => "weblocks_refusals_total",
            Metric::Pushes => "weblocks_pushes_total",
            Metric::Grants => "weblocks_grants_total",
            Metric::Agents => "weblocks_agents",
            Metric::Managers => "weblocks_managers",
            Metric::ReceivedBytes => "weblocks_received_bytes_total",
            Metric::SentBytes => "weblocks_sent_bytes_total",
            Metric::StartTime => "weblocks_start_time_seconds",
        }
    }

    fn help(self) -> &'static str {
        match self {
            Metric::Connections => "Connections that are open.",
            Metric::ConnectionsTotal => "Connections that were accepted.",
            Metric::HandshakesRefused => "Handshakes that were refused.",
            Metric::Messages => "Messages that were answered.",
            Metric::Refusals => "Messages that were answered by an error.",
            Metric::Pushes => "Pushes that were sent.",
            Metric::Grants => "Locks that were granted.",
            Metric::Agents => "Agents that are there.",
            Metric::Managers => "Buckets that have a manager.",
            Metric::ReceivedBytes => "Bytes that connections received.",
            Metric::SentBytes => "Bytes that connections sent.",
            Metric::StartTime => "When the daemon began, since 1970.",
        }
    }

    /// What its samples are told apart by.
    fn label(self) -> &'static str {
        match self {
            Metric::HandshakesRefused => "reason",
            _ => "rule",
        }
    }

    fn kind(self) -> &'static str {
        match self {
            Metric::Connections | Metric::Agents | Metric::Managers | Metric::StartTime => "gauge",
            _ => "counter",
        }
    }
}

/// A number that was counted.
#[derive(Clone, Copy, Debug)]
struct Sample {
    metric: Metric,
    label: Option<&'static str>,
    value: u64,
}

/// The numbers that were counted. What isn't counted isn't there.
#[derive(Debug, Drop)]
pub struct Metrics {
    samples: Vec<Sample>,
}

impl Metrics {
    /// Nothing was counted yet.
    pub fn new(alloc: Global) -> Metrics {
        Metrics {
            samples: Vec::new(alloc),
        }
    }

    /// Adds a number that has no label.
    pub fn count(&mut self, metric: Metric, value: u64) -> Result<(), AllocError> {
        let label = None;
        self.samples.push(Sample {
            metric,
            label,
            value,
        })?;
        Ok(())
    }

    /// Adds the number of one reason or rule, of a metric that is counted by those. The label is a plain word: it has
    /// no quote, no backslash and no line break.
    pub fn count_by(
        &mut self,
        metric: Metric,
        label: &'static str,
        value: u64,
    ) -> Result<(), AllocError> {
        let label = Some(label);
        self.samples.push(Sample {
            metric,
            label,
            value,
        })?;
        Ok(())
    }

    /// The text that Prometheus reads: the samples of a metric together, behind what it is.
    pub(crate) fn text(&self, alloc: Global) -> Result<String, Memory> {
        let mut text = String::new(alloc);
        for metric in METRICS {
            self.write_family(&mut text, metric)?;
        }
        Ok(text)
    }

    fn write_family(&self, text: &mut String, metric: Metric) -> Result<(), Memory> {
        let name = metric.name();
        let mut is_first = true;
        for sample in &self.samples {
            if sample.metric != metric {
                continue;
            }
            if is_first {
                let (help, kind) = (metric.help(), metric.kind());
                write!(text, "# HELP {name} {help}\n# TYPE {name} {kind}\n")?;
                is_first = false;
            }
            let value = sample.value;
            match sample.label {
                Some(label) => {
                    let key = metric.label();
                    write!(text, "{name}{{{key}=\"{label}\"}} {value}\n")?;
                }
                None => write!(text, "{name} {value}\n")?,
            }
        }
        Ok(())
    }
}
