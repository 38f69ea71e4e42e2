//! What the status shows of the daemon.

use crate::counts::{REASONS, Refused};
use crate::hall::Hall;
use crate::locks::locks_text;
use crate::loop_state::LoopState;
use crate::said::RULES;
use std::alloc::Global;
use std::sync::{Arc, Wait};
use std::time::{Clock, Instant};
use wl_admission::Rules;
use wl_loops::Shared;
use wl_origin::OriginKey;
use wl_service::Service;
use wl_status::{Metric, Metrics, Overview};
use wl_types::Memory;

/// What the status shows of the daemon.
#[derive(Drop)]
pub struct ServerOverview<'a, L> {
    pub alloc: Global,
    pub shared: &'a Shared<Hall<'a, L>>,
    pub service: &'a Service,
    pub loops: &'a Vec<LoopState>,
    pub refused: &'a Refused,
    /// That of all loops, and of the service's clock.
    pub start: Instant,
    /// The same, in seconds since 1970.
    pub started: u64,
}

/// What all loops have counted.
#[derive(Clone, Copy, Debug)]
struct Totals {
    messages: u64,
    pushes: u64,
    grants: u64,
    received: u64,
    sent: u64,
    opened: u64,
    closed: u64,
}

impl<L> ServerOverview<'_, L> {
    fn totals(&self) -> Totals {
        let mut all = Totals {
            messages: 0,
            pushes: 0,
            grants: 0,
            received: 0,
            sent: 0,
            opened: 0,
            closed: 0,
        };
        for event_loop in self.loops {
            let counts = &event_loop.counts;
            all.messages = all.messages.wrapping_add(counts.messages.value());
            all.pushes = all.pushes.wrapping_add(counts.pushes.value());
            all.grants = all.grants.wrapping_add(counts.grants.value());
            all.received = all.received.wrapping_add(counts.received.value());
            all.sent = all.sent.wrapping_add(counts.sent.value());
            all.closed = all.closed.wrapping_add(counts.closed.value());
            all.opened = all.opened.wrapping_add(counts.opened.value());
        }
        all
    }

    /// The replies that named the rule of this place.
    fn refusals(&self, place: usize) -> u64 {
        let mut all: u64 = 0;
        for event_loop in self.loops {
            all = all.wrapping_add(event_loop.counts.by_rule.value(place));
        }
        all
    }

    fn put_connections<R: Wait>(&self, rt: &R, metrics: &mut Metrics) -> Result<(), Memory> {
        let connections = u64::from(self.shared.connections(rt));
        metrics.count(Metric::Connections, connections)?;
        metrics.count(Metric::ConnectionsTotal, self.shared.connections_ever())?;
        for place in 0..REASONS.len() {
            let refused = self.refused.by_reason.value(place);
            metrics.count_by(Metric::HandshakesRefused, REASONS[place], refused)?;
        }
        Ok(())
    }

    fn put_messages(&self, metrics: &mut Metrics) -> Result<(), Memory> {
        let all = self.totals();
        metrics.count(Metric::Messages, all.messages)?;
        for place in 0..RULES.len() {
            metrics.count_by(Metric::Refusals, RULES[place], self.refusals(place))?;
        }
        metrics.count(Metric::Pushes, all.pushes)?;
        metrics.count(Metric::Grants, all.grants)?;
        metrics.count(Metric::ReceivedBytes, all.received)?;
        metrics.count(Metric::SentBytes, all.sent)?;
        metrics.count(Metric::Agents, all.opened.saturating_sub(all.closed))?;
        Ok(())
    }
}

impl<L> Overview for ServerOverview<'_, L> {
    fn is_healthy<R: Wait + Clock>(&self, rt: &R) -> bool {
        self.shared.all_answer(rt)
    }

    fn metrics<R: Wait>(&self, rt: &R) -> Result<Metrics, Memory> {
        let mut metrics = Metrics::new(self.alloc);
        self.put_connections(rt, &mut metrics)?;
        self.put_messages(&mut metrics)?;
        metrics.count(Metric::Managers, self.service.managers(rt) as u64)?;
        metrics.count(Metric::StartTime, self.started)?;
        Ok(metrics)
    }

    fn locks_text<R: Wait + Clock>(
        &self,
        rt: &R,
        origin: Option<&OriginKey>,
    ) -> Result<Vec<u8>, Memory> {
        let now = match Instant::now(rt) {
            Ok(now) => now
                .duration_since(self.start)
                .as_millis()
                .min(u64::MAX as u128) as u64,
            Err(_) => 0,
        };
        let locks = self.service.list_locks(rt, origin, now)?;
        locks_text(self.alloc, &locks)
    }

    fn rules<R: Wait>(&self, rt: &R) -> Result<Arc<Rules, Global>, Memory> {
        Ok(self.shared.rules(rt)?)
    }
}
