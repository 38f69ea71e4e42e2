//! Answering requests.

use crate::admission::Admission;
use crate::overview::Overview;
use crate::page::{PAGE, POLICY};
use crate::routing::{Head, Refusal, Route, find_route, health_status};
use bytes::{BufMut, Bytes};
use http::{HeaderMap, HeaderName, HeaderValue, Request, StatusCode};
use http_server::{Response, Service};
use std::alloc::{AllocError, Global};
use std::sync::Wait;
use std::time::Clock;
use wl_origin::OriginKey;
use wl_types::Memory;

/// Answers the requests of all connections.
#[derive(Drop)]
pub(crate) struct Answerer<'a, R: Wait + Clock, O: Overview> {
    pub alloc: Global,
    pub rt: &'a R,
    pub admission: &'a Admission,
    pub overview: &'a O,
}

impl<R: Wait + Clock, O: Overview> Service for Answerer<'_, R, O> {
    ghost answers = { λ _ _ _ _. Unit {0} };

    fn call(
        &mut self,
        request: &Request<Bytes>,
        response: &mut Response,
    ) -> Result<(), AllocError> {
        set_guards(self.alloc, response)?;
        match self.route(request) {
            Ok(Route::Health) => self.answer_health(response),
            Ok(Route::Metrics) => self.answer_metrics(response),
            Ok(Route::Locks(origin)) => self.answer_locks(response, origin.as_ref()),
            Ok(Route::Page) => {
                set_type(
                    response,
                    HeaderValue::from_static("text/html; charset=utf-8"),
                )?;
                response.body.push(Bytes::from_static(PAGE.as_bytes()))
            }
            Err(why) => refuse(response, why),
        }
    }
}

impl<R: Wait + Clock, O: Overview> Answerer<'_, R, O> {
    fn route(&self, request: &Request<Bytes>) -> Result<Route, Refusal> {
        let Ok(rules) = self.overview.rules(self.rt) else {
            return Err(Refusal::Memory);
        };
        let uri = request.uri();
        let hosts = values_of(self.alloc, request.headers(), "host")?;
        let authorizations = values_of(self.alloc, request.headers(), "authorization")?;
        let head = Head {
            method: request.method().as_str(),
            is_origin_form: uri.scheme_str().is_none() && uri.authority().is_none(),
            path: uri.path(),
            query: uri.query(),
            hosts: hosts.as_slice(),
            authorizations: authorizations.as_slice(),
        };
        let wanted = self.admission.required_tokens(rules.tokens.as_ref());
        find_route(self.alloc, &self.admission.hosts, wanted, &head)
    }

    fn answer_health(&self, response: &mut Response) -> Result<(), AllocError> {
        let is_healthy = self.overview.is_healthy(self.rt);
        set_status(response, health_status(is_healthy));
        set_type(
            response,
            HeaderValue::from_static("text/plain; charset=utf-8"),
        )?;
        let text = if is_healthy {
            "ok\n"
        } else {
            "an event loop hangs\n"
        };
        response.body.put_slice(text.as_bytes())
    }

    fn answer_metrics(&self, response: &mut Response) -> Result<(), AllocError> {
        match self.metrics_text() {
            Ok(text) => {
                set_type(
                    response,
                    HeaderValue::from_static("text/plain; version=0.0.4; charset=utf-8"),
                )?;
                response.body.push(text)
            }
            Err(Memory) => refuse(response, Refusal::Memory),
        }
    }

    fn metrics_text(&self) -> Result<Bytes, Memory> {
        let metrics = self.overview.metrics(self.rt)?;
        Ok(Bytes::from_string(metrics.text(self.alloc)?)?)
    }

    fn answer_locks(
        &self,
        response: &mut Response,
        origin: Option<&OriginKey>,
    ) -> Result<(), AllocError> {
        match self.locks_text(origin) {
            Ok(text) => {
                set_type(response, HeaderValue::from_static("application/json"))?;
                response.body.push(text)
            }
            Err(Memory) => refuse(response, Refusal::Memory),
        }
    }

    fn locks_text(&self, origin: Option<&OriginKey>) -> Result<Bytes, Memory> {
        Ok(Bytes::from_vec(self.overview.locks_text(self.rt, origin)?)?)
    }
}

/// The values of a header.
fn values_of<'a>(
    alloc: Global,
    headers: &'a HeaderMap<HeaderValue>,
    name: &str,
) -> Result<Vec<&'a [u8]>, AllocError> {
    let mut values = Vec::new(alloc);
    for value in headers.get_all(name) {
        values.push(value.as_bytes())?;
    }
    Ok(values)
}

/// What every answer says: nobody keeps it, nobody takes it for another type, and it runs no script but the page's own.
fn set_guards(alloc: Global, response: &mut Response) -> Result<(), AllocError> {
    response.add_header(
        HeaderName::from_static("cache-control"),
        HeaderValue::from_static("no-store"),
    )?;
    response.add_header(
        HeaderName::from_static("x-content-type-options"),
        HeaderValue::from_static("nosniff"),
    )?;
    let Ok(policy) = HeaderValue::from_str(alloc, POLICY) else {
        return Err(AllocError);
    };
    response.add_header(HeaderName::from_static("content-security-policy"), policy)
}

fn set_type(response: &mut Response, kind: HeaderValue) -> Result<(), AllocError> {
    response.add_header(HeaderName::from_static("content-type"), kind)
}

fn set_status(response: &mut Response, status: u16) {
    response.status = match StatusCode::from_u16(status) {
        Ok(status) => status,
        Err(_) => StatusCode::INTERNAL_SERVER_ERROR,
    };
}

/// Answers by a refusal.
fn refuse(response: &mut Response, why: Refusal) -> Result<(), AllocError> {
    set_status(response, why.status());
    match why {
        Refusal::NoToken => response.add_header(
            HeaderName::from_static("www-authenticate"),
            HeaderValue::from_static("Basic realm=\"weblocks\", Bearer realm=\"weblocks\""),
        )?,
        Refusal::WrongMethod => response.add_header(
            HeaderName::from_static("allow"),
            HeaderValue::from_static("GET, HEAD"),
        )?,
        _ => {}
    }
    set_type(
        response,
        HeaderValue::from_static("text/plain; charset=utf-8"),
    )?;
    response.body.put_slice(why.text().as_bytes())
}
