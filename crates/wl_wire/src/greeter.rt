//! How a handshake is answered.

ghost use Rattle.std.specs.Prelude.{
  ◌≡◌,
  ◌⊎◌,
  ℕ,
  List,
  map,
  IfErr,
  IfOk,
  IfSome,
  IsSomeAnd,
  OnOk,
  Err,
  None,
  Some,
};
ghost use Rattle.std.specs.Arc.{arc_value};
ghost use Rattle.http.specs.Request as asked;
ghost use Rattle.http.specs.Response.{head_of};
ghost use Rattle.wl_admission.specs.Handshakes.{status_of};
ghost use Rattle.wl_admission.specs.declared.rejection.Rejection.TheVariants.{BadHeader, Memory, NoPlace};
ghost use Rattle.wl_wire.specs.Greetings.{Accepts, Judges, Refuses, selecting, values_of};
ghost use Rattle.wl_admission.specs.declared.rejection.Rejection.{Rejection};

use http::header::HeaderMapError;
use http::{HeaderMap, HeaderName, HeaderValue, Request, Response, StatusCode};
use std::alloc::Global;
use std::sync::{Arc, OnceLock};
use tungstenite::Callback;
use tungstenite::handshake::server::ErrorResponse;
use wl_admission::{Admitted, Hello, Rejection, Rules, Subprotocol, admit};

/// Answers one handshake. What came of it stands in `verdict` from then on.
#[derive(Drop)]
pub struct Greeter {
    pub alloc: Global,
    /// None where there is no place for the connection.
    pub rules: Option<Arc<Rules, Global>>,
    /// The request's target, once its line has come.
    pub target: Arc<OnceLock<String>, Global>,
    pub verdict: Arc<OnceLock<Result<Admitted, Rejection>>, Global>,
}

/// The values of a header; none where one is no text.
fn values<'a>(
    alloc: Global,
    headers: &'a HeaderMap,
    name: HeaderName,
) -> Result<Vec<&'a str>, Rejection>
    ensures texts { IfOk result (λ found. map (λ text. text.now) found.items ≡ values_of headers.now name) }
    ensures none { IfErr result (λ reason. (reason ≡ BadHeader) ⊎ (reason ≡ Memory)) }
{
    let mut found = Vec::new(alloc);
    for value in headers.get_all(name) {
        let Ok(text) = value.to_str() else {
            return Err(Rejection::BadHeader);
        };
        if found.push(text).is_err() {
            return Err(Rejection::Memory);
        }
    }
    Ok(found)
}

/// What comes of a handshake with this target and these headers.
fn judge_by(
    alloc: Global,
    rules: &Rules,
    target: &str,
    headers: &HeaderMap,
) -> Result<Admitted, Rejection>
    ensures { Judges rules.now target.now headers.now result }
{
    let origins = values(alloc, headers, HeaderName::from_static("origin"))?;
    let authorizations = values(alloc, headers, HeaderName::from_static("authorization"))?;
    let subprotocols = values(
        alloc,
        headers,
        HeaderName::from_static("sec-websocket-protocol"),
    )?;
    let hello = Hello {
        target,
        origins: origins.as_slice(),
        authorizations: authorizations.as_slice(),
        subprotocols: subprotocols.as_slice(),
    };
    admit(alloc, &hello, rules)
}

impl Greeter {
    fn judge(&self, headers: &HeaderMap) -> Result<Admitted, Rejection>
        ensures none { self.now.rules ≡ None → result ≡ Err NoPlace }
        ensures some { IfSome self.now.rules (λ rules. (target : List ℕ) × Judges (arc_value rules) target headers.now
            result) }
    {
        let Some(rules) = &self.rules else {
            return Err(Rejection::NoPlace);
        };
        // The line has come, so that only memory can have been wanting.
        let Some(target) = self.target.get() else {
            return Err(Rejection::Memory);
        };
        judge_by(self.alloc, rules, target.as_str(), headers)
    }

    /// Whoever was admitted, once the answer says which subprotocol is selected.
    fn accept(
        &self,
        headers: &HeaderMap,
        response: &mut Response<()>,
    ) -> Result<Admitted, Rejection>
        ensures admitted { OnOk result (IsSomeAnd self.now.rules (λ rules. Accepts (arc_value rules) headers.now
            (head_of response.old).headers (head_of response.new).headers)) }
        ensures refused { IfErr result (λ reason. IfSome self.now.rules (λ rules. Refuses (arc_value rules) headers.now
            reason)) }
    {
        let admitted = self.judge(headers)?;
        if let Some(subprotocol) = admitted.selected {
            if select(response, subprotocol).is_err() {
                return Err(Rejection::Memory);
            }
        }
        Ok(admitted)
    }

    fn refusal(&self, rejection: Rejection) -> ErrorResponse
        ensures { (head_of result).status ≡ status_of rejection }
    {
        let body = String::from_str(self.alloc, rejection.text()).ok();
        let mut refused = Response::new(self.alloc, body);
        *refused.status_mut() = match rejection.status() {
            400 => StatusCode::BAD_REQUEST,
            401 => StatusCode::UNAUTHORIZED,
            _ => StatusCode::SERVICE_UNAVAILABLE,
        };
        if rejection.status() == 401 {
            challenge(&mut refused);
        }
        refused
    }
}

/// Says in a refusal that a token is wanted (RFC 6750, section 3). Without memory for that it says nothing.
fn challenge(refused: &mut ErrorResponse)
    ensures { (head_of refused.new).status ≡ (head_of refused.old).status }
{
    let name = HeaderName::from_static("www-authenticate");
    let _ = refused
        .headers_mut()
        .insert(name, HeaderValue::from_static("Bearer"));
}

/// Says in an answer that this subprotocol is selected.
fn select(response: &mut Response<()>, subprotocol: Subprotocol) -> Result<(), HeaderMapError>
    ensures { OnOk result ((head_of response.new).headers
        ≡ selecting (Some subprotocol) (head_of response.old).headers) }
{
    let name = HeaderName::from_static("sec-websocket-protocol");
    let selected = HeaderValue::from_static(subprotocol.name());
    response.headers_mut().insert(name, selected)?;
    Ok(())
}

impl Callback for Greeter {
    fn on_request(
        self,
        request: &Request<()>,
        response: Response<()>,
    ) -> Result<Response<()>, ErrorResponse>
        ensures admitted { IfOk result (λ answer. IsSomeAnd self.rules (λ rules. Accepts (arc_value rules)
            (asked.head_of request.now).headers (head_of response).headers (head_of answer).headers)) }
        ensures refused { IfErr result (λ refusal. (reason : Rejection) × ((head_of refusal).status ≡ status_of reason)
            × IfSome self.rules (λ rules. Refuses (arc_value rules) (asked.head_of request.now).headers reason)) }
    {
        let mut response = response;
        match self.accept(request.headers(), &mut response) {
            Ok(admitted) => {
                let _ = self.verdict.try_set(Ok(admitted));
                Ok(response)
            }
            Err(rejection) => {
                let refusal = self.refusal(rejection);
                let _ = self.verdict.try_set(Err(rejection));
                Err(refusal)
            }
        }
    }
}
