//! What a message asks.
ghost use Rattle.std.specs.Prelude.{◌≡◌, IfErr, IfOk};
ghost use Rattle.wk_wire_rules.specs.Heads.{is_post};
ghost use Rattle.wk_http.specs.Requests.{message_in};
ghost use Rattle.wk_request.specs.Asked.{request_asked};
ghost use Rattle.wk_request.specs.Refusals.{Refuses};
ghost use Rattle.wk_request_rules.specs.Requests.{valid};
ghost use Rattle.wk_session_rules.specs.Replies.{asked, is_other, status_of};

use std::alloc::Global;
use wk_http::{HttpRequest, Method};
use wk_request::{Request, RequestRefusal};

/// The path of the API.
const API_PATH: &str = "/api.php";

/// Whether the message was posted.
fn is_post(method: Method) -> bool
    ensures { result ≡ is_post method }
{
    match method {
        Method::Post => true,
        Method::Get | Method::Other => false,
    }
}

fn is_other(method: Method) -> bool
    ensures { result ≡ is_other method }
{
    match method {
        Method::Other => true,
        Method::Get | Method::Post => false,
    }
}

/// The status of the reply to a message (RFC 9110 section 15): 405 for a method that isn't known, 404 for another path, 415 for
/// a body of parts, and 200 for a request of the API. Takes no memory.
pub fn status_of(message: &HttpRequest) -> u16
    ensures { result ≡ status_of (message_in message.now) }
{
    if is_other(message.method) {
        return 405;
    }
    if message.path.as_str() != API_PATH {
        return 404;
    }
    if message.multipart {
        return 415;
    }
    200
}

/// What a message asks of the API, by its query and its body.
///
/// `Refused` comes exactly where the rules refuse the parameters, with the first refusal in their order. `Memory` may come at
/// any message.
pub fn request_in(alloc: Global, message: &HttpRequest) -> Result<Request, RequestRefusal>
    ensures ok { IfOk result (λ request. asked (message_in message.now) ≡ valid (request_asked request)) }
    ensures err { IfErr result (λ refusal. Refuses (asked (message_in message.now)) refusal) }
{
    let posted = is_post(message.method);
    Request::of(alloc, &message.query, &message.body, posted)
}
