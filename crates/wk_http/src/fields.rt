//! What the fields of a head say.
ghost use Rattle.std.specs.Prelude.{◌≡◌, ◌≤◌, ◌<◌, ◌^◌, map, length, All, IfOk, codes, bytes_eq};
ghost use Rattle.std.specs.List.{list_all, list_any};
ghost use Rattle.std.specs.Str.{str_eq_ignore_ascii_case};
ghost use Rattle.httparse.specs.Spans.{IsHeaderWithin};
ghost use Rattle.wk_text_rules.specs.Decimal.{decimal_number};
ghost use Rattle.wk_wire_rules.specs.Heads.{values_of, begins_with, lengths, is_number, agree, length_said, method_of, is_post, most_headers, refusal_of, asks_to_close, is_multipart};
ghost use Rattle.wk_http.specs.Fields.{fields_in, IsJudged};

use httparse::spans::HeaderSpan;
use std::alloc::Global;
use wk_bytes::decimal;
use wk_memory::Memory;
use wk_wire_rules::Method;

const MOST_BODY: u64 = 8_388_608;

pub(crate) fn method_of(token: &[u8]) -> Method
    ensures { result ≡ method_of token.now }
{
    match token {
        b"GET" => Method::Get,
        b"POST" => Method::Post,
        _ => Method::Other,
    }
}

fn is_post(method: Method) -> bool
    ensures { result ≡ is_post method }
{
    match method {
        Method::Post => true,
        Method::Get | Method::Other => false,
    }
}

fn same_in_any_case(a: &[u8], b: &[u8]) -> bool
    ensures { result ≡ str_eq_ignore_ascii_case a.now b.now }
{
    a.eq_ignore_ascii_case(b)
}

/// The values of all fields of a name, in order.
fn values_of<'b>(
    alloc: Global,
    buf: &'b [u8],
    headers: &[HeaderSpan],
    name: &[u8],
) -> Result<Vec<&'b [u8]>, Memory>
    requires { All (IsHeaderWithin (length buf.now)) headers.now }
    ensures { IfOk result (λ values. map (λ v. v.now) values.items ≡ values_of name.now (fields_in buf.now headers.now)) }
{
    let mut values = Vec::new(alloc);
    for header in headers {
        if same_in_any_case(header.name.of(buf), name) {
            values.push(header.value.of(buf))?;
        }
    }
    Ok(values)
}

fn numbers_of(alloc: Global, values: &[&[u8]]) -> Result<Vec<Option<u64>>, Memory>
    ensures { IfOk result (λ numbers. numbers.items ≡ map (λ value. decimal_number value.now) values.now) }
{
    Ok(values.iter().map(|value| decimal(value)).collect(alloc)?)
}

fn lengths(alloc: Global, buf: &[u8], headers: &[HeaderSpan]) -> Result<Vec<Option<u64>>, Memory>
    requires { All (IsHeaderWithin (length buf.now)) headers.now }
    ensures { IfOk result (λ found. found.items ≡ lengths (fields_in buf.now headers.now)) }
{
    let values = values_of(alloc, buf, headers, b"content-length")?;
    let numbers = numbers_of(alloc, &values)?;
    Ok(numbers)
}

fn is_number(number: u64, length: Option<u64>) -> bool
    ensures { result ≡ is_number number length }
{
    match length {
        Some(other) => other == number,
        None => false,
    }
}

fn are_all(number: u64, lengths: &[Option<u64>]) -> bool
    ensures { result ≡ list_all (is_number number) lengths.now }
{
    lengths.iter().all(|length| is_number(number, *length))
}

/// Whether each is a number and no two differ.
fn agree(lengths: &[Option<u64>]) -> bool
    ensures { result ≡ agree lengths.now }
{
    match lengths {
        [] => true,
        [None, ..] => false,
        [Some(first), others @ ..] => are_all(*first, others),
    }
}

fn length_said(lengths: &[Option<u64>]) -> u64
    ensures { result ≡ length_said lengths.now }
{
    match lengths {
        [Some(first), ..] => *first,
        _ => 0,
    }
}

fn any_is(word: &[u8], values: &[&[u8]]) -> bool
    ensures { result ≡ list_any (λ value. str_eq_ignore_ascii_case value.now word.now) values.now }
{
    values.iter().any(|value| same_in_any_case(value, word))
}

/// Whether a `Connection` is `close`.
pub(crate) fn asks_to_close(
    alloc: Global,
    buf: &[u8],
    headers: &[HeaderSpan],
) -> Result<bool, Memory>
    requires { All (IsHeaderWithin (length buf.now)) headers.now }
    ensures { IfOk result (λ asks. asks ≡ asks_to_close (fields_in buf.now headers.now)) }
{
    let values = values_of(alloc, buf, headers, b"connection")?;
    Ok(any_is(b"close", &values))
}

fn any_begins_with(words: &[u8], values: &[&[u8]]) -> bool
    ensures { result ≡ list_any (λ value. begins_with words.now value.now) values.now }
{
    values.iter().any(|value| value.starts_with(words))
}

/// Whether a `Content-Type` says that the body has parts.
pub(crate) fn is_multipart(
    alloc: Global,
    buf: &[u8],
    headers: &[HeaderSpan],
) -> Result<bool, Memory>
    requires { All (IsHeaderWithin (length buf.now)) headers.now }
    ensures { IfOk result (λ parts. parts ≡ is_multipart (fields_in buf.now headers.now)) }
{
    let values = values_of(alloc, buf, headers, b"content-type")?;
    Ok(any_begins_with(b"multipart/", &values))
}

/// What the checks of a head say: a status, or the length of the body in bytes.
#[derive(Clone, Copy)]
pub(crate) enum Judged {
    Refused(u16),
    Accepted(u64),
}

/// Makes the checks of a whole head, in order.
pub(crate) fn judge(
    alloc: Global,
    buf: &[u8],
    method: Method,
    headers: &[HeaderSpan],
) -> Result<Judged, Memory>
    requires few { length headers.now ≤ most_headers }
    requires within { All (IsHeaderWithin (length buf.now)) headers.now }
    ensures { IfOk result (IsJudged method (fields_in buf.now headers.now)) }
{
    if !values_of(alloc, buf, headers, b"transfer-encoding")?.is_empty() {
        return Ok(Judged::Refused(501));
    }
    let lengths = lengths(alloc, buf, headers)?;
    if !agree(&lengths) {
        return Ok(Judged::Refused(400));
    }
    if is_post(method) && lengths.is_empty() {
        return Ok(Judged::Refused(411));
    }
    let length = length_said(&lengths);
    if length > MOST_BODY {
        return Ok(Judged::Refused(413));
    }
    Ok(Judged::Accepted(length))
}
