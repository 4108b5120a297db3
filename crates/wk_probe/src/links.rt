//! The links in an output.

use crate::members::add;
use crate::refusal::Refusal;
use crate::titles::shown_text;
use crate::values::{Plain, list};
use serde_json::Value;
use std::alloc::Global;
use wk_links::{Found, What, links};
use wk_memory::Memory;
use wk_out::Out;

/// The text of a run, and whether it is sealed.
fn run_of(value: &Value) -> Option<(&str, bool)> {
    let parts = value.as_array()?;
    if parts.len() != 2 {
        return None;
    }
    let text = parts[0].as_str()?;
    let sealed = parts[1].as_bool()?;
    Some((text, sealed))
}

/// Adds a run to an output.
fn add_run(out: &mut Out, run: Option<(&str, bool)>) -> Result<(), Refusal> {
    let Some((text, sealed)) = run else {
        return Err(Refusal::NoRuns);
    };
    if sealed {
        out.push_sealed(text)?;
    } else {
        out.push_plain(text)?;
    }
    Ok(())
}

/// The output that the member `runs` gives.
fn output_of(alloc: Global, request: &Value) -> Result<Out, Refusal> {
    let Some(runs) = request.get("runs").and_then(Value::as_array) else {
        return Err(Refusal::NoRuns);
    };
    let mut out = Out::new(alloc);
    for run in runs {
        add_run(&mut out, run_of(run))?;
    }
    Ok(out)
}

/// A link as an entry of the answer.
fn found_value(alloc: Global, found: &Found) -> Result<Value, Memory> {
    let start = Plain::Number(found.start as u64);
    let end = Plain::Number(found.end as u64);
    match &found.what {
        What::Page(title) => {
            let text = shown_text(alloc, title)?;
            list(
                alloc,
                &[start, end, Plain::Text("page"), Plain::Text(&text)],
            )
        }
        What::Member(title, prefix) => {
            let text = shown_text(alloc, title)?;
            let prefix = Plain::Text(prefix.as_str());
            list(
                alloc,
                &[
                    start,
                    end,
                    Plain::Text("member"),
                    Plain::Text(&text),
                    prefix,
                ],
            )
        }
        What::Nothing => list(alloc, &[start, end, Plain::Text("nothing")]),
    }
}

/// The links in an output.
pub fn links_in(alloc: Global, out: &Out) -> Result<Value, Memory> {
    let mut entries = Vec::new(alloc);
    for found in &links(alloc, out)? {
        add(&mut entries, found_value(alloc, found)?)?;
    }
    Ok(Value::Array(entries))
}

/// The links in the output that is given.
pub fn links_value(alloc: Global, request: &Value) -> Result<Value, Refusal> {
    let out = output_of(alloc, request)?;
    Ok(links_in(alloc, &out)?)
}
