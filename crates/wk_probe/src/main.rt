//! The program `wk_probe`, for whoever works on the engine: it shows how the engine reads a text. Each line of standard
//! input asks by a JSON object, and each answer is a line of compact JSON on standard output. An empty line has none.
//!
//! - `{"op":"norm","text":T,"ns":N}` asks which title the text T names where the namespace with the number N is the
//!   default. The answer is `{"key":K,"ns":N,"shown":S}`, or `null` where it names none.
//! - `{"op":"kept","text":T}` asks what is kept of the text T. The answer is a string.
//! - `{"op":"select","mode":M,"text":T}`, where M is `view` or `include`, asks what of the text T is read in that mode.
//!   The answer is a string.
//! - `{"op":"atoms","mode":M,"text":T}` asks for the atoms of what is read. The answer is a list of
//!   `[kind,start,length]`, with places and lengths in bytes. The kinds are `line_comment`, `comment`, `sealed`,
//!   `ignored`, `tag`, `open`, `close`, `bar`, `equals` and `bytes`, which joins neighbouring single bytes.
//! - `{"op":"tree","mode":M,"text":T}` asks for the tree of what is read. The answer is a list of items:
//!   `["plain",text]`, `["sealed",text]`, `["nothing",text]`, `["template",start,length,title,parts]` or
//!   `["argument",start,length,title,parts]`; the title is a list of items, and a part is `[name,value,start,length]`,
//!   where the name is a list of items or `null`, the value is one, and the place and length are the value's.
//! - `{"op":"same","a":A,"b":B}` asks whether the texts A and B are equal to `#ifeq`: as numbers where both are
//!   numerals, else byte by byte. The answer is `true` or `false`.
//! - `{"op":"links","runs":[[T,S],..]}` asks for the links in an output, which is given by its runs: a text, and
//!   whether it is sealed. The answer is a list of `[start,end,"page",shown]`, `[start,end,"member",shown,prefix]` or
//!   `[start,end,"nothing"]`, where the end is the place behind the link.
//! - `{"op":"expand","page":P,"pages":{T:TEXT,..}}` asks what the page P, a title, expands to, where these are all pages
//!   that there are: titles and texts. With a member `text` it asks that of this text in the place of the page's own.
//!   Revisions of the pages are numbered from 1 in the order of the bytes of the titles as they are written. The answer
//!   is an object. `out` is the output's text, `runs` its runs and `found` the links in it, as for `links`; `reads` is a
//!   list of `[title,kind,mark]` with the kinds `view`, `include` and `exists`; `counts` has what it cost: `argument`,
//!   `exists`, `include` and `nodes`; `turned` is where the page redirects to, or `null`. Without a member `text` the
//!   answer has `rows` too: the lists of titles `exists`, `links`, `redirect`, which has one or none, and `templates`,
//!   and `members`, a list of `[category,sortkey,prefix]`. Titles are answered in their shown forms.
//! - `{"op":"expand","page":P,"seen":[[T,KIND,A],..]}`, also with a member `text`, asks what is known by these answers,
//!   each to another pair of a title and a kind. A is `[revision,text]`, or `null` where the page is missing; of
//!   existence it is `true` or `false`. Where they are too few, the answer is `{"needs":[title,kind]}`.
//! - With a member `"resume":true` these two ask the same of one machine, to which the answers are given one at a time.
//!   The answer has `rounds` too, the number of its runs.
//! - `{"op":"http","pieces":[T,..]}` asks for the messages of a connection whose bytes come in these pieces: each
//!   character, which is one of the first 256, is one byte. The answer is `{"end":E,"messages":[..]}`, where E is `peer`
//!   between messages, `cut` within one, `closed` after a message that is the last, or `{"bad":STATUS}`. A message has
//!   `body`, `last`, `method` (`get`, `post` or `other`), `multipart`, `path` and `query`.
//! - `{"op":"params","query":Q,"body":B,"name":N}` asks for the first value of the parameter N in the query and the
//!   body, which are given as bytes in the same way. The answer is the value or `null`.
//! - `{"op":"request","query":Q,"body":B,"posted":P}` asks what the query and the body, which are given as bytes in the
//!   same way, ask of the API, where P says whether they were posted. The answer is `{"ask":A,"least":N,"subst":S}`, where
//!   N is the least point and S says whether a text is to be transformed before it is judged, or
//!   `{"refused":[NUMBER,PARAMETER]}`. A is `"tokens"`, `"siteinfo"`, or an object with one member: `edit` has `base`,
//!   `body`, `create_only`, `no_create` and `title`, `delete` has `base` and `title`, `parse` has `page`, `expand` has
//!   `text` and `title`, `backlinks`, `embedded`, `members`, `changes` and `revisions` have `from`, `limit` and `title`, and
//!   `revisions` has `content` too. What isn't given is `null`.
//! - `{"op":"api","pages":{T:TEXT,..},"refresh":R,"query":Q}` asks what a wiki in memory answers to the query Q, which is
//!   given as bytes in the same way and counts as posted. The pages were saved in the order of the bytes of their titles as
//!   they are written, each at as many seconds since 1970 as its place from 1 on; where R is `true` every job was done
//!   then. The answer is the reply's value.
//!
//! Other members are ignored, and of members with one name the last counts. A line that is none of these forms is
//! answered with `{"error":"..."}`, which says what is wrong, and the next line goes on. The program takes no words.
//!
//! The status is 0 at the end of input, 1 where memory ran out, 3 where a read failed, 4 where a write failed, and 9
//! where 2^40 bytes were read. Where it isn't 0 a message stands on standard error.
#![tactic(auto)]

mod answers;
mod asked;
mod atoms;
mod expansions;
mod links;
mod members;
mod numerals;
mod pages;
mod refusal;
mod rows;
mod run;
mod seen;
mod titles;
mod trees;
mod values;
mod wikis;
mod wire;

use run::serve_all;
use std::io;
use std::process::ExitCode;
use wk_base::{ReadSource, WriteSink};

fn main(rt: HostRuntime) -> io::Result<ExitCode> {
    let mut input = ReadSource::new(rt.reader());
    let mut output = WriteSink::new(io::writer(&rt));
    let Err(stop) = serve_all(rt.alloc(), &mut input, &mut output) else {
        return Ok(ExitCode::from(0));
    };
    eprintln!(rt; "wk_probe: {stop}")?;
    Ok(ExitCode::from(stop.status()))
}
