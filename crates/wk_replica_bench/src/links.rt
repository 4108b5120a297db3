//! Requests for pages, each over a connection in memory.

use std::alloc::Global;
use wk_base::{MemSink, MemSource};
use wk_link::MemLink;
use wk_memory::Memory;

/// More bytes than a reply has.
const ROOM: usize = 4_096;

/// How far apart the pages are that are asked for one behind the other.
const APART: u64 = 7_919;

/// A connection by which the request with this number comes, for one of so many pages.
pub fn link_of(alloc: Global, pages: u64, number: u64) -> Result<MemLink, Memory> {
    let page = (number.wrapping_mul(APART) % pages.max(1)).saturating_add(1);
    let request = format!(in alloc;
        "GET /api.php?action=parse&page=Page+{page} HTTP/1.1\r\nHost: localhost\r\n\r\n"
    )?;
    let sink = MemSink::new(alloc, ROOM, Vec::new(alloc))?;
    let source = MemSource::new(request.into_bytes(), Vec::new(alloc));
    Ok(MemLink::new(source, sink))
}

/// Whether a reply shows a page.
pub fn shows_page(reply: &[u8]) -> bool {
    match str::from_utf8(reply) {
        Ok(reply) => reply.contains("{\"parse\":{"),
        Err(_) => false,
    }
}
