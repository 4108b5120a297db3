//! What replicas and sessions are given, and what has to come of it.

/// The lines of a wiki with two pages, each of which includes two others; the first page's job is claimed.
pub const TWO_PAGES: &str = r#"["site","version","2"]
["start"]
["save","A","{{T}}{{U}}",7]
["save","Template:T","x",7]
["save","Template:U","y",7]
["save","B","{{T}}{{U}}",7]
["claim"]
"#;

/// The line that this job is done.
pub const DONE: &str = r#"["done",5]"#;

/// A message that asks for the first page, and one for the second.
pub const PARSE: [&str; 2] = [
    "GET /api.php?action=parse&page=A HTTP/1.1\r\nHost: localhost\r\n\r\n",
    "GET /api.php?action=parse&page=B HTTP/1.1\r\nHost: localhost\r\n\r\n",
];

/// Messages that ask for the second page, and for the pages that include the first of the two others by their stored rows.
pub const PARSE_AND_LIST: &str =
    "GET /api.php?action=parse&page=B HTTP/1.1\r\nHost: localhost\r\n\r\n\
GET /api.php?action=query&list=embeddedin&eititle=Template:T HTTP/1.1\r\nHost: localhost\r\n\r\n";

/// What is told of two threads that ask for one page each.
pub const PARSED: &str = "true PeerEnd [5] 0 [] HTTP/1.1 200 OK\r\n\
Content-Type: application/json; charset=utf-8\r\nContent-Length: 173\r\n\r\n\
{\"parse\":{\"categories\":[],\"expanded\":\"xy\",\"links\":[],\"pageid\":1,\"revid\":1,\
\"templates\":[{\"ns\":10,\"title\":\"Template:T\"},{\"ns\":10,\"title\":\"Template:U\"}],\"title\":\"A\"},\"point\":5}\n\
true PeerEnd [5] 0 [] HTTP/1.1 200 OK\r\n\
Content-Type: application/json; charset=utf-8\r\nContent-Length: 173\r\n\r\n\
{\"parse\":{\"categories\":[],\"expanded\":\"xy\",\"links\":[],\"pageid\":4,\"revid\":4,\
\"templates\":[{\"ns\":10,\"title\":\"Template:T\"},{\"ns\":10,\"title\":\"Template:U\"}],\"title\":\"B\"},\"point\":5}";

/// What is told of a thread that takes that line, and of one that asks beside it.
pub const TAKEN: &str = "true Ok(())\n\
true PeerEnd [6, 6] 0 [] HTTP/1.1 200 OK\r\n\
Content-Type: application/json; charset=utf-8\r\nContent-Length: 173\r\n\r\n\
{\"parse\":{\"categories\":[],\"expanded\":\"xy\",\"links\":[],\"pageid\":4,\"revid\":4,\
\"templates\":[{\"ns\":10,\"title\":\"Template:T\"},{\"ns\":10,\"title\":\"Template:U\"}],\"title\":\"B\"},\"point\":6}\
HTTP/1.1 200 OK\r\n\
Content-Type: application/json; charset=utf-8\r\nContent-Length: 68\r\n\r\n\
{\"point\":6,\"query\":{\"embeddedin\":[{\"ns\":0,\"pageid\":1,\"title\":\"A\"}]}}";
