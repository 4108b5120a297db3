//! What replicas and wikis are given, and what has to come of it.

/// The feed of an empty wiki in which one page is saved and refreshed.
pub const FEED: &str = r#"["site","version","2"]
["start"]
["save","A","x",7]
["claim"]
["done",2]
"#;

/// Parameters of a read, of an edit, and of a read at a point that isn't reached.
pub const ASKED: &str = "action=parse&page=A
action=edit&title=A&text=y&token=%2B%5C
action=parse&page=A&minpoint=4
";

/// What a replica is told that takes this feed, and what it replies then.
pub const REPLIED: &str = r#"Ok(()) Ok(()) Ok(()) Ok(()) Ok(()) 
{"parse":{"categories":[],"expanded":"x","links":[],"pageid":1,"revid":1,"templates":[],"title":"A"},"point":3}
{"error":{"code":"readonly","info":"This wiki is read only."},"point":3}
{"error":{"code":"futurepoint","info":"That point is not reached yet.","latest":3},"point":3}
"#;

/// A claim where no job is queued, and a save.
pub const ONE_BAD: &str = r#"["site","version","2"]
["start"]
["claim"]
["save","A","x",7]
"#;

/// What a replica is told that takes these lines, and what it replies then.
pub const REPLIED_BEHIND: &str = r#"Ok(()) Ok(()) Err(BadLine(3)) Ok(()) 
{"parse":{"categories":[],"expanded":"x","links":[],"pageid":1,"revid":1,"templates":[],"title":"A"},"point":1}
{"error":{"code":"readonly","info":"This wiki is read only."},"point":1}
{"error":{"code":"futurepoint","info":"That point is not reached yet.","latest":1},"point":1}
"#;

/// A feed with rows of each table and events of each kind.
pub const EACH_KIND: &str = r#"["page",1,0,"P",1,44]
["page",2,10,"T",4,1]
["page",3,0,"S",3,16]
["revision",1,1,0,7,44,0,"{{T}}{{#ifexist:R|y|n}}[[Q]][[Category:X|k]]"]
["revision",2,2,0,7,1,0,"t"]
["revision",3,3,0,7,16,0," #REDIRECT [[P]]"]
["revision",4,2,2,7,1,0,"u"]
["pagelinks",1,0,0,"Q"]
["pagelinks",1,0,0,"R"]
["pagelinks",3,0,0,"P"]
["templatelinks",1,0,10,"T"]
["existlinks",1,0,0,"R"]
["categorylinks",1,"X","k\nP","k"]
["redirect",3,0,"P"]
["job",4,"refreshLinks",10,"T",""]
["job",5,"fan",10,"T","text:0"]
["site","version","2"]
["start"]
["fan"]
["save","Q"," #REDIRECT [[P]]",7]
["claim"]
["back",3]
["claim"]
["done",5]
["save","S",null,7]
["claim"]
["done",8]
["save","ä\"b","ü",7]
"#;

/// How many lines of it tell the start.
pub const START: u64 = 18;

/// Lines with bars between, of which the last one alone is bad: first those that say nothing, then rows and starts that aren't where
/// they are to be or of no good store, and then events that aren't possible where they stand.
pub const BAD: &str = r#"["site","version","2"]|["start"]|x
["site","version","2"]|["start"]|
["site","version","2"]|["start"]|["claim" ]
["site","version","2"]|["start"]| ["claim"]
["site","version","2"]|["start"]|["save","A","x", 7]
["site","version","2"]|["start"]|["save","A","x",7.0]
["site","version","2"]|["start"]|["save","A","x",7e0]
["site","version","2"]|["start"]|["save","A","x",-7]
["site","version","2"]|["start"]|["save","A","\u0078",7]
["site","version","2"]|["start"]|["save","A","x"]
["site","version","2"]|["start"]|["save","A","x",7,7]
["site","version","2"]|["start"]|["claims"]
["site","version","2"]|["start"]|["claim"],
["site","version","2"]|["start"]|{"claim":1}
["site","version","2"]|["start"]|[]
["revision",1,1,0,7,1,0,"x"]|["page",1,0,"A",1,1]
["page",2,0,"B",1,1]|["page",1,0,"A",1,1]
["pagelinks",1,0,0,"B"]|["pagelinks",1,0,0,"A"]
["pagelinks",1,0,0,"B"]|["pagelinks",1,0,0,"B"]
["site","version","2"]|["site","version","2"]
["site","version","2"]|["job",1,"refreshLinks",0,"A",""]
["site","version","2"]|["start"]|["page",1,0,"A",1,1]
["site","version","2"]|["start"]|["start"]
["start"]
["site","version","1"]|["start"]
["site","version","3"]|["start"]
["page",1,0,"A",1,1]|["site","version","2"]|["start"]
["claim"]
["site","version","2"]|["save","A","x",7]
["site","version","2"]|["start"]|["save","a","x",7]
["site","version","2"]|["start"]|["save","A","x ",7]
["site","version","2"]|["start"]|["save","{","x",7]
["site","version","2"]|["start"]|["save","A",null,7]
["site","version","2"]|["start"]|["save","A","x",7]|["save","A","x",8]
["site","version","2"]|["start"]|["claim"]
["site","version","2"]|["start"]|["fan"]
["site","version","2"]|["start"]|["done",1]
["site","version","2"]|["start"]|["save","A","x",7]|["claim"]|["back",1]
["site","version","2"]|["start"]|["save","A","x",7]|["claim"]|["done",2]|["done",2]"#;

/// Pages that one thread saves.
pub const FIRST_PAGES: &str = "A={{T}}[[B]][[Category:X|k]]
Template:T=t{{U}}
B=#REDIRECT [[A]]
Template:U=u
";

/// Pages that another thread saves meanwhile, of which one is among those too.
pub const OTHER_PAGES: &str = "C={{T}}{{#ifexist:A|y|n}}[[A]][[Category:X]]
Template:T={{U}}v
D={{:A}}
";

/// A page that is saved behind them.
pub const LAST: &str = "E={{T}}";

/// Parameters of each kind of read.
pub const READS: &str = "action=parse&page=A
action=expandtemplates&text={{T}}{{:C}}
action=query&list=backlinks&bltitle=A
action=query&list=embeddedin&eititle=Template:T
action=query&list=categorymembers&cmtitle=Category:X
action=query&list=recentchanges&rclimit=max
action=query&prop=revisions&titles=Template:T&rvlimit=5
action=query&meta=siteinfo
action=query&meta=tokens
";
