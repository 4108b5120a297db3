//! What wikis are given, and what their feeds have to be.

/// What is done in a wiki that is fed: calls before a restart, calls behind the lines of its start, and a page that is saved while
/// the feed is sent. Each call stands in a line.
#[derive(Clone, Copy)]
pub struct Calls {
    pub before: &'static str,
    pub behind: &'static str,
    pub last: &'static str,
}

/// One page is saved and refreshed. The save behind that changes nothing, so it makes no event.
pub const ONE_PAGE: Calls = Calls {
    before: "",
    behind: "save A=x
refresh
",
    last: "A=x",
};

/// The feed of that.
pub const FEED: &str = r#"["site","version","2"]
["start"]
["save","A","x",7]
["claim"]
["done",2]
"#;

/// Two pages are saved, and the first is refreshed.
pub const TWO_PAGES: Calls = Calls {
    last: "B=y",
    ..ONE_PAGE
};

/// What is told of that where the write with each number fails, one behind the other, and where none does.
pub const FAULTS: &str = r#"Err(WriteFault)
Err(WriteFault)
["site","version","2"]
["start"]
Err(WriteFault)
["site","version","2"]
["start"]
["save","A","x",7]
["claim"]
["done",2]
Ok(4)
["site","version","2"]
["start"]
["save","A","x",7]
["claim"]
["done",2]
["save","B","y",7]
"#;

/// A row is put into each table, and behind the restart an event of each kind is made.
pub const EACH: Calls = Calls {
    before: "save P={{T}}{{#ifexist:R|y|n}}[[Q]][[Category:X|k]]
save Template:T=t
save S= #REDIRECT [[P]]
refresh
refresh
refresh
save Template:T=u
",
    behind: "fan
save Q= #REDIRECT [[P]]
back
refresh
delete S
refresh
",
    last: "ä\"b=ü",
};

/// The feed of that.
pub const EACH_KIND: &str = r#"["page",1,0,"P",1,44]
["page",2,10,"T",4,1]
["page",3,0,"S",3,16]
["revision",1,1,0,7,44,0,"{{T}}{{#ifexist:R|y|n}}[[Q]][[Category:X|k]]"]
["revision",2,2,0,7,1,0,"t"]
["revision",3,3,0,7,16,0," #REDIRECT [[P]]"]
["revision",4,2,2,7,1,0,"u"]
["pagelinks",1,0,0,"Q"]
["pagelinks",1,0,0,"R"]
["pagelinks",3,0,0,"P"]
["templatelinks",1,0,10,"T"]
["existlinks",1,0,0,"R"]
["categorylinks",1,"X","k\nP","k"]
["redirect",3,0,"P"]
["job",4,"refreshLinks",10,"T",""]
["job",5,"fan",10,"T","text:0"]
["site","version","2"]
["start"]
["fan"]
["save","Q"," #REDIRECT [[P]]",7]
["claim"]
["back",3]
["claim"]
["done",5]
["save","S",null,7]
["claim"]
["done",8]
["save","ä\"b","ü",7]
"#;
