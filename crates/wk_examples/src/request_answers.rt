//! What requests are answered, as a script's lines.
ghost use Rattle.std.specs.Prelude.{◌≡◌, codes, ◌∷◌, []};
ghost use Rattle.wk_page_rules.specs.Verdict.{full_limits};
ghost use Rattle.wk_examples.specs.Scripts.{first_replies, replies_at, replies_to, nothing_saved, one_page, one_revision, one_byte};

/// Why requests and lines are refused, in an empty wiki.
pub fn refusals()
    ensures no_token { first_replies (codes "api action=edit&title=A&text=x"
        ∷ [])
        ≡ codes "{\"error\":{\"code\":\"badtoken\",\"info\":\"Invalid token.\"},\"point\":0}"
        ∷ [] }
    ensures no_title { first_replies (codes "api action=edit&text=x&token=%2B%5C"
        ∷ [])
        ≡ codes "{\"error\":{\"code\":\"notitle\",\"info\":\"The title must be set.\",\"parameter\":\"title\"},\"point\":0}"
        ∷ [] }
    ensures no_text { first_replies (codes "api action=edit&title=A&token=%2B%5C"
        ∷ [])
        ≡ codes "{\"error\":{\"code\":\"notext\",\"info\":\"The text must be set.\"},\"point\":0}"
        ∷ [] }
    ensures bad_title { first_replies (codes "api action=edit&title=%7B&text=x&token=%2B%5C"
        ∷ [])
        ≡ codes "{\"error\":{\"code\":\"invalidtitle\",\"info\":\"Bad title.\"},\"point\":0}"
        ∷ [] }
    ensures missing { first_replies (codes "api action=edit&title=A&text=x&nocreate&token=%2B%5C"
        ∷ [])
        ≡ codes "{\"error\":{\"code\":\"missingtitle\",\"info\":\"The page does not exist.\"},\"point\":0}"
        ∷ [] }
    ensures unknown { first_replies (codes "api action=dance"
        ∷ [])
        ≡ codes "{\"error\":{\"code\":\"badvalue\",\"info\":\"Unrecognized value.\",\"parameter\":\"action\"},\"point\":0}"
        ∷ [] }
    ensures missing_page { first_replies (codes "api action=parse&page=A"
        ∷ [])
        ≡ codes "{\"error\":{\"code\":\"missingtitle\",\"info\":\"The page does not exist.\"},\"point\":0}"
        ∷ [] }
    ensures no_category { first_replies (codes "api action=query&list=categorymembers&cmtitle=A"
        ∷ [])
        ≡ codes "{\"error\":{\"code\":\"invalidcategory\",\"info\":\"The title is not in the Category namespace.\"},\"point\":0}"
        ∷ [] }
    ensures no_line { first_replies (codes "dance"
        ∷ [])
        ≡ codes "{\"error\":{\"code\":\"badline\",\"info\":\"Unknown line.\"},\"point\":0}"
        ∷ [] }
    ensures no_ticket { first_replies (codes "finish 9"
        ∷ [])
        ≡ codes "{\"error\":{\"code\":\"notticket\",\"info\":\"No such ticket.\"},\"point\":0}"
        ∷ [] }
    ensures virtual_page { first_replies (codes "api action=parse&page=Special:X"
        ∷ [])
        ≡ codes "{\"error\":{\"code\":\"invalidtitle\",\"info\":\"Bad title.\"},\"point\":0}"
        ∷ [] }
    ensures virtual_category { first_replies (codes "api action=query&list=categorymembers&cmtitle=Special:X"
        ∷ [])
        ≡ codes "{\"error\":{\"code\":\"invalidcategory\",\"info\":\"The title is not in the Category namespace.\"},\"point\":0}"
        ∷ [] }
    ensures base_of_a_missing_page { first_replies (codes "api action=edit&title=B&text=b&baserevid=0&token=%2B%5C"
        ∷ codes "api action=edit&title=B&text=c&baserevid=0&token=%2B%5C"
        ∷ [])
        ≡ codes "{\"edit\":{\"new\":true,\"newrevid\":1,\"oldrevid\":0,\"pageid\":1,\"result\":\"Success\",\"title\":\"B\"},\"point\":1}"
        ∷ codes "{\"error\":{\"code\":\"editconflict\",\"current\":1,\"info\":\"Edit conflict.\"},\"point\":1}"
        ∷ [] }
    ensures exists { first_replies (codes "api action=edit&title=A&text=x&token=%2B%5C"
        ∷ codes "api action=edit&title=A&text=x&createonly&token=%2B%5C"
        ∷ [])
        ≡ codes "{\"edit\":{\"new\":true,\"newrevid\":1,\"oldrevid\":0,\"pageid\":1,\"result\":\"Success\",\"title\":\"A\"},\"point\":1}"
        ∷ codes "{\"error\":{\"code\":\"articleexists\",\"info\":\"The page exists already.\"},\"point\":1}"
        ∷ [] }
    ensures in_order { first_replies (codes "api action=edit&title=%7B&text=x&minpoint=1&baserevid=7&token=%2B%5C"
        ∷ codes "api action=edit&title=Special:X&text=x&nocreate&token=%2B%5C"
        ∷ codes "api action=delete&title=A&token=%2B%5C"
        ∷ codes "api action=edit&title=A&text=x&nocreate&baserevid=1&token=%2B%5C"
        ∷ codes "api action=edit&title=A&text=x&baserevid=1&token=%2B%5C"
        ∷ [])
        ≡ codes "{\"error\":{\"code\":\"futurepoint\",\"info\":\"That point is not reached yet.\",\"latest\":0},\"point\":0}"
        ∷ codes "{\"error\":{\"code\":\"invalidtitle\",\"info\":\"Bad title.\"},\"point\":0}"
        ∷ codes "{\"error\":{\"code\":\"missingtitle\",\"info\":\"The page does not exist.\"},\"point\":0}"
        ∷ codes "{\"error\":{\"code\":\"missingtitle\",\"info\":\"The page does not exist.\"},\"point\":0}"
        ∷ codes "{\"error\":{\"code\":\"editconflict\",\"current\":0,\"info\":\"Edit conflict.\"},\"point\":0}"
        ∷ [] }
{}

/// With one page at most a second title is refused, and the first can be saved again; and so with one revision or one byte of text.
pub fn a_full_wiki()
    ensures revisions { replies_to one_revision nothing_saved (codes "api action=edit&title=A&text=1&token=%2B%5C"
        ∷ codes "api action=edit&title=A&text=2&token=%2B%5C"
        ∷ [])
        ≡ codes "{\"edit\":{\"new\":true,\"newrevid\":1,\"oldrevid\":0,\"pageid\":1,\"result\":\"Success\",\"title\":\"A\"},\"point\":1}"
        ∷ codes "{\"error\":{\"code\":\"wikifull\",\"info\":\"A limit of the wiki is reached.\",\"limit\":\"revisions\"},\"point\":1}"
        ∷ [] }
    ensures texts { replies_to one_byte nothing_saved (codes "api action=edit&title=A&text=1&token=%2B%5C"
        ∷ codes "api action=edit&title=B&text=2&token=%2B%5C"
        ∷ [])
        ≡ codes "{\"edit\":{\"new\":true,\"newrevid\":1,\"oldrevid\":0,\"pageid\":1,\"result\":\"Success\",\"title\":\"A\"},\"point\":1}"
        ∷ codes "{\"error\":{\"code\":\"wikifull\",\"info\":\"A limit of the wiki is reached.\",\"limit\":\"text\"},\"point\":1}"
        ∷ [] }
    ensures pages { replies_to one_page nothing_saved (codes "api action=edit&title=A&text=1&token=%2B%5C"
        ∷ codes "api action=edit&title=B&text=1&token=%2B%5C"
        ∷ codes "api action=edit&title=A&text=2&token=%2B%5C"
        ∷ [])
        ≡ codes "{\"edit\":{\"new\":true,\"newrevid\":1,\"oldrevid\":0,\"pageid\":1,\"result\":\"Success\",\"title\":\"A\"},\"point\":1}"
        ∷ codes "{\"error\":{\"code\":\"wikifull\",\"info\":\"A limit of the wiki is reached.\",\"limit\":\"pages\"},\"point\":1}"
        ∷ codes "{\"edit\":{\"newrevid\":2,\"oldrevid\":1,\"pageid\":1,\"result\":\"Success\",\"title\":\"A\"},\"point\":2}"
        ∷ [] }
{}

/// Listings are of stored rows: a page is found once it was refreshed.
pub fn stored_rows()
    ensures { first_replies (codes "api action=edit&title=P&text=[[Category:X|k]][[Category:x]][[:Category:X]] [[b]]&token=%2B%5C"
        ∷ codes "api action=query&list=backlinks&bltitle=B"
        ∷ codes "claim"
        ∷ codes "read 2"
        ∷ codes "finish 2"
        ∷ codes "api action=query&list=backlinks&bltitle=B"
        ∷ codes "api action=query&list=categorymembers&cmtitle=Category:X"
        ∷ codes "api action=query&list=backlinks&bltitle=Category:X"
        ∷ codes "api action=query&list=embeddedin&eititle=B"
        ∷ codes "api action=query&list=backlinks&bltitle=Special:B"
        ∷ [])
        ≡ codes "{\"edit\":{\"new\":true,\"newrevid\":1,\"oldrevid\":0,\"pageid\":1,\"result\":\"Success\",\"title\":\"P\"},\"point\":1}"
        ∷ codes "{\"point\":1,\"query\":{\"backlinks\":[]}}"
        ∷ codes "{\"claim\":{\"ticket\":2,\"title\":\"P\"},\"point\":2}"
        ∷ codes "{\"point\":2,\"read\":{\"kind\":\"view\",\"mark\":1,\"title\":\"P\"}}"
        ∷ codes "{\"finish\":\"done\",\"point\":3}"
        ∷ codes "{\"point\":3,\"query\":{\"backlinks\":[{\"ns\":0,\"pageid\":1,\"title\":\"P\"}]}}"
        ∷ codes "{\"point\":3,\"query\":{\"categorymembers\":[{\"ns\":0,\"pageid\":1,\"sortkeyprefix\":\"\",\"title\":\"P\"}]}}"
        ∷ codes "{\"point\":3,\"query\":{\"backlinks\":[{\"ns\":0,\"pageid\":1,\"title\":\"P\"}]}}"
        ∷ codes "{\"point\":3,\"query\":{\"embeddedin\":[]}}"
        ∷ codes "{\"point\":3,\"query\":{\"backlinks\":[]}}"
        ∷ [] }
{}

/// A page that includes through a redirect, and the redirect itself.
pub fn redirects()
    ensures { first_replies (codes "api action=edit&title=Template:T&text=t&token=%2B%5C"
        ∷ codes "api action=edit&title=Template:R&text=%23REDIRECT [[Template:T]]&token=%2B%5C"
        ∷ codes "api action=edit&title=P&text={{R}}&token=%2B%5C"
        ∷ codes "api action=parse&page=P"
        ∷ codes "api action=parse&page=Template:R"
        ∷ [])
        ≡ codes "{\"edit\":{\"new\":true,\"newrevid\":1,\"oldrevid\":0,\"pageid\":1,\"result\":\"Success\",\"title\":\"Template:T\"},\"point\":1}"
        ∷ codes "{\"edit\":{\"new\":true,\"newrevid\":2,\"oldrevid\":0,\"pageid\":2,\"result\":\"Success\",\"title\":\"Template:R\"},\"point\":2}"
        ∷ codes "{\"edit\":{\"new\":true,\"newrevid\":3,\"oldrevid\":0,\"pageid\":3,\"result\":\"Success\",\"title\":\"P\"},\"point\":3}"
        ∷ codes "{\"parse\":{\"categories\":[],\"expanded\":\"t\",\"links\":[],\"pageid\":3,\"revid\":3,\"templates\":[{\"ns\":10,\"title\":\"Template:R\"},{\"ns\":10,\"title\":\"Template:T\"}],\"title\":\"P\"},\"point\":3}"
        ∷ codes "{\"parse\":{\"categories\":[],\"expanded\":\"#REDIRECT [[Template:T]]\",\"links\":[{\"ns\":10,\"title\":\"Template:T\"}],\"pageid\":2,\"redirect\":{\"ns\":10,\"title\":\"Template:T\"},\"revid\":2,\"templates\":[],\"title\":\"Template:R\"},\"point\":3}"
        ∷ [] }
{}

/// Given texts, in the place of a page.
pub fn texts()
    ensures alone { first_replies (codes "api action=expandtemplates&text={{FULLPAGENAME}}|{{A}}"
        ∷ [])
        ≡ codes "{\"expandtemplates\":{\"wikitext\":\"API|[[:Template:A]]\"},\"point\":0}"
        ∷ [] }
    ensures in_a_page { first_replies (codes "api action=expandtemplates&text={{FULLPAGENAME}}&title=special:x_y"
        ∷ [])
        ≡ codes "{\"expandtemplates\":{\"wikitext\":\"Special:X y\"},\"point\":0}"
        ∷ [] }
    ensures no_title { first_replies (codes "api action=expandtemplates&text=x&title="
        ∷ [])
        ≡ codes "{\"error\":{\"code\":\"invalidtitle\",\"info\":\"Bad title.\"},\"point\":0}"
        ∷ [] }
{}

/// A page's categories, with their keys with spaces and the prefixes.
pub fn categories()
    ensures { first_replies (codes "api action=edit&title=P&text=[[category:b c|k]][[Category:A]]&token=%2B%5C"
        ∷ codes "api action=parse&page=P"
        ∷ [])
        ≡ codes "{\"edit\":{\"new\":true,\"newrevid\":1,\"oldrevid\":0,\"pageid\":1,\"result\":\"Success\",\"title\":\"P\"},\"point\":1}"
        ∷ codes "{\"parse\":{\"categories\":[{\"category\":\"A\",\"sortkey\":\"\"},{\"category\":\"B c\",\"sortkey\":\"k\"}],\"expanded\":\"[[category:b c|k]][[Category:A]]\",\"links\":[],\"pageid\":1,\"revid\":1,\"templates\":[],\"title\":\"P\"},\"point\":1}"
        ∷ [] }
{}

/// Revisions of all pages, the newest first; a page that was deleted is new again under its old number.
pub fn changes()
    ensures all { first_replies (codes "api action=edit&title=A&text=1&token=%2B%5C"
        ∷ codes "api action=edit&title=B&text=[[A]]&token=%2B%5C"
        ∷ codes "api action=edit&title=A&text=22&token=%2B%5C"
        ∷ codes "api action=delete&title=B&token=%2B%5C"
        ∷ codes "api action=edit&title=B&text=x&token=%2B%5C"
        ∷ codes "api action=query&list=recentchanges"
        ∷ [])
        ≡ codes "{\"edit\":{\"new\":true,\"newrevid\":1,\"oldrevid\":0,\"pageid\":1,\"result\":\"Success\",\"title\":\"A\"},\"point\":1}"
        ∷ codes "{\"edit\":{\"new\":true,\"newrevid\":2,\"oldrevid\":0,\"pageid\":2,\"result\":\"Success\",\"title\":\"B\"},\"point\":2}"
        ∷ codes "{\"edit\":{\"newrevid\":3,\"oldrevid\":1,\"pageid\":1,\"result\":\"Success\",\"title\":\"A\"},\"point\":3}"
        ∷ codes "{\"delete\":{\"oldrevid\":2,\"revid\":4,\"title\":\"B\"},\"point\":4}"
        ∷ codes "{\"edit\":{\"new\":true,\"newrevid\":5,\"oldrevid\":0,\"pageid\":2,\"result\":\"Success\",\"title\":\"B\"},\"point\":5}"
        ∷ codes "{\"point\":5,\"query\":{\"recentchanges\":[{\"ns\":0,\"oldrevid\":0,\"pageid\":2,\"revid\":5,\"timestamp\":0,\"title\":\"B\",\"type\":\"new\"},{\"ns\":0,\"oldrevid\":2,\"pageid\":2,\"revid\":4,\"timestamp\":0,\"title\":\"B\",\"type\":\"delete\"},{\"ns\":0,\"oldrevid\":1,\"pageid\":1,\"revid\":3,\"timestamp\":0,\"title\":\"A\",\"type\":\"edit\"},{\"ns\":0,\"oldrevid\":0,\"pageid\":2,\"revid\":2,\"timestamp\":0,\"title\":\"B\",\"type\":\"new\"},{\"ns\":0,\"oldrevid\":0,\"pageid\":1,\"revid\":1,\"timestamp\":0,\"title\":\"A\",\"type\":\"new\"}]}}"
        ∷ [] }
    ensures in_parts { first_replies (codes "api action=edit&title=A&text=1&token=%2B%5C"
        ∷ codes "api action=edit&title=B&text=[[A]]&token=%2B%5C"
        ∷ codes "api action=edit&title=A&text=22&token=%2B%5C"
        ∷ codes "api action=delete&title=B&token=%2B%5C"
        ∷ codes "api action=edit&title=B&text=x&token=%2B%5C"
        ∷ codes "api action=query&list=recentchanges&rclimit=2"
        ∷ codes "api action=query&list=recentchanges&rclimit=3&rccontinue=4"
        ∷ codes "api action=query&list=recentchanges&rccontinue=1"
        ∷ [])
        ≡ codes "{\"edit\":{\"new\":true,\"newrevid\":1,\"oldrevid\":0,\"pageid\":1,\"result\":\"Success\",\"title\":\"A\"},\"point\":1}"
        ∷ codes "{\"edit\":{\"new\":true,\"newrevid\":2,\"oldrevid\":0,\"pageid\":2,\"result\":\"Success\",\"title\":\"B\"},\"point\":2}"
        ∷ codes "{\"edit\":{\"newrevid\":3,\"oldrevid\":1,\"pageid\":1,\"result\":\"Success\",\"title\":\"A\"},\"point\":3}"
        ∷ codes "{\"delete\":{\"oldrevid\":2,\"revid\":4,\"title\":\"B\"},\"point\":4}"
        ∷ codes "{\"edit\":{\"new\":true,\"newrevid\":5,\"oldrevid\":0,\"pageid\":2,\"result\":\"Success\",\"title\":\"B\"},\"point\":5}"
        ∷ codes "{\"continue\":4,\"point\":5,\"query\":{\"recentchanges\":[{\"ns\":0,\"oldrevid\":0,\"pageid\":2,\"revid\":5,\"timestamp\":0,\"title\":\"B\",\"type\":\"new\"},{\"ns\":0,\"oldrevid\":2,\"pageid\":2,\"revid\":4,\"timestamp\":0,\"title\":\"B\",\"type\":\"delete\"}]}}"
        ∷ codes "{\"point\":5,\"query\":{\"recentchanges\":[{\"ns\":0,\"oldrevid\":1,\"pageid\":1,\"revid\":3,\"timestamp\":0,\"title\":\"A\",\"type\":\"edit\"},{\"ns\":0,\"oldrevid\":0,\"pageid\":2,\"revid\":2,\"timestamp\":0,\"title\":\"B\",\"type\":\"new\"},{\"ns\":0,\"oldrevid\":0,\"pageid\":1,\"revid\":1,\"timestamp\":0,\"title\":\"A\",\"type\":\"new\"}]}}"
        ∷ codes "{\"point\":5,\"query\":{\"recentchanges\":[]}}"
        ∷ [] }
{}

/// Revisions of one page, the newest first, with their texts where those are asked for.
pub fn revisions()
    ensures all { first_replies (codes "api action=edit&title=A&text=1&token=%2B%5C"
        ∷ codes "api action=edit&title=B&text=[[A]]&token=%2B%5C"
        ∷ codes "api action=edit&title=A&text=22&token=%2B%5C"
        ∷ codes "api action=delete&title=B&token=%2B%5C"
        ∷ codes "api action=edit&title=B&text=x&token=%2B%5C"
        ∷ codes "api action=query&prop=revisions&titles=B"
        ∷ [])
        ≡ codes "{\"edit\":{\"new\":true,\"newrevid\":1,\"oldrevid\":0,\"pageid\":1,\"result\":\"Success\",\"title\":\"A\"},\"point\":1}"
        ∷ codes "{\"edit\":{\"new\":true,\"newrevid\":2,\"oldrevid\":0,\"pageid\":2,\"result\":\"Success\",\"title\":\"B\"},\"point\":2}"
        ∷ codes "{\"edit\":{\"newrevid\":3,\"oldrevid\":1,\"pageid\":1,\"result\":\"Success\",\"title\":\"A\"},\"point\":3}"
        ∷ codes "{\"delete\":{\"oldrevid\":2,\"revid\":4,\"title\":\"B\"},\"point\":4}"
        ∷ codes "{\"edit\":{\"new\":true,\"newrevid\":5,\"oldrevid\":0,\"pageid\":2,\"result\":\"Success\",\"title\":\"B\"},\"point\":5}"
        ∷ codes "{\"point\":5,\"query\":{\"revisions\":[{\"parentid\":0,\"revid\":5,\"size\":1,\"timestamp\":0},{\"deleted\":true,\"parentid\":2,\"revid\":4,\"size\":0,\"timestamp\":0},{\"parentid\":0,\"revid\":2,\"size\":5,\"timestamp\":0}]}}"
        ∷ [] }
    ensures with_texts { first_replies (codes "api action=edit&title=A&text=1&token=%2B%5C"
        ∷ codes "api action=edit&title=B&text=[[A]]&token=%2B%5C"
        ∷ codes "api action=edit&title=A&text=22&token=%2B%5C"
        ∷ codes "api action=delete&title=B&token=%2B%5C"
        ∷ codes "api action=edit&title=B&text=x&token=%2B%5C"
        ∷ codes "api action=query&prop=revisions&titles=B&rvprop=content&rvcontinue=5"
        ∷ codes "api action=query&prop=revisions&titles=B&rvprop=content&rvcontinue=4"
        ∷ [])
        ≡ codes "{\"edit\":{\"new\":true,\"newrevid\":1,\"oldrevid\":0,\"pageid\":1,\"result\":\"Success\",\"title\":\"A\"},\"point\":1}"
        ∷ codes "{\"edit\":{\"new\":true,\"newrevid\":2,\"oldrevid\":0,\"pageid\":2,\"result\":\"Success\",\"title\":\"B\"},\"point\":2}"
        ∷ codes "{\"edit\":{\"newrevid\":3,\"oldrevid\":1,\"pageid\":1,\"result\":\"Success\",\"title\":\"A\"},\"point\":3}"
        ∷ codes "{\"delete\":{\"oldrevid\":2,\"revid\":4,\"title\":\"B\"},\"point\":4}"
        ∷ codes "{\"edit\":{\"new\":true,\"newrevid\":5,\"oldrevid\":0,\"pageid\":2,\"result\":\"Success\",\"title\":\"B\"},\"point\":5}"
        ∷ codes "{\"continue\":4,\"point\":5,\"query\":{\"revisions\":[{\"content\":\"\",\"deleted\":true,\"parentid\":2,\"revid\":4,\"size\":0,\"timestamp\":0}]}}"
        ∷ codes "{\"point\":5,\"query\":{\"revisions\":[{\"content\":\"[[A]]\",\"parentid\":0,\"revid\":2,\"size\":5,\"timestamp\":0}]}}"
        ∷ [] }
    ensures never_saved { first_replies (codes "api action=edit&title=A&text=1&token=%2B%5C"
        ∷ codes "api action=edit&title=B&text=[[A]]&token=%2B%5C"
        ∷ codes "api action=edit&title=A&text=22&token=%2B%5C"
        ∷ codes "api action=delete&title=B&token=%2B%5C"
        ∷ codes "api action=edit&title=B&text=x&token=%2B%5C"
        ∷ codes "api action=query&prop=revisions&titles=C"
        ∷ codes "api action=query&prop=revisions&titles=Special:C"
        ∷ codes "api action=query&prop=revisions&titles=%5B"
        ∷ [])
        ≡ codes "{\"edit\":{\"new\":true,\"newrevid\":1,\"oldrevid\":0,\"pageid\":1,\"result\":\"Success\",\"title\":\"A\"},\"point\":1}"
        ∷ codes "{\"edit\":{\"new\":true,\"newrevid\":2,\"oldrevid\":0,\"pageid\":2,\"result\":\"Success\",\"title\":\"B\"},\"point\":2}"
        ∷ codes "{\"edit\":{\"newrevid\":3,\"oldrevid\":1,\"pageid\":1,\"result\":\"Success\",\"title\":\"A\"},\"point\":3}"
        ∷ codes "{\"delete\":{\"oldrevid\":2,\"revid\":4,\"title\":\"B\"},\"point\":4}"
        ∷ codes "{\"edit\":{\"new\":true,\"newrevid\":5,\"oldrevid\":0,\"pageid\":2,\"result\":\"Success\",\"title\":\"B\"},\"point\":5}"
        ∷ codes "{\"error\":{\"code\":\"missingtitle\",\"info\":\"The page does not exist.\"},\"point\":5}"
        ∷ codes "{\"error\":{\"code\":\"missingtitle\",\"info\":\"The page does not exist.\"},\"point\":5}"
        ∷ codes "{\"error\":{\"code\":\"invalidtitle\",\"info\":\"Bad title.\"},\"point\":5}"
        ∷ [] }
{}

/// The token, the namespaces and the counts.
pub fn the_wiki()
    ensures token { first_replies (codes "api action=query&meta=tokens"
        ∷ [])
        ≡ codes "{\"point\":0,\"query\":{\"tokens\":{\"csrftoken\":\"+\\\\\"}}}"
        ∷ [] }
    ensures site { first_replies (codes "api action=edit&title=A&text=1&token=%2B%5C"
        ∷ codes "api action=edit&title=B&text=[[A]]&token=%2B%5C"
        ∷ codes "api action=edit&title=A&text=22&token=%2B%5C"
        ∷ codes "api action=delete&title=B&token=%2B%5C"
        ∷ codes "api action=edit&title=B&text=x&token=%2B%5C"
        ∷ codes "api action=query&meta=siteinfo"
        ∷ [])
        ≡ codes "{\"edit\":{\"new\":true,\"newrevid\":1,\"oldrevid\":0,\"pageid\":1,\"result\":\"Success\",\"title\":\"A\"},\"point\":1}"
        ∷ codes "{\"edit\":{\"new\":true,\"newrevid\":2,\"oldrevid\":0,\"pageid\":2,\"result\":\"Success\",\"title\":\"B\"},\"point\":2}"
        ∷ codes "{\"edit\":{\"newrevid\":3,\"oldrevid\":1,\"pageid\":1,\"result\":\"Success\",\"title\":\"A\"},\"point\":3}"
        ∷ codes "{\"delete\":{\"oldrevid\":2,\"revid\":4,\"title\":\"B\"},\"point\":4}"
        ∷ codes "{\"edit\":{\"new\":true,\"newrevid\":5,\"oldrevid\":0,\"pageid\":2,\"result\":\"Success\",\"title\":\"B\"},\"point\":5}"
        ∷ codes "{\"point\":5,\"query\":{\"namespaces\":[{\"id\":-2,\"name\":\"Media\"},{\"id\":-1,\"name\":\"Special\"},{\"id\":0,\"name\":\"\"},{\"id\":1,\"name\":\"Talk\"},{\"id\":2,\"name\":\"User\"},{\"id\":3,\"name\":\"User talk\"},{\"id\":4,\"name\":\"Project\"},{\"id\":5,\"name\":\"Project talk\"},{\"id\":6,\"name\":\"File\"},{\"id\":7,\"name\":\"File talk\"},{\"id\":8,\"name\":\"MediaWiki\"},{\"id\":9,\"name\":\"MediaWiki talk\"},{\"id\":10,\"name\":\"Template\"},{\"id\":11,\"name\":\"Template talk\"},{\"id\":12,\"name\":\"Help\"},{\"id\":13,\"name\":\"Help talk\"},{\"id\":14,\"name\":\"Category\"},{\"id\":15,\"name\":\"Category talk\"}],\"statistics\":{\"edits\":5,\"jobs\":2,\"pages\":2}}}"
        ∷ [] }
{}

/// Listings go on where the one before them ended, and list a page that was deleted and not refreshed since.
pub fn lists_in_parts()
    ensures { first_replies (codes "api action=edit&title=A&text=[[Category:X|b]][[Q]]&token=%2B%5C"
        ∷ codes "claim"
        ∷ codes "read 2"
        ∷ codes "finish 2"
        ∷ codes "api action=edit&title=B&text=[[Category:X|a]][[Q]]&token=%2B%5C"
        ∷ codes "claim"
        ∷ codes "read 5"
        ∷ codes "finish 5"
        ∷ codes "api action=edit&title=C&text=[[Category:X|b]][[Q]]&token=%2B%5C"
        ∷ codes "claim"
        ∷ codes "read 8"
        ∷ codes "finish 8"
        ∷ codes "api action=query&list=backlinks&bltitle=Q&bllimit=2"
        ∷ codes "api action=query&list=backlinks&bltitle=Q&blcontinue=2"
        ∷ codes "api action=query&list=categorymembers&cmtitle=Category:X&cmlimit=1&cmcontinue=1"
        ∷ codes "api action=query&list=categorymembers&cmtitle=Category:X&cmcontinue=3"
        ∷ codes "api action=delete&title=A&token=%2B%5C"
        ∷ codes "api action=query&list=backlinks&bltitle=Q&bllimit=1"
        ∷ [])
        ≡ codes "{\"edit\":{\"new\":true,\"newrevid\":1,\"oldrevid\":0,\"pageid\":1,\"result\":\"Success\",\"title\":\"A\"},\"point\":1}"
        ∷ codes "{\"claim\":{\"ticket\":2,\"title\":\"A\"},\"point\":2}"
        ∷ codes "{\"point\":2,\"read\":{\"kind\":\"view\",\"mark\":1,\"title\":\"A\"}}"
        ∷ codes "{\"finish\":\"done\",\"point\":3}"
        ∷ codes "{\"edit\":{\"new\":true,\"newrevid\":2,\"oldrevid\":0,\"pageid\":2,\"result\":\"Success\",\"title\":\"B\"},\"point\":4}"
        ∷ codes "{\"claim\":{\"ticket\":5,\"title\":\"B\"},\"point\":5}"
        ∷ codes "{\"point\":5,\"read\":{\"kind\":\"view\",\"mark\":2,\"title\":\"B\"}}"
        ∷ codes "{\"finish\":\"done\",\"point\":6}"
        ∷ codes "{\"edit\":{\"new\":true,\"newrevid\":3,\"oldrevid\":0,\"pageid\":3,\"result\":\"Success\",\"title\":\"C\"},\"point\":7}"
        ∷ codes "{\"claim\":{\"ticket\":8,\"title\":\"C\"},\"point\":8}"
        ∷ codes "{\"point\":8,\"read\":{\"kind\":\"view\",\"mark\":3,\"title\":\"C\"}}"
        ∷ codes "{\"finish\":\"done\",\"point\":9}"
        ∷ codes "{\"continue\":2,\"point\":9,\"query\":{\"backlinks\":[{\"ns\":0,\"pageid\":1,\"title\":\"A\"},{\"ns\":0,\"pageid\":2,\"title\":\"B\"}]}}"
        ∷ codes "{\"point\":9,\"query\":{\"backlinks\":[{\"ns\":0,\"pageid\":3,\"title\":\"C\"}]}}"
        ∷ codes "{\"continue\":2,\"point\":9,\"query\":{\"categorymembers\":[{\"ns\":0,\"pageid\":1,\"sortkeyprefix\":\"b\",\"title\":\"A\"}]}}"
        ∷ codes "{\"point\":9,\"query\":{\"categorymembers\":[]}}"
        ∷ codes "{\"delete\":{\"oldrevid\":1,\"revid\":4,\"title\":\"A\"},\"point\":10}"
        ∷ codes "{\"continue\":1,\"point\":10,\"query\":{\"backlinks\":[{\"ns\":0,\"pageid\":1,\"title\":\"A\"}]}}"
        ∷ [] }
{}

/// One moment is taken for each edit, also for one that a bad title refuses, and none for one that asks nothing.
pub fn moments()
    ensures { replies_at (5 ∷ 6 ∷ 7 ∷ []) full_limits nothing_saved (codes "api action=edit&title=A&text=1&token=%2B%5C"
        ∷ codes "api action=edit&title=A&text=2"
        ∷ codes "api action=edit&title=%7B&text=2&token=%2B%5C"
        ∷ codes "api action=edit&title=A&text=3&token=%2B%5C"
        ∷ codes "api action=query&list=recentchanges"
        ∷ [])
        ≡ codes "{\"edit\":{\"new\":true,\"newrevid\":1,\"oldrevid\":0,\"pageid\":1,\"result\":\"Success\",\"title\":\"A\"},\"point\":1}"
        ∷ codes "{\"error\":{\"code\":\"badtoken\",\"info\":\"Invalid token.\"},\"point\":1}"
        ∷ codes "{\"error\":{\"code\":\"invalidtitle\",\"info\":\"Bad title.\"},\"point\":1}"
        ∷ codes "{\"edit\":{\"newrevid\":2,\"oldrevid\":1,\"pageid\":1,\"result\":\"Success\",\"title\":\"A\"},\"point\":2}"
        ∷ codes "{\"point\":2,\"query\":{\"recentchanges\":[{\"ns\":0,\"oldrevid\":1,\"pageid\":1,\"revid\":2,\"timestamp\":7,\"title\":\"A\",\"type\":\"edit\"},{\"ns\":0,\"oldrevid\":0,\"pageid\":1,\"revid\":1,\"timestamp\":5,\"title\":\"A\",\"type\":\"new\"}]}}"
        ∷ [] }
{}
