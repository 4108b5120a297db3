//! What parameters ask, and why they are refused.
ghost use Rattle.std.specs.Prelude.{◌≡◌, true, false, codes, [], Some, None};
ghost use Rattle.wk_request_rules.specs.Requests.{edit, delete, parse, expand_text, backlinks, embedded, members, changes, revisions, tokens, site_info, bad_value, must_be_posted, bad_token, no_title, no_text, bad_integer, valid, invalid};
ghost use Rattle.wk_request_rules.specs.Reading.{requested};

/// An action, and the module of a query, must be one that is known. Of `list`, `prop` and `meta` the first that is there counts.
pub fn calls()
    ensures nothing { requested (codes "") [] true ≡ invalid (bad_value (codes "action")) }
    ensures unknown_action { requested (codes "action=dance") [] true ≡ invalid (bad_value (codes "action")) }
    ensures empty_query { requested (codes "action=query") [] true ≡ invalid (bad_value (codes "list")) }
    ensures empty_list { requested (codes "action=query&list=&meta=tokens") [] true ≡ invalid (bad_value (codes "list")) }
    ensures unknown_list { requested (codes "action=query&list=allpages") [] true ≡ invalid (bad_value (codes "list")) }
    ensures unknown_prop { requested (codes "action=query&prop=links&meta=tokens") [] true ≡ invalid (bad_value (codes "prop")) }
    ensures unknown_meta { requested (codes "action=query&meta=userinfo") [] true ≡ invalid (bad_value (codes "meta")) }
    ensures first_of_three { requested (codes "action=query&meta=x&prop=y&list=recentchanges") [] true ≡ valid (record { least = 0; ask = changes (record { title = []; limit = 10; from = None }); subst = false }) }
    ensures tokens { requested (codes "action=query&meta=tokens") [] true ≡ valid (record { least = 0; ask = tokens; subst = false }) }
    ensures site_info { requested (codes "action=query&meta=siteinfo&minpoint=7") [] true ≡ valid (record { least = 7; ask = site_info; subst = false }) }
{}

/// What an edit asks: its first values count, the query before the body; a flag is there or not.
pub fn edits()
    ensures plain { requested (codes "action=edit&title=a_b&text=x&token=%2B%5C") [] true ≡ valid (record { least = 0; ask = edit (record { title = codes "a_b"; body = Some (codes "x"); base = None; create_only = false; no_create = false }); subst = false }) }
    ensures all { requested (codes "action=edit&title=A&text=&baserevid=0&createonly&nocreate=0&token=%2B%5C") [] true ≡ valid (record { least = 0; ask = edit (record { title = codes "A"; body = Some ([]); base = Some 0; create_only = true; no_create = true }); subst = false }) }
    ensures in_the_body { requested (codes "action=edit&title=A") (codes "title=B&text=x+y&token=%2B%5C") true ≡ valid (record { least = 0; ask = edit (record { title = codes "A"; body = Some (codes "x y"); base = None; create_only = false; no_create = false }); subst = false }) }
    ensures first_value { requested (codes "action=edit&title=A&title=B&text=%7B&token=%2B%5C") [] true ≡ valid (record { least = 0; ask = edit (record { title = codes "A"; body = Some (codes "{"); base = None; create_only = false; no_create = false }); subst = false }) }
    ensures deletion { requested (codes "action=delete&title=A&baserevid=3&minpoint=2&token=%2B%5C") [] true ≡ valid (record { least = 2; ask = delete (codes "A") (Some 3); subst = false }) }
{}

/// The flag `subst` is one of edits alone: it is there or not, whatever its value is.
pub fn substs()
    ensures there { requested (codes "action=edit&title=P&text=x&subst&token=%2B%5C") [] true ≡ valid (record { least = 0; ask = edit (record { title = codes "P"; body = Some (codes "x"); base = None; create_only = false; no_create = false }); subst = true }) }
    ensures empty { requested (codes "action=edit&title=P&text=x&subst=&token=%2B%5C") [] true ≡ valid (record { least = 0; ask = edit (record { title = codes "P"; body = Some (codes "x"); base = None; create_only = false; no_create = false }); subst = true }) }
    ensures in_the_body { requested (codes "action=edit&title=P&text=x") (codes "token=%2B%5C&subst=0") true ≡ valid (record { least = 0; ask = edit (record { title = codes "P"; body = Some (codes "x"); base = None; create_only = false; no_create = false }); subst = true }) }
    ensures other_case { requested (codes "action=edit&title=P&text=x&Subst&token=%2B%5C") [] true ≡ valid (record { least = 0; ask = edit (record { title = codes "P"; body = Some (codes "x"); base = None; create_only = false; no_create = false }); subst = false }) }
    ensures deletion { requested (codes "action=delete&title=P&subst&token=%2B%5C") [] true ≡ valid (record { least = 0; ask = delete (codes "P") None; subst = false }) }
    ensures parsed { requested (codes "action=parse&page=P&subst") [] true ≡ valid (record { least = 0; ask = parse (codes "P"); subst = false }) }
    ensures expanded { requested (codes "action=expandtemplates&text=x&subst") [] true ≡ valid (record { least = 0; ask = expand_text (codes "x") (codes "API"); subst = false }) }
{}

/// Why an edit is refused, in the order of the checks.
pub fn refused_edits()
    ensures not_posted { requested (codes "action=edit") [] false ≡ invalid must_be_posted }
    ensures no_token { requested (codes "action=edit&title=A&text=x") [] true ≡ invalid bad_token }
    ensures other_token { requested (codes "action=delete&token=+%5C") [] true ≡ invalid bad_token }
    ensures no_title { requested (codes "action=edit&text=x&token=%2B%5C") [] true ≡ invalid (no_title (codes "title")) }
    ensures no_text { requested (codes "action=edit&title=A&baserevid=x&token=%2B%5C") [] true ≡ invalid no_text }
    ensures bad_base { requested (codes "action=edit&title=A&text=x&minpoint=x&baserevid=01&token=%2B%5C") [] true ≡ invalid (bad_integer (codes "baserevid")) }
    ensures bad_point { requested (codes "action=delete&title=A&minpoint=&token=%2B%5C") [] true ≡ invalid (bad_integer (codes "minpoint")) }
{}

/// What is asked of a page or a text.
pub fn pages()
    ensures parsed { requested (codes "action=parse&page=A&title=B&baserevid=x") [] false ≡ valid (record { least = 0; ask = parse (codes "A"); subst = false }) }
    ensures no_page { requested (codes "action=parse&title=A") [] true ≡ invalid (no_title (codes "page")) }
    ensures empty_title { requested (codes "action=parse&page=") [] true ≡ valid (record { least = 0; ask = parse []; subst = false }) }
    ensures expanded { requested (codes "action=expandtemplates&text=x") [] true ≡ valid (record { least = 0; ask = expand_text (codes "x") (codes "API"); subst = false }) }
    ensures expanded_in_a_page { requested (codes "action=expandtemplates&text=&title=A") [] true ≡ valid (record { least = 0; ask = expand_text [] (codes "A"); subst = false }) }
    ensures nothing_to_expand { requested (codes "action=expandtemplates&title=A") [] true ≡ invalid no_text }
{}

/// Limits and places of listings.
pub fn listings()
    ensures backlinks { requested (codes "action=query&list=backlinks&bltitle=A") [] true ≡ valid (record { least = 0; ask = backlinks (record { title = codes "A"; limit = 10; from = None }); subst = false }) }
    ensures greatest { requested (codes "action=query&list=embeddedin&eititle=A&eilimit=max&eicontinue=5") [] true ≡ valid (record { least = 0; ask = embedded (record { title = codes "A"; limit = 500; from = Some 5 }); subst = false }) }
    ensures above_the_greatest { requested (codes "action=query&list=categorymembers&cmtitle=Category:A&cmlimit=501&cmcontinue=0") [] true ≡ valid (record { least = 0; ask = members (record { title = codes "Category:A"; limit = 500; from = Some 0 }); subst = false }) }
    ensures changes { requested (codes "action=query&list=recentchanges&rclimit=1&bllimit=x") [] true ≡ valid (record { least = 0; ask = changes (record { title = []; limit = 1; from = None }); subst = false }) }
    ensures revisions { requested (codes "action=query&prop=revisions&titles=A&rvprop=ids") [] true ≡ valid (record { least = 0; ask = revisions (record { title = codes "A"; limit = 10; from = None }) false; subst = false }) }
    ensures with_content { requested (codes "action=query&prop=revisions&titles=A&rvprop=content&rvlimit=5&rvcontinue=3") [] true ≡ valid (record { least = 0; ask = revisions (record { title = codes "A"; limit = 1; from = Some 3 }) true; subst = false }) }
    ensures no_title { requested (codes "action=query&list=backlinks&title=A") [] true ≡ invalid (no_title (codes "bltitle")) }
    ensures zero { requested (codes "action=query&list=recentchanges&rccontinue=x&rclimit=0") [] true ≡ invalid (bad_integer (codes "rclimit")) }
    ensures other_spelling { requested (codes "action=query&list=recentchanges&rclimit=Max") [] true ≡ invalid (bad_integer (codes "rclimit")) }
    ensures content_with_a_bad_limit { requested (codes "action=query&prop=revisions&titles=A&rvprop=content&rvlimit=0") [] true ≡ invalid (bad_integer (codes "rvlimit")) }
    ensures too_great { requested (codes "action=query&list=recentchanges&rclimit=18446744073709551616") [] true ≡ invalid (bad_integer (codes "rclimit")) }
    ensures bad_place { requested (codes "action=query&list=recentchanges&rccontinue=-1") [] true ≡ invalid (bad_integer (codes "rccontinue")) }
    ensures point_before_limit { requested (codes "action=query&list=recentchanges&rclimit=0&minpoint=x") [] true ≡ invalid (bad_integer (codes "minpoint")) }
{}
