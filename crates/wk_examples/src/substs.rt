//! Edits whose text is transformed before they are judged, as a script's lines.
ghost use Rattle.std.specs.Prelude.{◌≡◌, codes, ◌∷◌, []};
ghost use Rattle.wk_examples.specs.Scripts.{first_replies};

/// A template that is called by `subst:` is put in, and the page has the text that the edit's text became.
pub fn templates_are_put_in()
    ensures { first_replies (codes "api action=edit&title=Template:G&text=Hi {{{1|you}}}<noinclude>doc</noinclude> {{B}}&token=%2B%5C"
        ∷ codes "api action=edit&title=P&text={{subst:G|Ann}}&subst&token=%2B%5C"
        ∷ codes "api action=query&prop=revisions&titles=P&rvprop=content"
        ∷ codes "api action=edit&title=P&text={{A|{{subst:G}}}}&subst=&token=%2B%5C"
        ∷ codes "api action=query&prop=revisions&titles=P&rvprop=content"
        ∷ [])
        ≡ codes "{\"edit\":{\"new\":true,\"newrevid\":1,\"oldrevid\":0,\"pageid\":1,\"result\":\"Success\",\"title\":\"Template:G\"},\"point\":1}"
        ∷ codes "{\"edit\":{\"new\":true,\"newrevid\":2,\"oldrevid\":0,\"pageid\":2,\"result\":\"Success\",\"title\":\"P\"},\"point\":2}"
        ∷ codes "{\"point\":2,\"query\":{\"revisions\":[{\"content\":\"Hi Ann {{B}}\",\"parentid\":0,\"revid\":2,\"size\":12,\"timestamp\":0}]}}"
        ∷ codes "{\"edit\":{\"newrevid\":3,\"oldrevid\":2,\"pageid\":2,\"result\":\"Success\",\"title\":\"P\"},\"point\":3}"
        ∷ codes "{\"continue\":3,\"point\":3,\"query\":{\"revisions\":[{\"content\":\"{{A|Hi you {{B}}}}\",\"parentid\":2,\"revid\":3,\"size\":18,\"timestamp\":0}]}}"
        ∷ [] }
{}

/// A call of a missing page, sealed text and comments stay, and so does each call without the flag.
pub fn what_stays()
    ensures { first_replies (codes "api action=edit&title=Template:G&text=Hi {{{1|you}}}<noinclude>doc</noinclude> {{B}}&token=%2B%5C"
        ∷ codes "api action=edit&title=P&text={{subst:None}}<nowiki>{{subst:G}}</nowiki><!--{{subst:G}}-->&subst&token=%2B%5C"
        ∷ codes "api action=query&prop=revisions&titles=P&rvprop=content"
        ∷ codes "api action=edit&title=P&text={{subst:G}}&token=%2B%5C"
        ∷ codes "api action=query&prop=revisions&titles=P&rvprop=content"
        ∷ [])
        ≡ codes "{\"edit\":{\"new\":true,\"newrevid\":1,\"oldrevid\":0,\"pageid\":1,\"result\":\"Success\",\"title\":\"Template:G\"},\"point\":1}"
        ∷ codes "{\"edit\":{\"new\":true,\"newrevid\":2,\"oldrevid\":0,\"pageid\":2,\"result\":\"Success\",\"title\":\"P\"},\"point\":2}"
        ∷ codes "{\"point\":2,\"query\":{\"revisions\":[{\"content\":\"{{subst:None}}<nowiki>{{subst:G}}</nowiki><!--{{subst:G}}-->\",\"parentid\":0,\"revid\":2,\"size\":60,\"timestamp\":0}]}}"
        ∷ codes "{\"edit\":{\"newrevid\":3,\"oldrevid\":2,\"pageid\":2,\"result\":\"Success\",\"title\":\"P\"},\"point\":3}"
        ∷ codes "{\"continue\":3,\"point\":3,\"query\":{\"revisions\":[{\"content\":\"{{subst:G}}\",\"parentid\":2,\"revid\":3,\"size\":11,\"timestamp\":0}]}}"
        ∷ [] }
{}

/// What the text became is judged as any other text: it may be the page's own, and a base may be stale. A deletion heeds no flag.
pub fn judged()
    ensures { first_replies (codes "api action=edit&title=Template:G&text=x&token=%2B%5C"
        ∷ codes "api action=edit&title=P&text=x&token=%2B%5C"
        ∷ codes "api action=edit&title=P&text={{subst:G}}&subst&token=%2B%5C"
        ∷ codes "api action=edit&title=P&text={{subst:G}}y&subst&baserevid=1&token=%2B%5C"
        ∷ codes "api action=edit&title=P&text={{subst:G}}y&subst&createonly&token=%2B%5C"
        ∷ codes "api action=edit&title=%7B&text={{subst:G}}&subst&token=%2B%5C"
        ∷ codes "api action=delete&title=P&subst&token=%2B%5C"
        ∷ [])
        ≡ codes "{\"edit\":{\"new\":true,\"newrevid\":1,\"oldrevid\":0,\"pageid\":1,\"result\":\"Success\",\"title\":\"Template:G\"},\"point\":1}"
        ∷ codes "{\"edit\":{\"new\":true,\"newrevid\":2,\"oldrevid\":0,\"pageid\":2,\"result\":\"Success\",\"title\":\"P\"},\"point\":2}"
        ∷ codes "{\"edit\":{\"nochange\":true,\"pageid\":2,\"result\":\"Success\",\"title\":\"P\"},\"point\":2}"
        ∷ codes "{\"error\":{\"code\":\"editconflict\",\"current\":2,\"info\":\"Edit conflict.\"},\"point\":2}"
        ∷ codes "{\"error\":{\"code\":\"articleexists\",\"info\":\"The page exists already.\"},\"point\":2}"
        ∷ codes "{\"error\":{\"code\":\"invalidtitle\",\"info\":\"Bad title.\"},\"point\":2}"
        ∷ codes "{\"delete\":{\"oldrevid\":2,\"revid\":3,\"title\":\"P\"},\"point\":3}"
        ∷ [] }
{}
