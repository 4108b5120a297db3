//! Refreshes, fans and restarts as a script answers them.
ghost use Rattle.std.specs.Prelude.{◌≡◌, codes, ◌∷◌, [], Some, None};
ghost use Rattle.wk_page_rules.specs.Verdict.{full_limits};
ghost use Rattle.wk_wiki_rules.specs.Events.{Save, Claim, Back};
ghost use Rattle.wk_script_rules.specs.Runs.{script_end, replies_text, wiki_script_replies};
ghost use Rattle.wk_examples.specs.Stores.{title_a, title_b};
ghost use Rattle.wk_examples.specs.Scripts.{save_a, save_b, journal_of_four, first_output, first_replies, replies_to, nothing_saved, first_version, journal_of_three};

/// A page tests whether another exists, which is created and deleted.
pub fn a_test_of_existence()
    ensures { first_replies (codes "api action=edit&title=P&text={{#ifexist:Q|y|n}}&token=%2B%5C"
        ∷ codes "claim"
        ∷ codes "read 2"
        ∷ codes "read 2"
        ∷ codes "finish 2"
        ∷ codes "api action=edit&title=Q&text=q&token=%2B%5C"
        ∷ codes "fan"
        ∷ codes "api action=parse&page=P"
        ∷ codes "api action=delete&title=Q&token=%2B%5C"
        ∷ codes "api action=parse&page=P"
        ∷ [])
        ≡ codes "{\"edit\":{\"new\":true,\"newrevid\":1,\"oldrevid\":0,\"pageid\":1,\"result\":\"Success\",\"title\":\"P\"},\"point\":1}"
        ∷ codes "{\"claim\":{\"ticket\":2,\"title\":\"P\"},\"point\":2}"
        ∷ codes "{\"point\":2,\"read\":{\"kind\":\"view\",\"mark\":1,\"title\":\"P\"}}"
        ∷ codes "{\"point\":2,\"read\":{\"kind\":\"exists\",\"mark\":0,\"title\":\"Q\"}}"
        ∷ codes "{\"finish\":\"done\",\"point\":3}"
        ∷ codes "{\"edit\":{\"new\":true,\"newrevid\":2,\"oldrevid\":0,\"pageid\":2,\"result\":\"Success\",\"title\":\"Q\"},\"point\":4}"
        ∷ codes "{\"fan\":{\"queued\":1,\"served\":1,\"title\":\"Q\"},\"point\":5}"
        ∷ codes "{\"parse\":{\"categories\":[],\"expanded\":\"y\",\"links\":[{\"ns\":0,\"title\":\"Q\"}],\"pageid\":1,\"revid\":1,\"templates\":[],\"title\":\"P\"},\"point\":5}"
        ∷ codes "{\"delete\":{\"oldrevid\":2,\"revid\":3,\"title\":\"Q\"},\"point\":6}"
        ∷ codes "{\"parse\":{\"categories\":[],\"expanded\":\"n\",\"links\":[{\"ns\":0,\"title\":\"Q\"}],\"pageid\":1,\"revid\":1,\"templates\":[],\"title\":\"P\"},\"point\":6}"
        ∷ [] }
{}

/// A restart gives back the ticket that is out, and a new life begins.
pub fn a_restart()
    ensures { first_replies (codes "api action=edit&title=A&text=x&token=%2B%5C"
        ∷ codes "claim"
        ∷ codes "restart"
        ∷ codes "finish 2"
        ∷ codes "claim"
        ∷ [])
        ≡ codes "{\"edit\":{\"new\":true,\"newrevid\":1,\"oldrevid\":0,\"pageid\":1,\"result\":\"Success\",\"title\":\"A\"},\"point\":1}"
        ∷ codes "{\"claim\":{\"ticket\":2,\"title\":\"A\"},\"point\":2}"
        ∷ codes "{\"point\":0,\"restart\":{\"jobs\":1,\"pages\":1}}"
        ∷ codes "{\"error\":{\"code\":\"notticket\",\"info\":\"No such ticket.\"},\"point\":0}"
        ∷ codes "{\"claim\":{\"ticket\":1,\"title\":\"A\"},\"point\":1}"
        ∷ [] }
{}

/// With a journal of three events: reads are still answered, and a restart begins a new one.
pub fn a_full_journal()
    ensures { replies_to journal_of_three nothing_saved (codes "api action=edit&title=A&text=a&token=%2B%5C"
        ∷ codes "api action=edit&title=B&text=b&token=%2B%5C"
        ∷ codes "claim"
        ∷ codes "api action=edit&title=C&text=c&token=%2B%5C"
        ∷ codes "api action=edit&title=D&text=d&token=%2B%5C"
        ∷ codes "api action=parse&page=A"
        ∷ codes "restart"
        ∷ codes "api action=edit&title=D&text=d&token=%2B%5C"
        ∷ [])
        ≡ codes "{\"edit\":{\"new\":true,\"newrevid\":1,\"oldrevid\":0,\"pageid\":1,\"result\":\"Success\",\"title\":\"A\"},\"point\":1}"
        ∷ codes "{\"edit\":{\"new\":true,\"newrevid\":2,\"oldrevid\":0,\"pageid\":2,\"result\":\"Success\",\"title\":\"B\"},\"point\":2}"
        ∷ codes "{\"error\":{\"code\":\"journalfull\",\"info\":\"The journal is full.\"},\"point\":2}"
        ∷ codes "{\"edit\":{\"new\":true,\"newrevid\":3,\"oldrevid\":0,\"pageid\":3,\"result\":\"Success\",\"title\":\"C\"},\"point\":3}"
        ∷ codes "{\"error\":{\"code\":\"journalfull\",\"info\":\"The journal is full.\"},\"point\":3}"
        ∷ codes "{\"parse\":{\"categories\":[],\"expanded\":\"a\",\"links\":[],\"pageid\":1,\"revid\":1,\"templates\":[],\"title\":\"A\"},\"point\":3}"
        ∷ codes "{\"point\":0,\"restart\":{\"jobs\":3,\"pages\":3}}"
        ∷ codes "{\"edit\":{\"new\":true,\"newrevid\":4,\"oldrevid\":0,\"pageid\":4,\"result\":\"Success\",\"title\":\"D\"},\"point\":1}"
        ∷ [] }
{}

/// A least point that is reached, and one that isn't yet.
pub fn points()
    ensures { first_replies (codes "api action=edit&title=A&text=x&token=%2B%5C"
        ∷ codes "claim"
        ∷ codes "read 2"
        ∷ codes "finish 2"
        ∷ codes "api action=parse&page=A&minpoint=1"
        ∷ codes "api action=parse&page=A&minpoint=9"
        ∷ [])
        ≡ codes "{\"edit\":{\"new\":true,\"newrevid\":1,\"oldrevid\":0,\"pageid\":1,\"result\":\"Success\",\"title\":\"A\"},\"point\":1}"
        ∷ codes "{\"claim\":{\"ticket\":2,\"title\":\"A\"},\"point\":2}"
        ∷ codes "{\"point\":2,\"read\":{\"kind\":\"view\",\"mark\":1,\"title\":\"A\"}}"
        ∷ codes "{\"finish\":\"done\",\"point\":3}"
        ∷ codes "{\"parse\":{\"categories\":[],\"expanded\":\"x\",\"links\":[],\"pageid\":1,\"revid\":1,\"templates\":[],\"title\":\"A\"},\"point\":3}"
        ∷ codes "{\"error\":{\"code\":\"futurepoint\",\"info\":\"That point is not reached yet.\",\"latest\":3},\"point\":3}"
        ∷ [] }
{}

/// A store of version 1 is opened with a refresh of each page.
pub fn an_old_store()
    ensures { replies_to full_limits first_version (codes "restart"
        ∷ [])
        ≡ codes "{\"point\":0,\"restart\":{\"jobs\":1,\"pages\":1}}"
        ∷ [] }
{}

/// What is answered where a ticket isn't out, and where a draft has all that it needs or not yet.
pub fn tickets()
    ensures { first_replies (codes "claim"
        ∷ codes "giveback 1"
        ∷ codes "api action=edit&title=A&text=x&token=%2B%5C"
        ∷ codes "claim"
        ∷ codes "finish 2"
        ∷ codes "read 2"
        ∷ codes "read 2"
        ∷ codes "giveback 2"
        ∷ codes "read 2"
        ∷ codes "claim"
        ∷ [])
        ≡ codes "{\"claim\":null,\"point\":0}"
        ∷ codes "{\"error\":{\"code\":\"notticket\",\"info\":\"No such ticket.\"},\"point\":0}"
        ∷ codes "{\"edit\":{\"new\":true,\"newrevid\":1,\"oldrevid\":0,\"pageid\":1,\"result\":\"Success\",\"title\":\"A\"},\"point\":1}"
        ∷ codes "{\"claim\":{\"ticket\":2,\"title\":\"A\"},\"point\":2}"
        ∷ codes "{\"error\":{\"code\":\"needsread\",\"info\":\"A read is missing.\",\"kind\":\"view\",\"title\":\"A\"},\"point\":2}"
        ∷ codes "{\"point\":2,\"read\":{\"kind\":\"view\",\"mark\":1,\"title\":\"A\"}}"
        ∷ codes "{\"error\":{\"code\":\"noread\",\"info\":\"Nothing is left to read.\"},\"point\":2}"
        ∷ codes "{\"giveback\":\"A\",\"point\":3}"
        ∷ codes "{\"error\":{\"code\":\"notticket\",\"info\":\"No such ticket.\"},\"point\":3}"
        ∷ codes "{\"claim\":{\"ticket\":4,\"title\":\"A\"},\"point\":4}"
        ∷ [] }
{}

/// Lines that have no reply, and lines that are none of the forms.
pub fn other_lines()
    ensures { first_output (codes "\n\r\napi\napi \nclaim \nread x\nread 01\nread  1\nfinish 9\nfan\r\n") ≡ codes "{\"error\":{\"code\":\"badline\",\"info\":\"Unknown line.\"},\"point\":0}\n{\"error\":{\"code\":\"badvalue\",\"info\":\"Unrecognized value.\",\"parameter\":\"action\"},\"point\":0}\n{\"error\":{\"code\":\"badline\",\"info\":\"Unknown line.\"},\"point\":0}\n{\"error\":{\"code\":\"badline\",\"info\":\"Unknown line.\"},\"point\":0}\n{\"error\":{\"code\":\"badline\",\"info\":\"Unknown line.\"},\"point\":0}\n{\"error\":{\"code\":\"badline\",\"info\":\"Unknown line.\"},\"point\":0}\n{\"error\":{\"code\":\"notticket\",\"info\":\"No such ticket.\"},\"point\":0}\n{\"fan\":null,\"point\":0}\n" }
{}

/// A fan needs room in the journal too, and a restart counts jobs of both kinds.
pub fn a_full_journal_and_a_fan()
    ensures refused { replies_to journal_of_four nothing_saved (codes "api action=edit&title=P&text={{#ifexist:Q|y|n}}&token=%2B%5C"
        ∷ codes "claim"
        ∷ codes "read 2"
        ∷ codes "read 2"
        ∷ codes "finish 2"
        ∷ codes "api action=edit&title=Q&text=q&token=%2B%5C"
        ∷ codes "fan"
        ∷ [])
        ≡ codes "{\"edit\":{\"new\":true,\"newrevid\":1,\"oldrevid\":0,\"pageid\":1,\"result\":\"Success\",\"title\":\"P\"},\"point\":1}"
        ∷ codes "{\"claim\":{\"ticket\":2,\"title\":\"P\"},\"point\":2}"
        ∷ codes "{\"point\":2,\"read\":{\"kind\":\"view\",\"mark\":1,\"title\":\"P\"}}"
        ∷ codes "{\"point\":2,\"read\":{\"kind\":\"exists\",\"mark\":0,\"title\":\"Q\"}}"
        ∷ codes "{\"finish\":\"done\",\"point\":3}"
        ∷ codes "{\"edit\":{\"new\":true,\"newrevid\":2,\"oldrevid\":0,\"pageid\":2,\"result\":\"Success\",\"title\":\"Q\"},\"point\":4}"
        ∷ codes "{\"error\":{\"code\":\"journalfull\",\"info\":\"The journal is full.\"},\"point\":4}"
        ∷ [] }
    ensures both_kinds { first_replies (codes "api action=edit&title=P&text={{T}}&token=%2B%5C"
        ∷ codes "claim"
        ∷ codes "read 2"
        ∷ codes "read 2"
        ∷ codes "finish 2"
        ∷ codes "api action=edit&title=Template:T&text=x&token=%2B%5C"
        ∷ codes "api action=query&list=embeddedin&eititle=Template:T"
        ∷ codes "restart"
        ∷ [])
        ≡ codes "{\"edit\":{\"new\":true,\"newrevid\":1,\"oldrevid\":0,\"pageid\":1,\"result\":\"Success\",\"title\":\"P\"},\"point\":1}"
        ∷ codes "{\"claim\":{\"ticket\":2,\"title\":\"P\"},\"point\":2}"
        ∷ codes "{\"point\":2,\"read\":{\"kind\":\"view\",\"mark\":1,\"title\":\"P\"}}"
        ∷ codes "{\"point\":2,\"read\":{\"kind\":\"include\",\"mark\":0,\"title\":\"Template:T\"}}"
        ∷ codes "{\"finish\":\"done\",\"point\":3}"
        ∷ codes "{\"edit\":{\"new\":true,\"newrevid\":2,\"oldrevid\":0,\"pageid\":2,\"result\":\"Success\",\"title\":\"Template:T\"},\"point\":4}"
        ∷ codes "{\"point\":4,\"query\":{\"embeddedin\":[{\"ns\":0,\"pageid\":1,\"title\":\"P\"}]}}"
        ∷ codes "{\"point\":0,\"restart\":{\"jobs\":2,\"pages\":2}}"
        ∷ [] }
{}

/// The tickets that are out at a restart and at the end of the input are given back in the order of their numbers.
pub fn tickets_that_are_out()
    ensures restart { first_replies (codes "api action=edit&title=A&text=a&token=%2B%5C"
        ∷ codes "api action=edit&title=B&text=b&token=%2B%5C"
        ∷ codes "claim"
        ∷ codes "claim"
        ∷ codes "restart"
        ∷ codes "claim"
        ∷ codes "claim"
        ∷ [])
        ≡ codes "{\"edit\":{\"new\":true,\"newrevid\":1,\"oldrevid\":0,\"pageid\":1,\"result\":\"Success\",\"title\":\"A\"},\"point\":1}"
        ∷ codes "{\"edit\":{\"new\":true,\"newrevid\":2,\"oldrevid\":0,\"pageid\":2,\"result\":\"Success\",\"title\":\"B\"},\"point\":2}"
        ∷ codes "{\"claim\":{\"ticket\":3,\"title\":\"A\"},\"point\":3}"
        ∷ codes "{\"claim\":{\"ticket\":4,\"title\":\"B\"},\"point\":4}"
        ∷ codes "{\"point\":0,\"restart\":{\"jobs\":2,\"pages\":2}}"
        ∷ codes "{\"claim\":{\"ticket\":1,\"title\":\"A\"},\"point\":1}"
        ∷ codes "{\"claim\":{\"ticket\":2,\"title\":\"B\"},\"point\":2}"
        ∷ [] }
    ensures end { (script_end full_limits nothing_saved (Some save_a ∷ Some save_b ∷ Some (codes "claim") ∷ Some (codes "claim") ∷ []) (5 ∷ 6 ∷ [])).journal ≡ Save title_a (Some (codes "a")) 5 ∷ Save title_b (Some (codes "b")) 6 ∷ Claim ∷ Claim ∷ Back 3 ∷ Back 4 ∷ [] }
{}

/// A line that is too long is told of, and changes nothing.
pub fn a_line_that_is_too_long()
    ensures { replies_text (wiki_script_replies full_limits nothing_saved (None ∷ []) []) ≡ codes "{\"error\":{\"code\":\"linetoolong\",\"info\":\"The line is longer than 8388608 bytes.\"},\"point\":0}\n" }
{}
