//! Scripts over the whole wiki, line by line, and the lines of their replies.
ghost use Rattle.std.specs.Prelude.{◌≡◌, codes, ◌∷◌, []};
ghost use Rattle.wk_examples.specs.Scripts.{first_output, first_replies};

/// The first save of a page, and a later one; a base that isn't current; a text that is there already.
pub fn edits()
    ensures first { first_output (codes "api action=edit&title=a_b&text=x&token=%2B%5C\n") ≡ codes "{\"edit\":{\"new\":true,\"newrevid\":1,\"oldrevid\":0,\"pageid\":1,\"result\":\"Success\",\"title\":\"A b\"},\"point\":1}\n" }
    ensures conflict { first_replies (codes "api action=edit&title=A&text=1&token=%2B%5C"
        ∷ codes "api action=edit&title=A&text=2&token=%2B%5C"
        ∷ codes "api action=edit&title=A&text=3&baserevid=1&token=%2B%5C"
        ∷ codes "api action=edit&title=A&text=2&token=%2B%5C"
        ∷ codes "api action=edit&title=A&text=2&baserevid=1&token=%2B%5C"
        ∷ [])
        ≡ codes "{\"edit\":{\"new\":true,\"newrevid\":1,\"oldrevid\":0,\"pageid\":1,\"result\":\"Success\",\"title\":\"A\"},\"point\":1}"
        ∷ codes "{\"edit\":{\"newrevid\":2,\"oldrevid\":1,\"pageid\":1,\"result\":\"Success\",\"title\":\"A\"},\"point\":2}"
        ∷ codes "{\"error\":{\"code\":\"editconflict\",\"current\":2,\"info\":\"Edit conflict.\"},\"point\":2}"
        ∷ codes "{\"edit\":{\"nochange\":true,\"pageid\":1,\"result\":\"Success\",\"title\":\"A\"},\"point\":2}"
        ∷ codes "{\"error\":{\"code\":\"editconflict\",\"current\":2,\"info\":\"Edit conflict.\"},\"point\":2}"
        ∷ [] }
{}

/// A page is refreshed while a template of it is saved.
pub fn race()
    ensures { first_replies (codes "api action=edit&title=P&text={{T}}{{U}}&token=%2B%5C"
        ∷ codes "api action=edit&title=Template:T&text=t1&token=%2B%5C"
        ∷ codes "api action=edit&title=Template:U&text=u1&token=%2B%5C"
        ∷ codes "claim"
        ∷ codes "read 4"
        ∷ codes "read 4"
        ∷ codes "api action=edit&title=Template:T&text=t2&token=%2B%5C"
        ∷ codes "read 4"
        ∷ codes "finish 4"
        ∷ codes "claim"
        ∷ codes "read 7"
        ∷ codes "finish 7"
        ∷ codes "claim"
        ∷ codes "read 9"
        ∷ codes "finish 9"
        ∷ codes "claim"
        ∷ codes "read 11"
        ∷ codes "read 11"
        ∷ codes "read 11"
        ∷ codes "finish 11"
        ∷ codes "fan"
        ∷ codes "claim"
        ∷ [])
        ≡ codes "{\"edit\":{\"new\":true,\"newrevid\":1,\"oldrevid\":0,\"pageid\":1,\"result\":\"Success\",\"title\":\"P\"},\"point\":1}"
        ∷ codes "{\"edit\":{\"new\":true,\"newrevid\":2,\"oldrevid\":0,\"pageid\":2,\"result\":\"Success\",\"title\":\"Template:T\"},\"point\":2}"
        ∷ codes "{\"edit\":{\"new\":true,\"newrevid\":3,\"oldrevid\":0,\"pageid\":3,\"result\":\"Success\",\"title\":\"Template:U\"},\"point\":3}"
        ∷ codes "{\"claim\":{\"ticket\":4,\"title\":\"P\"},\"point\":4}"
        ∷ codes "{\"point\":4,\"read\":{\"kind\":\"view\",\"mark\":1,\"title\":\"P\"}}"
        ∷ codes "{\"point\":4,\"read\":{\"kind\":\"include\",\"mark\":2,\"title\":\"Template:T\"}}"
        ∷ codes "{\"edit\":{\"newrevid\":4,\"oldrevid\":2,\"pageid\":2,\"result\":\"Success\",\"title\":\"Template:T\"},\"point\":5}"
        ∷ codes "{\"point\":5,\"read\":{\"kind\":\"include\",\"mark\":3,\"title\":\"Template:U\"}}"
        ∷ codes "{\"finish\":\"stale\",\"kind\":\"include\",\"now\":4,\"point\":6,\"read\":2,\"title\":\"Template:T\"}"
        ∷ codes "{\"claim\":{\"ticket\":7,\"title\":\"Template:T\"},\"point\":7}"
        ∷ codes "{\"point\":7,\"read\":{\"kind\":\"view\",\"mark\":4,\"title\":\"Template:T\"}}"
        ∷ codes "{\"finish\":\"done\",\"point\":8}"
        ∷ codes "{\"claim\":{\"ticket\":9,\"title\":\"Template:U\"},\"point\":9}"
        ∷ codes "{\"point\":9,\"read\":{\"kind\":\"view\",\"mark\":3,\"title\":\"Template:U\"}}"
        ∷ codes "{\"finish\":\"done\",\"point\":10}"
        ∷ codes "{\"claim\":{\"ticket\":11,\"title\":\"P\"},\"point\":11}"
        ∷ codes "{\"point\":11,\"read\":{\"kind\":\"view\",\"mark\":1,\"title\":\"P\"}}"
        ∷ codes "{\"point\":11,\"read\":{\"kind\":\"include\",\"mark\":4,\"title\":\"Template:T\"}}"
        ∷ codes "{\"point\":11,\"read\":{\"kind\":\"include\",\"mark\":3,\"title\":\"Template:U\"}}"
        ∷ codes "{\"finish\":\"done\",\"point\":12}"
        ∷ codes "{\"fan\":null,\"point\":12}"
        ∷ codes "{\"claim\":null,\"point\":12}"
        ∷ [] }
{}
