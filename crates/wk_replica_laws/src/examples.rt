//! Worked examples of what a replica replies that has taken these lines, to parameters that are posted.
ghost use Rattle.std.specs.Prelude.{◌≡◌, codes, []};
ghost use Rattle.wk_replica.specs.Points.{HasTakenLines};
ghost use Rattle.wk_replica.specs.Replicas.{ReplicaSeen};
ghost use Rattle.wk_replica_laws.specs.Replies.{cut_lines, one_page_lines, reply_of};

/// A is saved in an empty wiki at moment 7 and refreshed, which is three events. A replica that has taken their lines shows A at point
/// 3. An edit is refused, also where it is to be transformed, or asks for a point that isn't reached; but its parameters are looked
/// at first.
pub fn a_replica_of_one_page()
    ensures parse { (replica : ReplicaSeen) → HasTakenLines one_page_lines replica → reply_of replica (codes "action=parse&page=A") ≡ codes "{\"parse\":{\"categories\":[],\"expanded\":\"x\",\"links\":[],\"pageid\":1,\"revid\":1,\"templates\":[],\"title\":\"A\"},\"point\":3}" }
    ensures early { (replica : ReplicaSeen) → HasTakenLines one_page_lines replica → reply_of replica (codes "action=parse&page=A&minpoint=4") ≡ codes "{\"error\":{\"code\":\"futurepoint\",\"info\":\"That point is not reached yet.\",\"latest\":3},\"point\":3}" }
    ensures edit { (replica : ReplicaSeen) → HasTakenLines one_page_lines replica → reply_of replica (codes "action=edit&title=A&text=y&token=%2B%5C") ≡ codes "{\"error\":{\"code\":\"readonly\",\"info\":\"This wiki is read only.\"},\"point\":3}" }
    ensures early_edit { (replica : ReplicaSeen) → HasTakenLines one_page_lines replica → reply_of replica (codes "action=edit&title=A&text=y&minpoint=4&token=%2B%5C") ≡ codes "{\"error\":{\"code\":\"readonly\",\"info\":\"This wiki is read only.\"},\"point\":3}" }
    ensures substituted { (replica : ReplicaSeen) → HasTakenLines one_page_lines replica → reply_of replica (codes "action=edit&title=A&text={{subst:B}}&subst&token=%2B%5C") ≡ codes "{\"error\":{\"code\":\"readonly\",\"info\":\"This wiki is read only.\"},\"point\":3}" }
    ensures deletion { (replica : ReplicaSeen) → HasTakenLines one_page_lines replica → reply_of replica (codes "action=delete&title=A&token=%2B%5C") ≡ codes "{\"error\":{\"code\":\"readonly\",\"info\":\"This wiki is read only.\"},\"point\":3}" }
    ensures no_token { (replica : ReplicaSeen) → HasTakenLines one_page_lines replica → reply_of replica (codes "action=edit&title=A&text=y") ≡ codes "{\"error\":{\"code\":\"badtoken\",\"info\":\"Invalid token.\"},\"point\":3}" }
{}

/// The same feed, cut within its last line: the replica shows A at point 2.
pub fn a_replica_of_a_cut_feed()
    ensures { (replica : ReplicaSeen) → HasTakenLines cut_lines replica → reply_of replica (codes "action=parse&page=A") ≡ codes "{\"parse\":{\"categories\":[],\"expanded\":\"x\",\"links\":[],\"pageid\":1,\"revid\":1,\"templates\":[],\"title\":\"A\"},\"point\":2}" }
{}

/// A replica that has taken no line answers as an empty wiki at point 0.
pub fn a_replica_before_its_start()
    ensures { (replica : ReplicaSeen) → HasTakenLines [] replica → reply_of replica (codes "action=parse&page=A") ≡ codes "{\"error\":{\"code\":\"missingtitle\",\"info\":\"The page does not exist.\"},\"point\":0}" }
{}
