ghost use Rattle.ks_law_quiescence.specs.ForeignJoin.{OneKeyRests};

/// The protocol of a join on a foreign key as one left key sees it: after any changes of its row and of the right rows, and any
/// messages taken in any order that keeps each list's, once no message is under way and no two rows that the key has had collide,
/// each foreign key has exactly the present row's hash, and the result is that of the present rows. It speaks of this protocol alone and
/// says nothing of the task machine: that the machine's joins keep to it is what the laws of foreign-key joins at rest are shown by.
pub fn join_of_one_key_rests()
    ensures { OneKeyRests }
{}
