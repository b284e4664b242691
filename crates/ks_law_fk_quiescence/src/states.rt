ghost use Rattle.ks_law_fk_quiescence.specs.Joins.{MessagesStand, OfEach, HashesAreHad, HashesFollow, OthersAreForgotten, PresentIsAnswered, ResultsFollow, GoneIsTold, AloneIsJoined};

/// Joins on a foreign key, in every state of every uncrashed run of every well-formed topology: each waiting subscription comes from
/// its left key's task, each waiting response from a task of the right side, and each stands at its key's partition. A subscription, waiting or kept, names its left key's task exactly where
/// the left side's keys are spread by their front parts.
pub fn join_messages_stand()
    ensures { MessagesStand }
{}

/// Joins on a foreign key, in every such state in which no two rows of a left key collide, for each left key and each foreign key.
/// Hashes are those of rows that the key has had. What is stored after all that waits is the present row's hash alone; so other
/// foreign keys are forgotten, or told to forget. The present row is asked for, or answered with the right row of the moment. A row
/// that went is told, and one without a foreign key is joined at once.
pub fn joins_in_each_state()
    ensures had { OfEach HashesAreHad }
    ensures hashes { OfEach HashesFollow }
    ensures others { OfEach OthersAreForgotten }
    ensures present { OfEach PresentIsAnswered }
    ensures results { OfEach ResultsFollow }
    ensures gone { OfEach GoneIsTold }
    ensures alone { OfEach AloneIsJoined }
{}
