//! The task machine of a topology: what a task makes of one record, and the runs of all tasks.
#![tactic(auto)]

ghost use Rattle.ks_def_tasks.specs.Laws.{NamesAreDecided, FollowsTaken, PastsAreWritten, ChangelogsTell, TopicsAreApart, NoneForOthers, TablesAgree, HashesAgree, WindowsAgree, RecordsAgree};

/// In each state of each run of each topology, in whatever order records are taken: a task's stores are what its own steps made of
/// what it took, what was sent is what was received and then what waits, and a changelog's past is what its owner's own steps wrote.
pub fn runs_follow()
    ensures names { NamesAreDecided }
    ensures taken { FollowsTaken }
    ensures pasts { PastsAreWritten }
{}

/// Over bytes: what a step changes in a task's stores is what its own records for their changelogs say; each topic is taken by one
/// subtopology, and no task makes a record for another's changelog.
pub fn changelogs_tell()
    ensures told { ChangelogsTell }
    ensures apart { TopicsAreApart }
    ensures alone { NoneForOthers }
{}

/// Over bytes and decoded, one step of a record that the task reads: the records are the decoded ones, spelled. The stores that the
/// bytes are afterwards are those of the decoded step: tables, where what is stored is read again from its bytes; subscription stores,
/// where keys are bytes, a hash has 128 bits and a partition is at most 63; windowed counts with their greatest time, where keys are bytes and times have 64 bits.
pub fn bytes_agree()
    ensures records { RecordsAgree }
    ensures tables { TablesAgree }
    ensures hashes { HashesAgree }
    ensures windows { WindowsAgree }
{}
