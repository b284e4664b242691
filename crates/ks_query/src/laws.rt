//! Laws of the query: its words are folds over whole lists, and here is what each of them answers key by key. Each function has an empty
//! body, and its contract is the law.
ghost use Rattle.ks_query.specs.Laws.{LatestIsLast, ValuesAreMapped, KeysAreJoined, ForeignKeysAreJoined, GroupsAreOfTheirRows, MembersAreCounted};

/// A table of a topic has the last value of each key (Kafka Streams developer guide, "KTable").
#[tactic(auto, using(crate::proofs::Pointwise::latest_is_last))]
pub fn tables_are_last_values()
    ensures { LatestIsLast }
{}

/// A filter and a mapping of a table act row by row.
#[tactic(auto, using(crate::proofs::Pointwise::values_are_mapped))]
pub fn rows_are_mapped()
    ensures { ValuesAreMapped }
{}

/// Two tables are joined row by row: by their keys, or each left row with the right row at its foreign key (KIP-213).
#[tactic(auto, using(crate::proofs::Pointwise::keys_are_joined, crate::proofs::Pointwise::foreign_keys_are_joined))]
pub fn rows_are_joined()
    ensures keys { KeysAreJoined }
    ensures foreign_keys { ForeignKeysAreJoined }
{}

/// A group's count or sum is that of its own rows, one after another, of which it counts as many as there are, modulo 2^64; there is none
/// without a row (Kafka Streams developer guide, "Aggregating").
#[tactic(auto, using(crate::proofs::Pointwise::groups_are_of_their_rows, crate::proofs::Members::members_are_counted))]
pub fn groups_are_of_their_rows()
    ensures rows { GroupsAreOfTheirRows }
    ensures members { MembersAreCounted }
{}
