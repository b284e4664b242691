//! Tasks that send one another records: one notion of machine and of run, which knows no kind of node and no log.
//! Definitions and their laws alone: no code.
#![tactic(auto)]
