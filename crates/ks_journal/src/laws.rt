//! What holds of every line. Each law is the contract of a function that does nothing.
ghost use Rattle.std.specs.Prelude.{◌≡◌, List, Some};
ghost use Rattle.ks_history.specs.declared.journal.Entry.{Entry};
ghost use Rattle.ks_history.specs.State.{Setup, State};
ghost use Rattle.ks_history.specs.History.{IsStep};
ghost use Rattle.ks_journal.specs.Lines.{entry_text, journal_text};
ghost use Rattle.ks_journal.specs.Replies.{HasReply};
ghost use Rattle.ks_journal.specs.Fits.{FitsEntry, FitsJournal};
ghost use Rattle.ks_journal.specs.Reading.{entry_from};

/// A line tells its entry: JSON reads it as that entry, so that no other entry has it.
pub fn a_line_tells_its_entry()
    ensures again { (e : Entry) → FitsEntry e → entry_from (entry_text e) ≡ Some e }
    ensures one { (a b : Entry) → FitsEntry a → FitsEntry b → entry_text a ≡ entry_text b → a ≡ b }
{}

/// The text of a journal tells its entries: no other journal has it.
pub fn a_text_tells_its_journal()
    ensures { (a b : List Entry) → FitsJournal a → FitsJournal b → journal_text a ≡ journal_text b
        → a ≡ b }
{}

/// An entry of a legal journal has a reply that its request can have.
pub fn a_step_has_its_reply()
    ensures { (setup : Setup) (s : State) (e : Entry) → IsStep setup s e → HasReply e }
{}
