//! The records of a job, as the inputs of its query. Laws alone: each public function has an empty body, and its contract is the
//! law.
#![tactic(auto)]

ghost use Rattle.std.specs.Prelude.{◌≡◌, ℕ, List, Some};
ghost use Rattle.std.specs.Str.{IsUtf8};
ghost use Rattle.serde_json.specs.Data.{Data};
ghost use Rattle.serde_json.specs.Read.{read};
ghost use Rattle.ks_job.specs.Reader.{whole};
ghost use Rattle.ks_law_inputs.specs.Values.{FitsData};
ghost use Rattle.ks_law_inputs.specs.Records.{IsWhole};

/// A value that is read from a text of UTF-8 has texts of UTF-8 alone, and negative numbers of 64 bits.
pub fn values_fit()
    ensures { (text : List ℕ) (d : Data) → IsUtf8 text → read text ≡ Some d → FitsData d }
{}

/// Whatever the bytes are: of the items that are read from them the first is the topology, each of its topics has a partition,
/// and all others are records of its topics, whose keys are keys and whose values are rows.
pub fn records_fit()
    ensures { (bytes : List ℕ) → IsWhole (whole bytes) }
{}
