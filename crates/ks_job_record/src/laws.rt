//! What the definitions of job lines say, beside the code.
ghost use Rattle.std.specs.Prelude.{◌≡◌, ℕ, List, Some, true};
ghost use Rattle.serde_json.specs.Data.{Data, Members};
ghost use Rattle.serde_json.specs.Read.{read};
ghost use Rattle.ks_row.specs.Rows.{rises};
ghost use Rattle.ks_job_record.specs.declared.members.Form.{Form};
ghost use Rattle.ks_job_record.specs.Members.{all_known};
ghost use Rattle.ks_job_record.specs.Ordered.{IsOrdered, MembersOrdered, unknown_names, first_named};

/// Of several unknown members the least by bytes is named: an object's members are in order in every reading.
pub fn least_unknown_is_named()
    ensures ordered { (text : List ℕ) (d : Data) → read text ≡ Some d → IsOrdered d }
    ensures rising { (form : Form) (ms : Members) → MembersOrdered ms
        → rises (unknown_names form ms) ≡ true }
    ensures named { (form : Form) (ms : Members) → all_known form ms
        ≡ first_named (unknown_names form ms) }
{}
