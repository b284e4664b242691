//! The load job, as a reader of jobs reads it. Laws alone: each public function has an empty body, and its contract is the law.
#![tactic(auto)]

ghost use Rattle.std.specs.Prelude.{◌≡◌, ◌≤◌, ℕ, List, None};
ghost use Rattle.ks_plan.specs.Faults.{fault_of};
ghost use Rattle.ks_plan.specs.Plan.{plan_of};
ghost use Rattle.ks_query.specs.Grace.{IsWithinGrace};
ghost use Rattle.ks_query.specs.Streams.{Input};
ghost use Rattle.ks_words.specs.Load.{load_text};
ghost use Rattle.ks_job.specs.Reader.{whole};
ghost use Rattle.ks_law_load_job.specs.Items.{load_draft, load_items, HasRead};

/// Of the load job's bytes a reader gives the load job's topology and then its records, in their order, none left out and none
/// more, and meets no fault.
pub fn load_job_is_read()
    ensures { (orders : ℕ) → orders ≤ 150000
        → HasRead (load_items orders) (whole (load_text orders)) }
{}

/// The load job's topology has no fault, and it has no windowed count: whatever its records are, they are within grace.
pub fn load_job_is_valid()
    ensures well_formed { fault_of load_draft ≡ None }
    ensures in_time { (records : List Input) → IsWithinGrace (plan_of load_draft) records }
{}
