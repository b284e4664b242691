//! Predicates, as JSON says them.
ghost use Rattle.std.specs.Prelude.{◌≡◌, IfOk, codes, false};
ghost use Rattle.serde_json.specs.View.{view};
ghost use Rattle.ks_expr.specs.Terms.{term_of, test_of, IsThere, Fails};
ghost use Rattle.ks_job_topology.specs.Exprs.{seen_by, both_of};
ghost use Rattle.ks_job_record.specs.Members.{member_of};
ghost use Rattle.ks_job_topology.specs.Tests.{is_comparison, is_connective, compared, connected, comparison_from, simple_from, test_from, test_within, shallow_test, where_of};
ghost use Rattle.ks_job_record.specs.Gives.{Gives};

use crate::expr::{Judged, boxed, is_within, judge, only_member, only_pair, pair_up, read_expr};
use ks_expr::{Expr, Pred};
use ks_job_record::{LineError, read_member, too_many};
use serde_json::Value;
use std::alloc::{AllocError, Global};

fn names_comparison(name: &str) -> bool
    ensures { result ≡ is_comparison name.now }
{
    name == "eq" || name == "lt"
}

fn names_connective(name: &str) -> bool
    ensures { result ≡ is_connective name.now }
{
    name == "and" || name == "or"
}

fn compare(name: &str, left: Expr, right: Expr) -> Pred
    ensures { test_of result ≡ compared name.now (term_of left) (term_of right) }
{
    if name == "eq" {
        Pred::Eq(left, right)
    } else {
        Pred::Lt(left, right)
    }
}

#[tactic(auto, using(crate::proofs::ExprTrees::comparison_by_items, crate::proofs::Verdicts::both_seen))]
fn read_comparison(alloc: Global, name: &str, value: &Value) -> Result<Judged<Pred>, AllocError>
    ensures { IfOk result (λ j. seen_by test_of j ≡ comparison_from name.now (view value.now)) }
{
    let Some((first, second)) = only_pair(value) else {
        return Ok(Judged::Wrong);
    };
    let left = read_expr(alloc, false, first)?;
    let right = read_expr(alloc, false, second)?;
    match pair_up(left, right) {
        Judged::Wrong => Ok(Judged::Wrong),
        Judged::NoInteger => Ok(Judged::NoInteger),
        Judged::Read((a, b)) => Ok(Judged::Read(compare(name, a, b))),
    }
}

fn ask_whether_there(judged: Judged<Expr>) -> Judged<Pred>
    ensures { seen_by test_of result ≡ seen_by IsThere (seen_by term_of judged) }
{
    match judged {
        Judged::Wrong => Judged::Wrong,
        Judged::NoInteger => Judged::NoInteger,
        Judged::Read(expr) => Judged::Read(Pred::Has(expr)),
    }
}

#[tactic(auto, unfolding(crate::specs::Tests::simple_from))]
fn read_simple(alloc: Global, name: &str, value: &Value) -> Result<Judged<Pred>, AllocError>
    ensures { IfOk result (λ j. seen_by test_of j ≡ simple_from name.now (view value.now)) }
{
    if name == "has" {
        let judged = read_expr(alloc, false, value)?;
        Ok(ask_whether_there(judged))
    } else if names_comparison(name) {
        read_comparison(alloc, name, value)
    } else {
        Ok(Judged::Wrong)
    }
}

fn negate(alloc: Global, judged: Judged<Pred>) -> Result<Judged<Pred>, AllocError>
    ensures { IfOk result (λ j. seen_by test_of j ≡ seen_by Fails (seen_by test_of judged)) }
{
    match judged {
        Judged::Wrong => Ok(Judged::Wrong),
        Judged::NoInteger => Ok(Judged::NoInteger),
        Judged::Read(pred) => Ok(Judged::Read(Pred::Not(boxed(alloc, pred)?))),
    }
}

fn connect(alloc: Global, name: &str, left: Pred, right: Pred) -> Result<Pred, AllocError>
    ensures { IfOk result (λ p. test_of p ≡ connected name.now (test_of left) (test_of right)) }
{
    let Ok(left) = boxed(alloc, left) else {
        drop(right);
        return Err(AllocError);
    };
    let right = boxed(alloc, right)?;
    if name == "and" {
        Ok(Pred::And(left, right))
    } else {
        Ok(Pred::Or(left, right))
    }
}

#[tactic(auto, using(crate::proofs::Verdicts::both_seen))]
fn both(
    alloc: Global,
    name: &str,
    left: Judged<Pred>,
    right: Judged<Pred>,
) -> Result<Judged<Pred>, AllocError>
    ensures { IfOk result (λ j. seen_by test_of j
        ≡ both_of (connected name.now) (seen_by test_of left) (seen_by test_of right)) }
{
    match pair_up(left, right) {
        Judged::Wrong => Ok(Judged::Wrong),
        Judged::NoInteger => Ok(Judged::NoInteger),
        Judged::Read((a, b)) => Ok(Judged::Read(connect(alloc, name, a, b)?)),
    }
}

#[tactic(auto, using(crate::proofs::ExprTrees::test_by_member, crate::proofs::ExprTrees::tests_by_items))]
fn read_test(alloc: Global, value: &Value) -> Result<Judged<Pred>, AllocError>
    ensures { IfOk result (λ j. seen_by test_of j ≡ test_from (view value.now)) }
{
    let Some((name, inner)) = only_member(value) else {
        return Ok(Judged::Wrong);
    };
    if name == "not" {
        let judged = read_test(alloc, inner)?;
        negate(alloc, judged)
    } else if names_connective(name) {
        let Some((first, second)) = only_pair(inner) else {
            return Ok(Judged::Wrong);
        };
        let left = read_test(alloc, first)?;
        let Ok(right) = read_test(alloc, second) else {
            drop(left);
            return Err(AllocError);
        };
        both(alloc, name, left, right)
    } else {
        read_simple(alloc, name, inner)
    }
}

/// Whether the predicate is no deeper than so many levels.
fn is_test_within(pred: &Pred, levels: u32) -> bool
    ensures { result ≡ test_within levels (test_of pred.now) }
{
    if levels == 0 {
        return false;
    }
    match pred {
        Pred::Has(expr) => is_within(expr, levels - 1),
        Pred::Eq(a, b) => is_within(a, levels - 1) && is_within(b, levels - 1),
        Pred::Lt(a, b) => is_within(a, levels - 1) && is_within(b, levels - 1),
        Pred::Not(p) => is_test_within(p, levels - 1),
        Pred::And(p, q) => is_test_within(p, levels - 1) && is_test_within(q, levels - 1),
        Pred::Or(p, q) => is_test_within(p, levels - 1) && is_test_within(q, levels - 1),
    }
}

// The predicate, unless it is too deep.
fn limit_depth(alloc: Global, pred: Pred) -> Result<Pred, LineError>
    ensures { Gives (λ p. test_of p) result (shallow_test (test_of pred)) }
{
    if is_test_within(&pred, 16) {
        return Ok(pred);
    }
    drop(pred);
    Err(LineError::Fault(too_many(alloc, "depth", 16)?))
}

/// The predicate of a filter: its shape is judged first, then its numbers, then its depth.
#[tactic(auto, unfolding(crate::specs::Tests::where_of))]
pub fn read_where(alloc: Global, value: &Value) -> Result<Pred, LineError>
    ensures { Gives (λ p. test_of p) result (where_of (view value.now)) }
{
    let inner = read_member(alloc, "where", value)?;
    let judged = read_test(alloc, inner)?;
    let pred = judge(alloc, "where", judged)?;
    limit_depth(alloc, pred)
}
