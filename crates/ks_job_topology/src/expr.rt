//! Expressions, as JSON says them.
ghost use Rattle.std.specs.Prelude.{◌≡◌, IfOk, option_map};
ghost use Rattle.serde_json.specs.View.{view};
ghost use Rattle.ks_expr.specs.Terms.{term_of};
ghost use Rattle.ks_job_topology.specs.Exprs.{only_member_of, only_pair_of, is_arithmetic, seen_by, field_seen, leaf_from, joined, both_of, expr_from, limited, read_or, shallow, within};
ghost use Rattle.ks_job_record.specs.Gives.{Gives};

use ks_expr::Expr;
use ks_job_record::{LineError, bad_number, bad_shape, too_many};
use ks_record::{Name, Text};
use serde_json::Value;
use std::alloc::{AllocError, Global};

/// What a tree is read as: its shape is judged before its numbers.
#[derive(Drop)]
pub enum Judged<T> {
    Wrong,
    NoInteger,
    Read(T),
}

/// The one member of an object, with its name; none where the value is no object or hasn't exactly one.
#[tactic(auto, using(crate::proofs::ExprTrees::one_member_none))]
pub fn only_member(value: &Value) -> Option<(&str, &Value)>
    ensures { option_map (λ p. (p.0.now, view p.1.now)) result ≡ only_member_of (view value.now) }
{
    let map = value.as_object()?;
    if map.len() != 1 {
        return None;
    }
    let (name, member) = map.iter().next()?;
    Some((name.as_str(), member))
}

/// The two items of a list; none where the value is no list or hasn't exactly two.
#[tactic(auto, using(crate::proofs::ExprTrees::two_items_none, crate::proofs::ExprTrees::two_items_some))]
pub fn only_pair(value: &Value) -> Option<(&Value, &Value)>
    ensures { option_map (λ p. (view p.0.now, view p.1.now)) result
        ≡ only_pair_of (view value.now) }
{
    let list = value.as_array()?;
    if list.len() == 2 {
        Some((&list[0], &list[1]))
    } else {
        None
    }
}

fn is_operation(name: &str) -> bool
    ensures { result ≡ is_arithmetic name.now }
{
    name == "add" || name == "sub" || name == "mul"
}

// An expression that names a field.
fn name_side(sides: bool, name: &str, field: Name) -> Judged<Expr>
    ensures { seen_by term_of result ≡ field_seen sides name.now field }
{
    if sides {
        if name == "left" {
            Judged::Read(Expr::Left(field))
        } else if name == "right" {
            Judged::Read(Expr::Right(field))
        } else {
            Judged::Wrong
        }
    } else if name == "field" {
        Judged::Read(Expr::Field(field))
    } else {
        Judged::Wrong
    }
}

#[tactic(auto, unfolding(crate::specs::Exprs::leaf_from))]
fn read_leaf(
    alloc: Global,
    sides: bool,
    name: &str,
    value: &Value,
) -> Result<Judged<Expr>, AllocError>
    ensures { IfOk result (λ j. seen_by term_of j ≡ leaf_from sides name.now (view value.now)) }
{
    if name == "int" {
        let Some(number) = value.as_number() else {
            return Ok(Judged::Wrong);
        };
        return match number.as_i64() {
            Some(integer) => Ok(Judged::Read(Expr::Int(integer))),
            None => Ok(Judged::NoInteger),
        };
    }
    let Some(text) = value.as_str() else {
        return Ok(Judged::Wrong);
    };
    if name == "text" {
        match Text::of_text(alloc, text)? {
            Some(text) => Ok(Judged::Read(Expr::Text(text))),
            None => Ok(Judged::Wrong),
        }
    } else {
        match Name::of_text(alloc, text)? {
            Some(field) => Ok(name_side(sides, name, field)),
            None => Ok(Judged::Wrong),
        }
    }
}

/// A tree in a box. Want of memory is the one error, after which the tree is gone.
pub fn boxed<T: Drop>(alloc: Global, tree: T) -> Result<Box<T>, AllocError>
    ensures { IfOk result (λ made. made.value ≡ tree) }
{
    Ok(Box::new(alloc, tree)?)
}

fn join(alloc: Global, name: &str, left: Expr, right: Expr) -> Result<Expr, AllocError>
    ensures { IfOk result (λ e. term_of e ≡ joined name.now (term_of left) (term_of right)) }
{
    let Ok(left) = boxed(alloc, left) else {
        drop(right);
        return Err(AllocError);
    };
    let right = boxed(alloc, right)?;
    if name == "add" {
        Ok(Expr::Add(left, right))
    } else if name == "sub" {
        Ok(Expr::Sub(left, right))
    } else {
        Ok(Expr::Mul(left, right))
    }
}

/// Both trees, judged as one: a wrong shape anywhere comes before a wrong number.
pub fn pair_up<A: Drop, B: Drop>(left: Judged<A>, right: Judged<B>) -> Judged<(A, B)>
    ensures { result ≡ both_of (λ a b. (a, b)) left right }
{
    match left {
        Judged::Wrong => Judged::Wrong,
        Judged::NoInteger => match right {
            Judged::Wrong => Judged::Wrong,
            _ => Judged::NoInteger,
        },
        Judged::Read(a) => match right {
            Judged::Wrong => Judged::Wrong,
            Judged::NoInteger => Judged::NoInteger,
            Judged::Read(b) => Judged::Read((a, b)),
        },
    }
}

#[tactic(auto, using(crate::proofs::Verdicts::both_seen))]
fn both(
    alloc: Global,
    name: &str,
    left: Judged<Expr>,
    right: Judged<Expr>,
) -> Result<Judged<Expr>, AllocError>
    ensures { IfOk result (λ j. seen_by term_of j
        ≡ both_of (joined name.now) (seen_by term_of left) (seen_by term_of right)) }
{
    match pair_up(left, right) {
        Judged::Wrong => Ok(Judged::Wrong),
        Judged::NoInteger => Ok(Judged::NoInteger),
        Judged::Read((a, b)) => Ok(Judged::Read(join(alloc, name, a, b)?)),
    }
}

/// The expression that a value is; `sides` where its fields are of a join's sides.
#[tactic(auto, using(crate::proofs::ExprTrees::expr_by_member, crate::proofs::ExprTrees::pair_by_items))]
pub fn read_expr(alloc: Global, sides: bool, value: &Value) -> Result<Judged<Expr>, AllocError>
    ensures { IfOk result (λ j. seen_by term_of j ≡ expr_from sides (view value.now)) }
{
    let Some((name, inner)) = only_member(value) else {
        return Ok(Judged::Wrong);
    };
    if is_operation(name) {
        let Some((first, second)) = only_pair(inner) else {
            return Ok(Judged::Wrong);
        };
        let left = read_expr(alloc, sides, first)?;
        let Ok(right) = read_expr(alloc, sides, second) else {
            drop(left);
            return Err(AllocError);
        };
        both(alloc, name, left, right)
    } else {
        read_leaf(alloc, sides, name, inner)
    }
}

/// Whether the expression is no deeper than so many levels; a leaf has depth 1.
pub fn is_within(expr: &Expr, levels: u32) -> bool
    ensures { result ≡ within levels (term_of expr.now) }
{
    if levels == 0 {
        return false;
    }
    match expr {
        Expr::Add(a, b) => is_within(a, levels - 1) && is_within(b, levels - 1),
        Expr::Sub(a, b) => is_within(a, levels - 1) && is_within(b, levels - 1),
        Expr::Mul(a, b) => is_within(a, levels - 1) && is_within(b, levels - 1),
        _ => true,
    }
}

/// What was read, or the fault of this member, whose value is no such tree; want of memory too.
pub fn judge<T: Drop>(alloc: Global, name: &str, judged: Judged<T>) -> Result<T, LineError>
    ensures { Gives (λ t. t) result (read_or name.now judged) }
{
    match judged {
        Judged::Read(tree) => Ok(tree),
        Judged::Wrong => Err(LineError::Fault(bad_shape(alloc, name)?)),
        Judged::NoInteger => Err(LineError::Fault(bad_number(alloc, name)?)),
    }
}

// The expression, unless it is too deep.
fn limit_depth(alloc: Global, expr: Expr) -> Result<Expr, LineError>
    ensures { Gives (λ e. term_of e) result (shallow (term_of expr)) }
{
    if is_within(&expr, 16) {
        return Ok(expr);
    }
    drop(expr);
    Err(LineError::Fault(too_many(alloc, "depth", 16)?))
}

/// The expression of a field of `set`: its shape is judged first, then its numbers, then its depth.
#[tactic(auto, unfolding(crate::specs::Exprs::limited))]
pub fn read_limited(
    alloc: Global,
    name: &str,
    sides: bool,
    value: &Value,
) -> Result<Expr, LineError>
    ensures { Gives (λ e. term_of e) result (limited name.now sides (view value.now)) }
{
    let judged = read_expr(alloc, sides, value)?;
    let expr = judge(alloc, name, judged)?;
    limit_depth(alloc, expr)
}
