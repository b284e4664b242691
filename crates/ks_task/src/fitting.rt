//! That the projections of a topology have names and constants that can be spelled, and its foreign keys are keys, as the types of its parts
//! say.
ghost use Rattle.std.specs.Prelude.{map};
ghost use Rattle.std.specs.List.{AllByRecursion};
ghost use Rattle.ks_expr.specs.Terms.{term_of, set_of, entries_of};
ghost use Rattle.ks_plan.specs.Drafts.{op_view};
ghost use Rattle.ks_plan.specs.Infos.{built_view};
ghost use Rattle.ks_topo.specs.Topologies.{plan_in};
ghost use Rattle.ks_law_topology.specs.Spelled.{FitsTerm, FitsSet};
ghost use Rattle.ks_law_kinds.specs.Fitting.{FitsFk, FitsOp, FitsPlan};

use ks_expr::{Expr, Fk, Proj};
use ks_record::Name;
use ks_topo::{Node, Op, Topology};

fn term_fits(term: &Expr)
    ensures { FitsTerm (term_of term.now) }
{
    match term {
        Expr::Field(_) => {}
        Expr::Left(_) => {}
        Expr::Right(_) => {}
        Expr::Int(number) => {
            let _number = *number;
        }
        Expr::Text(text) => {
            let _text = text.as_str();
        }
        Expr::Add(a, b) => {
            term_fits(a);
            term_fits(b);
        }
        Expr::Sub(a, b) => {
            term_fits(a);
            term_fits(b);
        }
        Expr::Mul(a, b) => {
            term_fits(a);
            term_fits(b);
        }
    }
}

fn entries_fit(entries: &[(Name, Expr)])
    ensures { FitsSet (entries_of entries.now) }
{
    if let [(name, term), more @ ..] = entries {
        let _name = name.as_str();
        term_fits(term);
        entries_fit(more);
    }
}

fn set_fits(set: &Proj)
    ensures { FitsSet (set_of set.now) }
{
    entries_fit(set.fields.as_slice());
}

fn fk_fits(fk: &Fk)
    ensures { FitsFk fk.now }
{
    match fk {
        Fk::Before(text) => {
            let _text = text.as_str();
        }
        _ => {}
    }
}

fn op_fits(op: &Op)
    ensures { FitsOp (op_view op.now) }
{
    match op {
        Op::MapValues { set, .. } => set_fits(set),
        Op::Join { set, .. } => set_fits(set),
        Op::FkJoin { fk, set, .. } => {
            set_fits(set);
            fk_fits(fk);
        }
        _ => {}
    }
}

fn nodes_fit(nodes: &[Node])
    ensures { AllByRecursion (λ n. FitsOp n.op) (map built_view nodes.now) }
{
    if let [node, more @ ..] = nodes {
        op_fits(&node.op);
        nodes_fit(more);
    }
}

/// A look at each name and each constant of a topology's projections, for what it shows: that all can be spelled. It changes nothing.
pub fn topology_fits(topology: &Topology)
    ensures { FitsPlan (plan_in topology.now) }
{
    nodes_fit(topology.nodes());
}
