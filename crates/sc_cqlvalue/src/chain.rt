ghost use Rattle.std.specs.Prelude.{◌≡◌, ◌≤◌, length, drop, OnOk};
ghost use Rattle.sc_expr.specs.declared.expr.Expr.TheVariants as trees;
ghost use Rattle.sc_cqlvalue.specs.Values as values;

use crate::exprs::Exprs;
use crate::state::State;
use sc_base::Boxed;
use sc_expr::{Expr, Scalar};
use std::alloc::{AllocError, Global};

pub(crate) fn begin_chain(state: &mut State) -> Result<(), AllocError>
    ensures { OnOk result (state.new ≡ values.chain_begun state.old) }
{
    let before = state.exprs.len();
    state.chains.push(before)
}

/// Ends the last chain, and gives how many expressions it has.
fn close_chain(state: &mut State) -> usize
    ensures count { result ≡ values.chain_count state.old.chains state.old.exprs }
    ensures within { result ≤ length state.old.exprs }
    ensures closed { state.new ≡ record state.old { chains = drop 1 state.old.chains } }
{
    match state.chains.pop() {
        None => 0,
        Some(before) => state.exprs.len().saturating_sub(before),
    }
}

fn join_or(count: usize, exprs: &mut Exprs) -> Result<(), AllocError>
    requires { count ≤ length exprs.old }
    ensures { OnOk result (exprs.new ≡ values.joined trees.Or count exprs.old) }
{
    if count < 2 {
        return Ok(());
    }
    let members = exprs.take_last(count)?;
    exprs.push(Expr::Or(members))
}

fn join_and(count: usize, exprs: &mut Exprs) -> Result<(), AllocError>
    requires { count ≤ length exprs.old }
    ensures { OnOk result (exprs.new ≡ values.joined trees.And count exprs.old) }
{
    if count < 2 {
        return Ok(());
    }
    let members = exprs.take_last(count)?;
    exprs.push(Expr::And(members))
}

pub(crate) fn end_or(state: &mut State) -> Result<(), AllocError>
    ensures { OnOk result (state.new ≡ values.chain_ended trees.Or state.old) }
{
    let count = close_chain(state);
    join_or(count, &mut state.exprs)
}

pub(crate) fn end_and(state: &mut State) -> Result<(), AllocError>
    ensures { OnOk result (state.new ≡ values.chain_ended trees.And state.old) }
{
    let count = close_chain(state);
    join_and(count, &mut state.exprs)
}

pub(crate) fn negate(alloc: Global, state: &mut State) -> Result<(), AllocError>
    ensures { OnOk result (state.new ≡ values.negated state.old) }
{
    match state.exprs.pop() {
        None => Ok(()),
        Some(expr) => {
            let member = Boxed::new(alloc, expr)?;
            state.exprs.push(Expr::Not(member))
        }
    }
}

fn truth_of(scalar: &Scalar) -> bool
    ensures { result ≡ values.truth_of scalar.now }
{
    match scalar {
        Scalar::Truth(truth) => *truth,
        _ => false,
    }
}

pub(crate) fn put_constant(state: &mut State) -> Result<(), AllocError>
    ensures { OnOk result (state.new ≡ values.constant state.old) }
{
    match state.scalars.pop() {
        None => Ok(()),
        Some(scalar) => state.exprs.push(Expr::Const(truth_of(&scalar))),
    }
}
