ghost use Rattle.std.specs.Prelude.{◌≡◌, OnOk};
ghost use Rattle.sc_cqlvalue.specs.Values as values;

use crate::state::State;
use sc_base::Seq;
use sc_expr::{CompOp, Expr};
use std::alloc::{AllocError, Global};
use std::mem;

pub(crate) fn compare(op: CompOp, state: &mut State) -> Result<(), AllocError>
    ensures { OnOk result (state.new ≡ values.compared op state.old) }
{
    let Some(right) = state.scalars.pop() else {
        return Ok(());
    };
    let Some(left) = state.scalars.pop() else {
        return state.scalars.push(right);
    };
    state.exprs.push(Expr::Compare(op, left, right))
}

pub(crate) fn test_for_null(state: &mut State) -> Result<(), AllocError>
    ensures { OnOk result (state.new ≡ values.tested_for_null state.old) }
{
    match state.scalars.pop() {
        None => Ok(()),
        Some(operand) => state.exprs.push(Expr::IsNull(operand)),
    }
}

pub(crate) fn place_between(state: &mut State) -> Result<(), AllocError>
    ensures { OnOk result (state.new ≡ values.placed_between state.old) }
{
    let Some(high) = state.scalars.pop() else {
        return Ok(());
    };
    let Some(low) = state.scalars.pop() else {
        return state.scalars.push(high);
    };
    let Some(operand) = state.scalars.pop() else {
        state.scalars.push(low)?;
        return state.scalars.push(high);
    };
    state.exprs.push(Expr::Between(operand, low, high))
}

pub(crate) fn begin_list(alloc: Global, state: &mut State)
    ensures { state.new ≡ values.list_begun state.old }
{
    state.listed = Seq::new(alloc);
}

pub(crate) fn put_element(state: &mut State) -> Result<(), AllocError>
    ensures { OnOk result (state.new ≡ values.with_element state.old) }
{
    match state.scalars.pop() {
        None => Ok(()),
        Some(element) => state.listed.push(element),
    }
}

pub(crate) fn seek(alloc: Global, state: &mut State) -> Result<(), AllocError>
    ensures { OnOk result (state.new ≡ values.sought state.old) }
{
    if state.listed.is_empty() {
        return Ok(());
    }
    match state.scalars.pop() {
        None => Ok(()),
        Some(operand) => {
            let listed = mem::replace(&mut state.listed, Seq::new(alloc));
            state.exprs.push(Expr::Among(operand, listed))
        }
    }
}

pub(crate) fn match_pattern(state: &mut State) -> Result<(), AllocError>
    ensures { OnOk result (state.new ≡ values.matched state.old) }
{
    let Some(operand) = state.scalars.pop() else {
        return Ok(());
    };
    match state.pattern.take() {
        None => state.scalars.push(operand),
        Some(pattern) => state.exprs.push(Expr::Like(operand, pattern)),
    }
}

pub(crate) fn meet(state: &mut State) -> Result<(), AllocError>
    ensures { OnOk result (state.new ≡ values.met state.old) }
{
    let Some(right) = state.shapes.pop() else {
        return Ok(());
    };
    let Some(left) = state.shapes.pop() else {
        return state.shapes.push(right);
    };
    state.exprs.push(Expr::Meets(left, right))
}
