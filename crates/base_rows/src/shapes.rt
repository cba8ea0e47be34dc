//! The widest shape, and a choice by its rank.
ghost use Rattle.std.specs.Prelude.{◌+◌, ◌≤◌, ◌<◌, OnOk, vec_len};
ghost use Rattle.choice_rank.specs.Choices.{HasPositions, HasSmallSizes};

use choice_rank::{Costs, Shape, ShapeFault, VarShape};
use refusal::Refusal;
use std::alloc::AllocError;
use std::test::Fail;

// Appends so many equal variables.
fn append(vars: &mut Vec<VarShape>, count: usize, size: u16, costs: Costs) -> Result<(), AllocError>
    requires positive { 0 < size }
    requires small { size ≤ 512 }
    requires positions { HasPositions vars.old.items }
    requires sizes { HasSmallSizes vars.old.items }
    ensures positions { OnOk result (HasPositions vars.new.items) }
    ensures sizes { OnOk result (HasSmallSizes vars.new.items) }
    ensures count { OnOk result (vec_len vars.new ≤ vec_len vars.old + count) }
{
    for _ in 0..count {
        vars.push(VarShape { size, costs })?;
    }
    Ok(())
}

// 2^62 * 2 choices that cost nothing: the ranks just fit, and one position more is too wide.
#[test]
fn widest_shape(rt: HostRuntime) -> Result<(), Fail> {
    let mut vars = Vec::new(rt.alloc());
    append(&mut vars, 31, 4, Costs::AllZero)?;
    append(&mut vars, 1, 2, Costs::AllZero)?;
    let shape = Shape::new(rt.alloc(), vars)?;
    assert_eq!(rt; shape.choices(), 1 << 63);

    let mut vars = Vec::new(rt.alloc());
    append(&mut vars, 31, 4, Costs::AllZero)?;
    append(&mut vars, 2, 2, Costs::AllZero)?;
    assert!(rt;
        matches!(
            Shape::new(rt.alloc(), vars),
            Err(Refusal::Fault(ShapeFault::TooWide { variable: 32 }))
        )
    );
    Ok(())
}

// Of four positions, of which the first alone costs nothing, position 2 has rank 6.
#[test]
fn unranks(rt: HostRuntime) -> Result<(), Fail> {
    let mut vars = Vec::new(rt.alloc());
    append(&mut vars, 1, 4, Costs::HomeFirst)?;
    let shape = Shape::new(rt.alloc(), vars)?;
    assert_eq!(rt; shape.vars().len(), 1);
    let mut at = [0];
    assert!(rt; shape.unrank_into(6, &mut at));
    assert_eq!(rt; at[0], 2);
    assert_eq!(rt; shape.rank(&at), 6);
    assert_eq!(rt; shape.cost(&at), 1);
    assert!(rt; !shape.unrank_into(2, &mut at));
    assert_eq!(rt; at[0], 2);
    Ok(())
}
