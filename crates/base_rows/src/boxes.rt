//! Boxes of one variable, by their paths.
ghost use Rattle.std.specs.Prelude.{◌≡◌, IfOk, [], ◌∷◌};
ghost use Rattle.choice_rank.specs.declared.variable.Costs.TheVariants.{HomeFirst};

use box_split::{BoxBuf, is_path, is_single, keep_lower, keep_upper, low, of_path, split_at};
use choice_rank::{Costs, Shape, VarShape};
use std::alloc::Global;
use std::test::Fail;

// One variable of four positions, of which the first alone costs nothing.
fn four_positions(alloc: Global) -> Result<Shape, Fail>
    ensures { IfOk result (λ s. s ≡ record { size = 4; costs = HomeFirst } ∷ []) }
{
    let mut vars = Vec::new(alloc);
    vars.push(VarShape {
        size: 4,
        costs: Costs::HomeFirst,
    })?;
    Ok(Shape::new(alloc, vars)?)
}

#[test]
fn boxes_of_paths(rt: HostRuntime) -> Result<(), Fail> {
    let shape = four_positions(rt.alloc())?;
    let mut b = BoxBuf::new();
    for (path, first, last) in [
        (1, 0, 3),
        (2, 0, 0),
        (3, 1, 3),
        (6, 1, 1),
        (7, 2, 3),
        (14, 2, 2),
        (15, 3, 3),
    ] {
        assert!(rt; is_path(&shape, path));
        of_path(&shape, path, &mut b);
        assert_eq!(rt; b.lo[0], first, "at {path}");
        assert_eq!(rt; b.hi[0], last, "at {path}");
        assert_eq!(rt; is_single(&shape, &b), first == last, "at {path}");
    }
    for number in [0, 4, 5, 12, 13, 16] {
        assert!(rt; !is_path(&shape, number), "at {number}");
    }
    Ok(())
}

#[test]
fn halves_of_a_box(rt: HostRuntime) -> Result<(), Fail> {
    let shape = four_positions(rt.alloc())?;
    let mut b = BoxBuf::new();
    assert!(rt; is_path(&shape, 7));
    of_path(&shape, 7, &mut b);
    assert_eq!(rt; low(&shape, &b), 6);
    let mut upper = b;
    let (variable, after) = split_at(&shape, &b).ok_or("one choice")?;
    assert_eq!(rt; (variable, after), (0, 2));
    keep_lower(&shape, &mut b, variable, after);
    keep_upper(&shape, &mut upper, variable, after);
    assert_eq!(rt; low(&shape, &b), 6);
    assert_eq!(rt; low(&shape, &upper), 7);
    Ok(())
}
