//! What all values have to do with the values in a box.
ghost use Rattle.std.specs.Prelude.{◌≡◌, ℕ, List};
ghost use Rattle.res_model.specs.declared.clock.ClockBox.{ClockBox};
ghost use Rattle.clock_limits.specs.Ranges.{allowed};
ghost use Rattle.box_spans.specs.Every.{IsWholeBox, every};

/// The values in the box of all positions are all values. So the ranges over all values are those of that box.
pub fn whole_box_has_every_value()
    ensures { (values : List (List ℕ)) (b : ClockBox) → IsWholeBox values b → allowed values b ≡ every values }
{}
