//! What lines that were drawn are.
ghost use Rattle.std.specs.Prelude.{◌≡◌, ◌+◌, List, length};
ghost use Rattle.rssd_script.specs.declared.lines.Line.{Line};
ghost use Rattle.lab_lines.specs.declared.drawn.Drawn.{Drawn};
ghost use Rattle.lab_lines.specs.Given.{AllGiven};
ghost use Rattle.lab_lines.specs.Workload.{drawn_from};
ghost use Rattle.lab_lines.specs.Drawing.{plan_of, state_of, left_of, DrawsLine};

/// Lines that were drawn one after another are the first so many of the workload of their seed, and so many fewer are left.
pub fn drawn_lines_are_those_of_their_seed()
    ensures { (old new : Drawn) (lines : List Line) → AllGiven DrawsLine old lines new
        → (lines ≡ drawn_from (plan_of old) (length lines) (state_of old)) × (left_of new + length lines ≡ left_of old) }
{}
