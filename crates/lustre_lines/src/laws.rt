ghost use Rattle.lustre_lines.specs.LineLaws.{LinesMeanNothing};

/// A lawful file is right for a diagram where the same file on other lines is.
pub fn lines_mean_nothing()
    ensures { LinesMeanNothing }
{}
