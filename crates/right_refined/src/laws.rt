ghost use Rattle.right_refined.specs.Refined.{RefinedIsCode};

use modules_profile::profiles_are_one;

/// Lawful code for a diagram is code for it in each lawful program that refines it, offers the same and has the shape.
pub fn refined_is_code()
    ensures { RefinedIsCode }
{
    profiles_are_one();
}
