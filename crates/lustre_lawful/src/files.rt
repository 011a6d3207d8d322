ghost use Rattle.lustre_right.specs.SystemLaws.{ModelFilesAreLawful};

use lustre_typed::systems_are_typed;

/// The file of a model without a delay that is too long keeps the static rules and the limits.
pub fn model_files_are_lawful()
    ensures { ModelFilesAreLawful }
{
    systems_are_typed();
}
