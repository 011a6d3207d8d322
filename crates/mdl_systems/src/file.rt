ghost use Rattle.std.specs.Prelude.{◌≡◌, IfOk, IfErr, Ok, Err};
ghost use Rattle.base_refusals.specs.Refusals.{plain_refusal};
ghost use Rattle.mdl_tree.specs.Values.{section_tree, trees_of};
ghost use Rattle.base_refusals.specs.FirstRefusal.{least_in, as_plain};
ghost use Rattle.mdl_systems.specs.Models as models_of;
ghost use Rattle.mdl_systems.specs.Reading.{model_seen, IsFaultOf};

use crate::placed::ModelSections;
use base_refusals::{ModelKind, Refusal, earlier};
use diagram_meaning::BuildFault;
use mdl_tree::Section;
use std::alloc::Global;

/// The refusal of the first library, if there is one.
fn least_library(libraries: &[&Section]) -> Option<Refusal>
    ensures { as_plain result ≡ least_in models_of.library (trees_of libraries.now) }
{
    let mut least = None;
    for library in libraries {
        least = earlier(
            least,
            Some(Refusal::TwoModels {
                line: library.line,
                kind: ModelKind::Library,
            }),
        );
    }
    least
}

/// The only one of these models, in a file without a library, or else with this refusal.
fn model_among<'a>(
    models: &[&'a Section],
    library: Option<Refusal>,
) -> Result<ModelSections<'a>, Refusal>
    ensures model { IfOk result (λ m. models_of.model_among (trees_of models.now) (as_plain library)
        ≡ Ok (model_seen m)) }
    ensures refusal { IfErr result (λ r. models_of.model_among (trees_of models.now) (as_plain library)
        ≡ Err (plain_refusal r)) }
{
    let Some(model) = models.first() else {
        return Err(library.unwrap_or(Refusal::NoModel { line: 0 }));
    };
    let Some(system) = model.section(b"System") else {
        return Err(Refusal::NoModel { line: model.line });
    };
    if let Some(refusal) = library {
        return Err(refusal);
    }
    match models.get(1) {
        Some(second) => Err(Refusal::TwoModels {
            line: second.line,
            kind: ModelKind::Second,
        }),
        None => Ok(ModelSections { model, system }),
    }
}

/// The model of a file's sections, with its System.
///
/// Fails with `NoModel` exactly where the file has neither a model nor a library, or its first model has no System, and else
/// with `TwoModels` exactly where it has a library, the first of which is reported, or else a second model.
pub fn find_model<'a>(alloc: Global, file: &'a Section) -> Result<ModelSections<'a>, BuildFault>
    ensures model { IfOk result (λ m. models_of.model_of (section_tree file.now).items ≡ Ok (model_seen m)) }
    ensures fault { IfErr result (IsFaultOf (models_of.model_of (section_tree file.now).items)) }
{
    let libraries = file.sections_named(alloc, b"Library")?;
    let models = file.sections_named(alloc, b"Model")?;
    let library = least_library(libraries.as_slice());
    model_among(models.as_slice(), library).map_err(BuildFault::Refused)
}
