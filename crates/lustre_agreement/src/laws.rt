ghost use Rattle.lustre_agreement.specs.BackEnds.{RightFilesAgree};

/// A file of Lustre that is right for a model gives over each trace what each C gives that is right for it.
#[tactic(auto, using(crate::proofs::BackEndLaws::right_files_agree))]
pub fn back_ends_agree()
    ensures { RightFilesAgree }
{}
