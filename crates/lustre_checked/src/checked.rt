ghost use Rattle.std.specs.Prelude.{◌≡◌};
ghost use Rattle.lustre_syntax.specs.Lawful.{IsLawful};
ghost use Rattle.lustre_syntax.specs.Plain.{file_tree};

use lustre_syntax::LusFile;
use std::marker::Model;

/// A file that was read: it keeps the static rules and the limit. It is seen as the file.
#[derive(Drop)]
pub struct LusChecked {
    file: LusFile,
}

impl Model for LusChecked {
    ghost use Rattle.lustre_syntax.specs.contracts.code.LusExpr as expression;
    ghost use Rattle.std.specs.Coded.{codes};
    ghost use Rattle.lustre_syntax.specs.declared.file.LusFile.{LusFile};
    ghost use Rattle.lustre_syntax.specs.Lawful.{IsLawful};
    ghost use Rattle.lustre_syntax.specs.Plain.{file_tree};

    ghost Value = { LusFile };

    ghost coded = { Prim.hlevel (codes, expression.the_row.coded) };

    ghost view = { λ c. c.file };

    ghost invariant = { λ c. IsLawful (file_tree c.file) };
}

impl LusChecked {
    /// A file that was checked.
    pub fn new(file: LusFile) -> LusChecked
        requires { IsLawful (file_tree file) }
        ensures { result ≡ file }
    {
        LusChecked { file }
    }

    /// The file.
    pub fn file(&self) -> &LusFile
        ensures { result.now ≡ self.now }
    {
        &self.file
    }
}
