ghost use Rattle.right_system_starts.specs.Renewal.{EmittedCodeResets, EmittedCodeStarts};

use modules_profile::locals_are_lawful;

/// The code of a system starts right, whatever it finds in its fields.
pub fn emitted_code_starts()
    ensures { EmittedCodeStarts }
{
    locals_are_lawful();
}

/// The code of a system resets right, whatever it finds in its fields.
pub fn emitted_code_resets()
    ensures { EmittedCodeResets }
{
    locals_are_lawful();
}
