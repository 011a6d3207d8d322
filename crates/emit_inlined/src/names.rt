// The names of the procedures with which a run begins.
ghost use Rattle.std.specs.Prelude.{◌≡◌};
ghost use Rattle.emit_inlined.specs.Inlined.{is_root_name};

/// Whether a run begins with a procedure of this name.
pub(crate) fn is_root_name(name: &[u8]) -> bool
    ensures { result ≡ is_root_name name.now }
{
    name == b"root_start".as_slice() || name == b"root_step".as_slice()
}
