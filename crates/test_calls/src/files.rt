use std::alloc::{AllocError, Global};

/// The bytes of the files `a.mdl`, `b.c` and `t` of a host.
#[derive(Clone, Copy, Drop)]
pub struct Files<'a> {
    /// The bytes of `a.mdl`.
    pub model: &'a [u8],
    /// The bytes of `b.c`.
    pub code: &'a [u8],
    /// The bytes of `t`, a trace or a script.
    pub trace: &'a [u8],
}

impl Files<'_> {
    /// Each with its name.
    ///
    /// Fails only when memory runs out.
    pub fn named(self, alloc: Global) -> Result<Vec<(String, Vec<u8>)>, AllocError> {
        let mut files = Vec::new(alloc);
        for (name, bytes) in [("a.mdl", self.model), ("b.c", self.code), ("t", self.trace)] {
            files.push((String::from_str(alloc, name)?, bytes.to_vec(alloc)?))?;
        }
        Ok(files)
    }
}

/// The one file `a.mdl` of a host.
///
/// Fails only when memory runs out.
pub fn model_file(alloc: Global, model: &[u8]) -> Result<Vec<(String, Vec<u8>)>, AllocError> {
    let mut files = Vec::new(alloc);
    files.push((String::from_str(alloc, "a.mdl")?, model.to_vec(alloc)?))?;
    Ok(files)
}
