// Files that are kept as pairs of a name and bytes.
ghost use Rattle.std.specs.Prelude.{◌≡◌, [], Some, None, OnOk, OnErr, MatchOption};
ghost use Rattle.base_host.specs.Files.{lookup, add_file, grow_last};
ghost use Rattle.base_host.specs.Fakes.{files_of, bytes_at};

use std::alloc::{AllocError, Global};

// The first file of that name.
pub(crate) fn find(files: &[(String, Vec<u8>)], name: &str) -> Option<usize>
    ensures { MatchOption result (lookup name.now (files_of files.now) ≡ None)
        (λ i. lookup name.now (files_of files.now) ≡ Some (bytes_at (files_of files.now) i)) }
{
    for (i, file) in files.iter().enumerate() {
        if file.0.as_str() == name {
            return Some(i);
        }
    }
    None
}

// The bytes of a file by its number, and none past the last.
pub(crate) fn content(files: &[(String, Vec<u8>)], at: usize) -> &[u8]
    ensures { result.now ≡ bytes_at (files_of files.now) at }
{
    match files.get(at) {
        Some(file) => file.1.as_slice(),
        None => &[],
    }
}

// Adds an empty file.
pub(crate) fn add(
    alloc: Global,
    files: &mut Vec<(String, Vec<u8>)>,
    name: &str,
) -> Result<(), AllocError>
    ensures ok { OnOk result (add_file (Some (files_of files.old.items)) name.now []
        ≡ Some (files_of files.new.items)) }
    ensures err { OnErr result (files_of files.new.items ≡ files_of files.old.items) }
{
    let name = String::from_str(alloc, name)?;
    files.push((name, Vec::new(alloc)))?;
    Ok(())
}

// Appends to the last file, where there is one.
pub(crate) fn grow(files: &mut Vec<(String, Vec<u8>)>, bytes: &[u8]) -> Result<(), AllocError>
    ensures ok { OnOk result (files_of files.new.items ≡ grow_last (files_of files.old.items) bytes.now) }
    ensures err { OnErr result (files_of files.new.items ≡ files_of files.old.items) }
{
    if files.is_empty() {
        return Ok(());
    }
    let last = files.len() - 1;
    let file = &mut files[last];
    file.1.extend_from_slice(bytes)
}
