use std::fs::File;
use std::rt::Files;

/// Files that are open as long as this is kept.
#[derive(Drop)]
pub struct Held<F: Drop> {
    _input: Option<F>,
    _output: Option<F>,
    _error: Option<F>,
}

// A file with nothing in it, to which nothing can be written.
fn open_empty<R: Files>(rt: &R) -> Option<R::File> {
    File::open(rt, "/dev/null").ok()
}

/// Takes the places of standard input, output and error where they are closed: a file that is opened later would take them, and
/// what is printed would land in it. Where they are open, three more files are, and nothing else changes.
pub fn hold_standard<R: Files>(rt: &R) -> Held<R::File> {
    Held {
        _input: open_empty(rt),
        _output: open_empty(rt),
        _error: open_empty(rt),
    }
}
