use std::env::FillError;
use std::rt::Env;
use std::{env, io};

// The words of a call without the program's name, which may be no text.
#[derive(Drop)]
struct WithoutName<'a, R: Env> {
    rt: &'a R,
}

impl<R: Env> Env for WithoutName<'_, R> {
    fn arg(&self, i: usize, buf: &mut [u8]) -> Result<usize, FillError> {
        self.rt.arg(i.saturating_add(1), buf)
    }

    fn var(&self, name: &str, buf: &mut [u8]) -> Result<usize, FillError> {
        self.rt.var(name, buf)
    }

    fn var_at(&self, i: usize, buf: &mut [u8]) -> Result<usize, FillError> {
        self.rt.var_at(i, buf)
    }
}

/// The words after the program's name.
///
/// Fails where one is no text, and where memory runs out.
pub fn words_of(rt: &(impl Env + AllocGlobal)) -> io::Result<Vec<String>> {
    let mut words = Vec::new(rt.alloc());
    for word in env::args(&(WithoutName { rt }, rt.alloc()))? {
        words.push(word)?;
    }
    Ok(words)
}
