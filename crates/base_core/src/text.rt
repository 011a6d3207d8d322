ghost use Rattle.std.specs.Prelude.{◌≡◌, ◌++◌, ℕ, List, IfOk, decimal};

use crate::base::Memory;
use smallvec::SmallVec;
use std::alloc::Global;
use std::marker::Model;

/// So many bytes are in the text itself, which is enough for nearly all names.
const INLINE: usize = 16;

/// Bytes, seen as their list. Few of them take no memory of their own.
#[derive(Drop)]
pub struct Text {
    bytes: SmallVec<u8, INLINE>,
}

impl Model for Text {
    ghost Value = { List ℕ };

    ghost view = { λ t. t.bytes.items };
}

impl Text {
    /// The text of these bytes.
    pub fn new(bytes: Vec<u8>) -> Text
        ensures { result ≡ bytes.items }
    {
        Text {
            bytes: SmallVec::from_vec(bytes),
        }
    }

    /// A copy of the bytes. The only error is out of memory.
    pub fn copy_of(alloc: Global, bytes: &[u8]) -> Result<Text, Memory>
        ensures { IfOk result (λ text. text ≡ bytes.now) }
    {
        let bytes = SmallVec::from_slice(alloc, bytes)?;
        Ok(Text { bytes })
    }

    /// A name with a number at its end. The only error is out of memory.
    pub fn numbered(alloc: Global, front: &str, number: u64) -> Result<Text, Memory>
        ensures { IfOk result (λ text. text ≡ front.now ++ decimal number) }
    {
        let name = format!(in alloc; "{front}{number}")?;
        Text::copy_of(alloc, name.as_bytes())
    }

    /// The bytes.
    #[inline]
    pub fn bytes(&self) -> &[u8]
        ensures { result.now ≡ self.now }
    {
        self.bytes.as_slice()
    }
}

/// Numbers of rows, seen as their list.
#[derive(Drop)]
pub struct Wires {
    wires: Vec<u32>,
}

impl Model for Wires {
    ghost Value = { List ℕ };

    ghost view = { λ w. w.wires.items };
}

impl Wires {
    /// These numbers, in the vector that holds them.
    pub fn new(wires: Vec<u32>) -> Wires
        ensures { result ≡ wires.items }
    {
        Wires { wires }
    }

    /// The numbers.
    pub fn wires(&self) -> &[u32]
        ensures { result.now ≡ self.now }
    {
        self.wires.as_slice()
    }
}
