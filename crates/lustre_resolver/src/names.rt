// The names of a node.
ghost use Rattle.std.specs.Prelude.{◌≡◌, [], length, map, bytes_eq, IfOk};
ghost use Rattle.std.specs.List.{position_from};
ghost use Rattle.c_rules.specs.Gives.{Gives};
ghost use Rattle.c_rules.specs.Resolve.{check_params};
ghost use Rattle.lustre_syntax.specs.Tree.{texts_of, types_of};
ghost use Rattle.lustre_syntax.specs.Typing as types;
ghost use Rattle.lustre_grammar.specs.WrittenTrees.{word_of, declared_of, node_of};
ghost use Rattle.lustre_rules.specs.Resolve as rules;
ghost use Rattle.lustre_resolver.specs.Scopes.{names_of, line_and_text};

use crate::known::Names;
use base_core::{Memory, Text};
use c_outputs::NameTable;
use c_rules::fault_at;
use c_syntax::CKind;
use lustre_grammar::{LusWord, LusWrittenDecl, LusWrittenNode, ReadLusFault};
use std::alloc::{AllocError, Global};

/// The declared names of a node, inputs first.
fn written_names<'a>(
    alloc: Global,
    n: &LusWrittenNode<'a>,
) -> Result<Vec<LusWrittenDecl<'a>>, AllocError>
    ensures { IfOk result (λ all. map declared_of all.items ≡ rules.written_names (node_of n.now)) }
{
    let mut all = Vec::new(alloc);
    all.extend_from_slice(n.inputs.as_slice())?;
    all.extend_from_slice(n.outputs.as_slice())?;
    all.extend_from_slice(n.others.as_slice())?;
    Ok(all)
}

/// The positions of declared names, each of which differs from those before it.
fn places_of<'a>(
    alloc: Global,
    declared: &[LusWrittenDecl<'a>],
) -> Result<NameTable<'a>, ReadLusFault>
    ensures checked { Gives (λ places. tt) result (check_params [] [] (map line_and_text declared.now)) }
    ensures names { IfOk result (λ places. places ≡ map (λ d. d.name.now) declared.now) }
{
    let mut places = NameTable::new(alloc);
    for d in declared {
        if places.contains(d.name) {
            return Err(ReadLusFault::Refused(fault_at(d.line, CKind::Name)));
        }
        places.push(d.name)?;
    }
    Ok(places)
}

/// Declared names, as texts of their own, and their types.
fn typed_texts_of(alloc: Global, declared: &[LusWrittenDecl]) -> Result<Vec<(Text, bool)>, Memory>
    ensures { IfOk result (λ typed. typed.items ≡ map (λ d. (d.name.now, d.is_bool)) declared.now) }
{
    let mut typed = Vec::new(alloc);
    for d in declared {
        typed.push((Text::copy_of(alloc, d.name)?, d.is_bool))?;
    }
    Ok(typed)
}

impl<'a> Names<'a> {
    /// Names that are declared in this order, each of which differs from those before it.
    fn declared_as(
        alloc: Global,
        declared: &[LusWrittenDecl<'a>],
    ) -> Result<Names<'a>, ReadLusFault>
        ensures checked { Gives (λ names. tt) result (check_params [] [] (map line_and_text declared.now)) }
        ensures names { IfOk result (λ names. names.declared.items
            ≡ map (λ d. (d.name.now, d.is_bool)) declared.now) }
    {
        let places = places_of(alloc, declared)?;
        let declared = typed_texts_of(alloc, declared)?;
        Ok(Names { declared, places })
    }

    /// The names of a node, each of which differs from those before it.
    pub(crate) fn of(alloc: Global, n: &LusWrittenNode<'a>) -> Result<Names<'a>, ReadLusFault>
        ensures checked { Gives (λ names. tt) result (check_params [] []
            (map (λ d. (d.line, d.text)) (rules.written_names (node_of n.now)))) }
        ensures names { IfOk result (λ names. names_of names ≡ rules.declared_names (node_of n.now)) }
    {
        let all = written_names(alloc, n)?;
        Names::declared_as(alloc, all.as_slice())
    }

    /// The position of a name.
    pub(crate) fn position(&self, name: &[u8]) -> Option<u32>
        ensures { result ≡ position_from (bytes_eq name.now) 0 (texts_of (names_of self.now)) }
    {
        self.places.position(name)
    }

    /// Whether the name at a position is a `bool`.
    pub(crate) fn type_at(&self, place: u32) -> bool
        ensures { result ≡ types.type_at (types_of (names_of self.now)) place }
    {
        match self.declared.get(place as usize) {
            Some((_, is_bool)) => *is_bool,
            None => false,
        }
    }

    /// The type of a name that is read, where it is one of these.
    pub(crate) fn word_type(&self, word: LusWord) -> Option<bool>
        ensures { result ≡ rules.word_type (names_of self.now) (word_of word.entry) }
    {
        match self.position(word.text) {
            Some(place) => Some(self.type_at(place)),
            None => None,
        }
    }
}
