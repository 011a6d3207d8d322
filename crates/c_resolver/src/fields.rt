// Fields and leaves by name.
ghost use Rattle.std.specs.Prelude.{◌≡◌, map};
ghost use Rattle.c_syntax.specs.PlainField.{field_trees};
ghost use Rattle.c_syntax.specs.Tree.{struct_fields};
ghost use Rattle.c_rules.specs.Resolve as rules;
ghost use Rattle.c_grammar.specs.WrittenTrees.{leaf_of};
ghost use Rattle.c_resolver.specs.Scopes.{names_of};

use crate::known::{Known, Scope};
use c_grammar::WrittenLeaf;
use c_outputs::NameTable;
use c_syntax::{CKind, CType, Field, FieldKind, Leaf};

/// The position and the kind of the field with a name.
fn field_named(names: &NameTable, fields: &[Field], name: &[u8]) -> Result<(u32, FieldKind), CKind>
    requires { names.now ≡ map (λ f. f.name) (field_trees fields.now) }
    ensures { result ≡ rules.field_named (field_trees fields.now) name.now }
{
    match names.position(name) {
        Some(k) => Ok((k, fields[k as usize].kind)),
        None => Err(CKind::Name),
    }
}

impl<'a> Known<'a> {
    /// The position and the kind of a field of the struct at a position.
    pub(crate) fn field(&self, of: u32, name: &[u8]) -> Result<(u32, FieldKind), CKind>
        ensures { result
            ≡ rules.field_named (struct_fields self.now.structs.items.items of) name.now }
    {
        let Some(def) = self.structs.items.get(of as usize) else {
            return Err(CKind::Name);
        };
        match self.field_names.get(of as usize) {
            Some(names) => field_named(names, def.fields.as_slice(), name),
            None => Err(CKind::Name),
        }
    }
}

impl<'k, 'a> Scope<'k, 'a> {
    /// The position and the kind of a field of the own struct.
    pub(crate) fn field(&self, name: &[u8]) -> Result<(u32, FieldKind), CKind>
        ensures { result ≡ rules.field_named (names_of self.now).fields name.now }
    {
        match self.of {
            Some(of) => self.known.field(of, name),
            None => Err(CKind::Name),
        }
    }
}

/// The type of a number field.
pub(crate) fn as_number(kind: FieldKind) -> Result<CType, CKind>
    ensures { result ≡ rules.as_number kind }
{
    match kind {
        FieldKind::Number(ty) => Ok(ty),
        FieldKind::Array(_, _) | FieldKind::Struct(_) => Err(CKind::TypeRule),
    }
}

/// The type of the items of an array.
pub(crate) fn as_array(kind: FieldKind) -> Result<CType, CKind>
    ensures { result ≡ rules.as_array kind }
{
    match kind {
        FieldKind::Array(ty, _) => Ok(ty),
        FieldKind::Number(_) | FieldKind::Struct(_) => Err(CKind::TypeRule),
    }
}

/// The position of the struct that a field holds.
pub(crate) fn as_struct(kind: FieldKind) -> Result<u32, CKind>
    ensures { result ≡ rules.as_struct kind }
{
    match kind {
        FieldKind::Number(_) | FieldKind::Array(_, _) => Err(CKind::TypeRule),
        FieldKind::Struct(of) => Ok(of),
    }
}

/// What a body reads by a name or two.
pub(crate) fn resolve_leaf(scope: &Scope, leaf: WrittenLeaf) -> Result<Leaf, CKind>
    ensures { result ≡ rules.resolve_leaf (names_of scope.now) (leaf_of leaf.entry) }
{
    match leaf {
        WrittenLeaf::Param(name) => match scope.params.position(name) {
            Some(k) => Ok(Leaf::Param(k)),
            None => Err(CKind::Name),
        },
        WrittenLeaf::Own(name) => {
            let (field, kind) = scope.field(name)?;
            as_number(kind)?;
            Ok(Leaf::Own(field))
        }
        WrittenLeaf::Child(name, inner) => {
            let (field, kind) = scope.field(name)?;
            let of = as_struct(kind)?;
            let (inner_field, inner_kind) = scope.known.field(of, inner)?;
            as_number(inner_kind)?;
            Ok(Leaf::Child(field, inner_field))
        }
    }
}

/// The position of the own array that an index comes after.
pub(crate) fn resolve_array(scope: &Scope, name: &[u8]) -> Result<u32, CKind>
    ensures { result ≡ rules.resolve_array (names_of scope.now) name.now }
{
    let (field, kind) = scope.field(name)?;
    as_array(kind)?;
    Ok(field)
}
