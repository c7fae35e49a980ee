//! The types of a context, each interned once.
ghost use Rattle.std.specs.Prelude.{◌≡◌, ◌↔◌, ◌<◌, [], ◌∷◌, ◌++◌, true, false, if◌then◌else◌, IsTrue, Ok, Some, None, IfOk, OnOk, OnErr, length, slice_get, option_copied, option_and_then};
ghost use Rattle.std.specs.Borrow.{sem};
ghost use Rattle.std.specs.List.{IsDistinct, list_any, position_or_len};
ghost use Rattle.indexmap.specs.IndexSet.{insert_key};

use crate::{DialectTables, SavedKey};
use indexmap::IndexSet;
use ir_hashing::{TextKey, rekey};
use ir_names::{TypeHandle, TypeInterface};
use std::alloc::{AllocError, Global};
use std::hash::Hash;
use std::marker::Model;

/// The types of a context, each with its key, and what the context keeps once beside them.
///
/// Equal keys have one handle, and a handle stands for its key for good. A type may have a body
/// beside its key, which is no part of what makes types equal.
#[derive(Drop)]
pub struct Types<D: DialectTables> {
    keys: IndexSet<D::TypeKey, TextKey>,
    // The body at an index is that of the type whose key stands at the index.
    bodies: Vec<Option<D::TypeBody>>,
    saved: IndexSet<D::Saved, TextKey>,
}

impl<D: DialectTables> Model for Types<D> {
    ghost use Rattle.std.specs.Prelude.{◌≡◌, length};
    ghost use Rattle.ir_types.specs.Views.{TypesView};

    ghost Value = { TypesView D.TypeKey D.TypeBody D.Saved };

    ghost view = { λ t. record { keys = t.keys.keys; bodies = t.bodies.items; saved = t.saved.keys } };

    ghost invariant = { λ t. length t.keys.keys ≡ length t.bodies.items };
}

/// The body at an index, of a type that has one. Past the end there is none.
#[inline]
fn body_in<B>(bodies: &[Option<B>], index: usize) -> Option<&B>
    ensures { option_copied result ≡ option_and_then (λ body. body) (slice_get bodies.now index) }
{
    match bodies.get(index) {
        Some(body) => body.as_ref(),
        None => None,
    }
}

/// The handle of the type with this key. Where no key equals it, it is put behind the others, with a place for a body.
#[inline]
fn intern_among<K: Eq + Hash + Drop, B: Drop>(
    keys: &mut IndexSet<K, TextKey>,
    bodies: &mut Vec<Option<B>>,
    key: K,
) -> Result<TypeHandle, AllocError>
    ensures distinct { IsDistinct K.eq keys.old.keys }
    ensures still_distinct { IsDistinct K.eq keys.new.keys }
    ensures handle { IfOk result (λ ty. ty.number ≡ position_or_len (K.eq key) keys.old.keys) }
    ensures equal { IfOk result (λ ty. (kept : K) × (slice_get keys.new.keys ty.number ≡ Some kept)
        × (K.eq key kept ≡ true)) }
    ensures ok { OnOk result (keys.new.keys ≡ insert_key K.eq keys.old.keys key) }
    ensures bodies { OnOk result (bodies.new.items ≡ (if list_any (K.eq key) keys.old.keys then bodies.old.items
        else bodies.old.items ++ None ∷ [])) }
    ensures absent { OnErr result (list_any (K.eq key) keys.old.keys ≡ false) }
    ensures err_keys { OnErr result (keys.new.keys ≡ keys.old.keys) }
    ensures err_bodies { OnErr result (bodies.new.items ≡ bodies.old.items) }
{
    // So no two of the keys are equal.
    let _ = keys.len();
    if let Some(number) = keys.get_index_of(&key) {
        return Ok(TypeHandle::new(number));
    }
    bodies.reserve(1)?;
    let (number, _) = keys.insert_full(key)?;
    bodies.push(None)?;
    Ok(TypeHandle::new(number))
}

/// The key of the value among those that are kept. Where none equals it, it is kept behind the others.
#[inline]
fn keep<T: Eq + Hash + Drop>(
    kept: &mut IndexSet<T, TextKey>,
    value: T,
) -> Result<SavedKey, AllocError>
    ensures distinct { IsDistinct T.eq kept.old.keys }
    ensures still_distinct { IsDistinct T.eq kept.new.keys }
    ensures key { IfOk result (λ key. key.number ≡ position_or_len (T.eq value) kept.old.keys) }
    ensures equal { IfOk result (λ key. (held : T) × (slice_get kept.new.keys key.number ≡ Some held)
        × (T.eq value held ≡ true)) }
    ensures ok { OnOk result (kept.new.keys ≡ insert_key T.eq kept.old.keys value) }
    ensures absent { OnErr result (list_any (T.eq value) kept.old.keys ≡ false) }
    ensures err { OnErr result (kept.new.keys ≡ kept.old.keys) }
{
    // So no two of the values are equal.
    let _ = kept.len();
    let (number, _) = kept.insert_full(value)?;
    Ok(SavedKey { number })
}

impl<D: DialectTables> Types<D> {
    ghost use Rattle.ir_base.specs.declared.types.TypeHandle.{TypeHandle};
    ghost use Rattle.ir_types.specs.declared.saved.SavedKey.{SavedKey};
    ghost use Rattle.ir_types.specs.Lends.{lends_body};
    ghost use Rattle.ir_types.specs.Interned.{IsKnown, key_at, body_at, IsSaved, saved_at, KeepsTypes, KeepsSaved, passes, HasDistinctTypes, next_handle, has_key, handle_of, with_type, HasDistinctSaved, next_saved_key, has_saved, saved_key_of, with_saved};

    /// No type and no saved value.
    pub fn new(alloc: Global) -> Types<D>
        ensures { result ≡ record { keys = []; bodies = []; saved = [] } }
    {
        Types {
            keys: IndexSet::with_hasher(alloc, TextKey::new()),
            bodies: Vec::new(alloc),
            saved: IndexSet::with_hasher(alloc, TextKey::new()),
        }
    }

    /// The key of hashes by which types and saved values are found.
    pub fn hash_key(&self) -> TextKey {
        *self.keys.hasher()
    }

    /// Has the types and the saved values be found by another key of hashes from now on. Their handles and keys stay.
    ///
    /// A text that mentions types goes into the key first, so that none can choose types that are slow to tell apart.
    ///
    /// # Errors
    /// There may be no memory. Some of them may be found by the new key then already.
    pub fn key_by(&mut self, alloc: Global, key: TextKey) -> Result<(), AllocError>
        ensures same { self.new ≡ self.old }
    {
        rekey(alloc, &mut self.keys, key)?;
        rekey(alloc, &mut self.saved, key)
    }

    /// How many types there are.
    pub fn len(&self) -> usize
        ensures { result ≡ length self.now.keys }
    {
        self.keys.len()
    }

    /// Whether there is no type.
    pub fn is_empty(&self) -> bool
        ensures { IsTrue result ↔ (self.now.keys ≡ []) }
    {
        self.keys.is_empty()
    }

    /// The handle of the type with this key.
    ///
    /// Where a type has an equal key, nothing changes and no memory is asked for. A new type comes
    /// behind the others, and has no body.
    pub fn intern(&mut self, key: D::TypeKey) -> Result<TypeHandle, AllocError>
        ensures known { (ty : TypeHandle) → (kept : D.TypeKey) → key_at self.old ty ≡ Some kept
            → D.TypeKey.eq key kept ≡ true → (result ≡ Ok ty) × (self.new ≡ self.old) }
        ensures fresh { has_key D.TypeKey.eq self.old key ≡ false → IfOk result (λ ty. ty ≡ next_handle self.old) }
        ensures handle { IfOk result (λ ty. ty ≡ handle_of D.TypeKey.eq self.old key) }
        ensures ok { OnOk result (self.new ≡ with_type D.TypeKey.eq self.old key) }
        ensures key { IfOk result (λ ty. (kept : D.TypeKey) × (key_at self.new ty ≡ Some kept)
            × (D.TypeKey.eq key kept ≡ true)) }
        ensures same { IfOk result (λ ty. (other : TypeHandle) → (kept : D.TypeKey)
            → key_at self.new other ≡ Some kept → ((other ≡ ty) ↔ (D.TypeKey.eq key kept ≡ true))) }
        ensures keeps { KeepsTypes self.old self.new }
        ensures err { OnErr result (self.new ≡ self.old) }
    {
        intern_among(&mut self.keys, &mut self.bodies, key)
    }

    /// The key of a type, or `None` for a handle that leads to none.
    pub fn key(&self, ty: TypeHandle) -> Option<&D::TypeKey>
        ensures { option_copied result ≡ key_at self.now ty }
    {
        self.keys.get_index(ty.number())
    }

    /// Whether the handle leads to a type.
    pub fn is_known(&self, ty: TypeHandle) -> bool
        ensures { IsTrue result ↔ IsKnown self.now ty }
    {
        ty.number() < self.keys.len()
    }

    /// The body of a type that has one. A handle that leads to no type has none.
    pub fn body(&self, ty: TypeHandle) -> Option<&D::TypeBody>
        ensures { option_copied result ≡ body_at self.now ty }
    {
        body_in(&self.bodies, ty.number())
    }

    /// Lends the body of a type, to be given to it, changed or taken.
    pub fn body_mut(&mut self, ty: TypeHandle) -> &mut Option<D::TypeBody>
        requires { IsKnown self.old ty }

        // The first three lines name the type of `self`: by the dialect, its types, and what its traits say of them.
        ensures* lends { sem 𝓛
            (lends_body D.row D.TypeKind.row D.AttrKind.row D.TypeBody.row D.Saved.row D.Location.row D.OpKind.row
            D.Attr.row D.TypeKey.row
            D.DialectTables.own D.OpKind.PartialEq D.Attr.PartialEq D.Attr.Hash.own D.TypeKey.PartialEq D.TypeKey.Hash.own
            D.TypeKind.PartialEq D.AttrKind.PartialEq D.Saved.PartialEq D.Saved.Hash.own D.Location.PartialEq
            self.entry ty result) }
        ensures value { result.now ≡ body_at self.old ty }
    {
        &mut self.bodies[ty.number()]
    }

    /// Whether the type is of this kind. A handle that leads to no type is of none.
    pub fn has_kind(&self, ty: TypeHandle, kind: D::TypeKind) -> bool
        ensures { result ≡ passes (λ key. D.TypeKind.eq (D.kind_of_type key) kind) self.now ty }
    {
        match self.key(ty) {
            Some(key) => D::type_kind(key) == kind,
            None => false,
        }
    }

    /// Whether the type implements the interface. A handle that leads to no type implements none.
    pub fn implements(&self, ty: TypeHandle, interface: TypeInterface) -> bool
        ensures { result ≡ passes (λ key. D.type_has key interface) self.now ty }
    {
        match self.key(ty) {
            Some(key) => D::type_implements(key, interface),
            None => false,
        }
    }

    /// A law: handles are equal exactly where the keys of their types are.
    pub fn know_distinct(&self)
        ensures { HasDistinctTypes D.TypeKey.eq self.now }
    {
        let _ = self.keys.len();
    }

    /// A law: each type has a place for its body.
    pub fn know_bodies(&self)
        ensures { length self.now.bodies ≡ length self.now.keys }
    {
        let _ = self.keys.len();
    }

    /// Keeps a value, and answers its key.
    ///
    /// Where an equal value is kept, nothing changes and no memory is asked for.
    pub fn save(&mut self, value: D::Saved) -> Result<SavedKey, AllocError>
        ensures known { (key : SavedKey) → (kept : D.Saved) → saved_at self.old key ≡ Some kept
            → D.Saved.eq value kept ≡ true → (result ≡ Ok key) × (self.new ≡ self.old) }
        ensures fresh { has_saved D.Saved.eq self.old value ≡ false
            → IfOk result (λ key. key ≡ next_saved_key self.old) }
        ensures key { IfOk result (λ key. key ≡ saved_key_of D.Saved.eq self.old value) }
        ensures ok { OnOk result (self.new ≡ with_saved D.Saved.eq self.old value) }
        ensures value { IfOk result (λ key. (kept : D.Saved) × (saved_at self.new key ≡ Some kept)
            × (D.Saved.eq value kept ≡ true)) }
        ensures same { IfOk result (λ key. (other : SavedKey) → (kept : D.Saved) → saved_at self.new other ≡ Some kept
            → ((other ≡ key) ↔ (D.Saved.eq value kept ≡ true))) }
        ensures keeps { KeepsSaved self.old self.new }
        ensures err { OnErr result (self.new ≡ self.old) }
    {
        keep(&mut self.saved, value)
    }

    /// Whether the key leads to a saved value.
    pub fn is_saved(&self, key: SavedKey) -> bool
        ensures { IsTrue result ↔ IsSaved self.now key }
    {
        key.number < self.saved.len()
    }

    /// The saved value under a key.
    pub fn saved(&self, key: SavedKey) -> &D::Saved
        requires { IsSaved self.now key }
        ensures { saved_at self.now key ≡ Some result.now }
    {
        &self.saved.as_slice()[key.number]
    }

    /// A law: keys are equal exactly where their saved values are.
    pub fn know_saved_distinct(&self)
        ensures { HasDistinctSaved D.Saved.eq self.now }
    {
        let _ = self.saved.len();
    }
}
