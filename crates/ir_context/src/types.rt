//! The types of a context: what is asked of them, and how they and saved values come.
ghost use Rattle.std.specs.Prelude.{◌≡◌, ◌↔◌, true, false, IsTrue, Ok, Some, IfOk, OnOk, OnErr, option_copied};
ghost use Rattle.std.specs.Borrow.{sem};
ghost use Rattle.ir_base.specs.declared.types.TypeHandle.{TypeHandle};
ghost use Rattle.ir_types.specs.Interned.{IsKnown, key_at, body_at};
ghost use Rattle.ir_context.specs.Known.{IsKnownIn};

use crate::notes::{BlockNotes, OperationData};
use crate::{Context, TypeTable, TypedProgram};
use ir_hashing::TextKey;
use ir_names::TypeHandle;
use ir_types::{DialectTables, SavedKey, Types};
use std::alloc::{AllocError, Global};

/// What is asked of a type.
pub trait TypeCalls {
    /// The handle of the type.
    ghost handle: { Self → TypeHandle };

    /// Whether the handle leads to a type.
    fn is_live<O, B, T: TypeTable>(self, ctx: &TypedProgram<O, B, T>) -> bool
        ensures { IsTrue result ↔ IsKnownIn (T.type_count ctx.now.types) (handle self) };

    /// Its key.
    fn deref<D: DialectTables>(self, ctx: &Context<D>) -> &D::TypeKey
        requires { IsKnown ctx.now.types (handle self) }
        ensures { key_at ctx.now.types (handle self) ≡ Some result.now };

    /// Its body, if it has one. A handle that leads to no type has none.
    fn body<D: DialectTables>(self, ctx: &Context<D>) -> Option<&D::TypeBody>
        ensures { option_copied result ≡ body_at ctx.now.types (handle self) };
}

impl TypeCalls for TypeHandle {
    ghost handle = { λ ty. ty };

    fn is_live<O, B, T: TypeTable>(self, ctx: &TypedProgram<O, B, T>) -> bool {
        ctx.types.is_known(self)
    }

    fn deref<D: DialectTables>(self, ctx: &Context<D>) -> &D::TypeKey {
        match ctx.types.key(self) {
            Some(key) => key,
            None => unreachable!(),
        }
    }

    fn body<D: DialectTables>(self, ctx: &Context<D>) -> Option<&D::TypeBody> {
        ctx.types.body(self)
    }
}

impl<D: DialectTables> TypedProgram<OperationData<D>, BlockNotes<D>, Types<D>> {
    ghost use Rattle.ir_types.specs.declared.saved.SavedKey.{SavedKey};
    ghost use Rattle.ir_types.specs.Interned.{IsSaved, saved_at, KeepsTypes, KeepsSaved, HasDistinctTypes, HasDistinctSaved, next_handle, has_key, handle_of, with_type, next_saved_key, has_saved, saved_key_of, with_saved};

    /// The handle of the type with this key.
    ///
    /// Where a type has an equal key, nothing changes. A new type comes behind the others, and has no body.
    ///
    /// # Errors
    /// Without memory nothing is changed.
    #[tactic(auto, using(crate::proofs::GrownTypes::grown_types))]
    pub fn instantiate_key(
        &mut self,
        _alloc: Global,
        key: D::TypeKey,
    ) -> Result<TypeHandle, AllocError>
        ensures known { (ty : TypeHandle) → (kept : D.TypeKey) → key_at self.old.types ty ≡ Some kept
            → D.TypeKey.eq key kept ≡ true → (result ≡ Ok ty) × (self.new ≡ self.old) }
        ensures fresh { has_key D.TypeKey.eq self.old.types key ≡ false
            → IfOk result (λ ty. ty ≡ next_handle self.old.types) }
        ensures handle { IfOk result (λ ty. ty ≡ handle_of D.TypeKey.eq self.old.types key) }
        ensures ok { OnOk result (self.new.types ≡ with_type D.TypeKey.eq self.old.types key) }
        ensures live { IfOk result (λ ty. IsKnown self.new.types ty) }
        ensures key { IfOk result (λ ty. (kept : D.TypeKey) × (key_at self.new.types ty ≡ Some kept)
            × (D.TypeKey.eq key kept ≡ true)) }
        ensures same { IfOk result (λ ty. (other : TypeHandle) → (kept : D.TypeKey)
            → key_at self.new.types other ≡ Some kept → ((other ≡ ty) ↔ (D.TypeKey.eq key kept ≡ true))) }
        ensures keeps { KeepsTypes self.old.types self.new.types }
        ensures err { OnErr result (self.new ≡ self.old) }
        ensures program { self.new.program ≡ self.old.program }
    {
        self.types.intern(key)
    }

    /// Keeps a value, and answers its key.
    ///
    /// Where an equal value is kept, nothing changes.
    ///
    /// # Errors
    /// Without memory nothing is changed.
    #[tactic(auto, using(crate::proofs::GrownTypes::saved_types))]
    pub fn save(&mut self, _alloc: Global, value: D::Saved) -> Result<SavedKey, AllocError>
        ensures known { (key : SavedKey) → (kept : D.Saved) → saved_at self.old.types key ≡ Some kept
            → D.Saved.eq value kept ≡ true → (result ≡ Ok key) × (self.new ≡ self.old) }
        ensures fresh { has_saved D.Saved.eq self.old.types value ≡ false
            → IfOk result (λ key. key ≡ next_saved_key self.old.types) }
        ensures key { IfOk result (λ key. key ≡ saved_key_of D.Saved.eq self.old.types value) }
        ensures ok { OnOk result (self.new.types ≡ with_saved D.Saved.eq self.old.types value) }
        ensures value { IfOk result (λ key. (kept : D.Saved) × (saved_at self.new.types key ≡ Some kept)
            × (D.Saved.eq value kept ≡ true)) }
        ensures same { IfOk result (λ key. (other : SavedKey) → (kept : D.Saved)
            → saved_at self.new.types other ≡ Some kept → ((other ≡ key) ↔ (D.Saved.eq value kept ≡ true))) }
        ensures keeps { KeepsSaved self.old.types self.new.types }
        ensures err { OnErr result (self.new ≡ self.old) }
        ensures program { self.new.program ≡ self.old.program }
    {
        self.types.save(value)
    }

    /// The key of hashes by which types and saved values are found, and tables of names of the context may be.
    pub fn hash_key(&self) -> TextKey {
        self.types.hash_key()
    }

    /// Has the types and the saved values be found by another key of hashes from now on. Their handles and keys stay.
    ///
    /// Before a text is read, it goes into the key (`TextKey::after`), so that no texts can choose types or names that are
    /// slow to tell apart. This takes time by how many types and saved values there are.
    ///
    /// # Errors
    /// There may be no memory. Some of them may be found by the new key then already.
    pub fn key_types_by(&mut self, alloc: Global, key: TextKey) -> Result<(), AllocError>
        ensures same { self.new ≡ self.old }
    {
        self.types.key_by(alloc, key)
    }

    /// The saved value under a key.
    pub fn saved(&self, key: SavedKey) -> &D::Saved
        requires { IsSaved self.now.types key }
        ensures { saved_at self.now.types key ≡ Some result.now }
    {
        self.types.saved(key)
    }

    /// A law: handles of types are equal exactly where the keys of their types are, and so are the keys of saved values.
    pub fn know_distinct(&self)
        ensures types { HasDistinctTypes D.TypeKey.eq self.now.types }
        ensures saved { HasDistinctSaved D.Saved.eq self.now.types }
    {
        self.types.know_distinct();
        self.types.know_saved_distinct();
    }
}
