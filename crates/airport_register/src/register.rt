//! The register of airfields.

ghost use Rattle.std.specs.Prelude.{◌≡◌, ◌<◌, [], length, slice_get, option_copied, option_map, IfOk, IfSome, OnErr, None, Some};
ghost use Rattle.std.specs.Arc.{arc_value};
ghost use Rattle.ordered_list.specs.Ordered.{put_by, removed_by};
ghost use Rattle.airfields.specs.Names.{name_cmp};
ghost use Rattle.airfields.specs.Airfields.{id_of, IsHeld};
ghost use Rattle.airport_register.specs.Registers.{IsRegister};
ghost use Rattle.airport_register.specs.Amendments.{airfield_at};
ghost use Rattle.airport_register.specs.Changes.{IsChange};

use crate::amendment::Changed;
use airfields::{Airfield, FieldId};
use grid_exact::NoMemory;
use ordered_tree::{OrderedTree, OwnKey};
use std::alloc::Global;
use std::marker::Model;
use std::sync::Arc;

/// Most airfields in a register.
pub const MOST_AIRFIELDS: usize = 16_384;

/// The register, which contracts see as the list of its airfields in rising order of name.
pub struct Register {
    items: OrderedTree<Airfield, OwnKey>,
}

// By hand, so that no crate above proves again how what it holds is dropped.
impl Drop for Register {
    fn drop(self) {
        let Register { items: _ } = self;
    }
}

impl Model for Register {
    ghost use Rattle.std.specs.Prelude.{List};
    ghost use Rattle.airport_register.specs.Registers.{IsRegister};
    ghost use Rattle.airfields.specs.declared.airfield.Airfield.{Airfield};

    ghost Value = { List Airfield };

    ghost view = { λ r. r.items };

    ghost invariant = { λ r. IsRegister r.items };
}

impl Register {
    /// A register without airfields; it takes no memory.
    pub fn empty(alloc: Global) -> Register
        ensures { result ≡ [] }
    {
        Register {
            items: OrderedTree::empty(alloc),
        }
    }

    /// The number of registered airfields.
    pub fn len(&self) -> usize
        ensures { result ≡ length self.now }
    {
        self.items.len()
    }

    /// The airfield of this name.
    pub fn get(&self, id: &FieldId) -> Option<&Airfield>
        ensures found { option_copied result ≡ airfield_at self.now id.now }
        ensures held { IfSome result (λ f. IsHeld f.now) }
    {
        self.items.find(id)
    }

    /// The airfield at place `i` in order of name, counted from 0.
    pub fn nth(&self, i: usize) -> Option<&Airfield>
        ensures place { option_copied result ≡ slice_get self.now i }
        ensures held { IfSome result (λ f. IsHeld f.now) }
    {
        self.items.get(i)
    }

    /// An equal register that shares its data with this one.
    ///
    /// # Errors
    ///
    /// `NoMemory` where memory was refused.
    pub fn share(&self, _alloc: Global) -> Result<Register, NoMemory>
        ensures equal { IfOk result (λ r. r ≡ self.now) }
    {
        Ok(Register {
            items: self.items.share()?,
        })
    }

    /// For proofs: the register is within its limits.
    pub fn limits(&self)
        ensures { IsRegister self.now }
    {
        let _ = &self.items; // a proof knows the invariant of a value where it reads a field
    }

    /// The airfield of this name, shared.
    fn shared(&self, id: &FieldId) -> Result<Option<Arc<Airfield>>, NoMemory>
        ensures { IfOk result (λ o. option_map arc_value o ≡ airfield_at self.now id.now) }
    {
        match self.items.find_shared(id) {
            None => Ok(None),
            Some(field) => {
                let field = Arc::try_clone(field)?;
                Ok(Some(field))
            }
        }
    }

    /// Puts the airfield in its place, instead of the one with its name.
    ///
    /// # Errors
    ///
    /// `NoMemory` where memory was refused. The register then stays as it was.
    pub(crate) fn put(&mut self, alloc: Global, field: Airfield) -> Result<Changed, NoMemory>
        requires held { IsHeld field }
        requires room { airfield_at self.old (id_of field) ≡ None →
            length self.old < MOST_AIRFIELDS }
        ensures put { IfOk result (λ _. self.new ≡ put_by name_cmp id_of field self.old) }
        ensures change { IfOk result (λ c. IsChange self.old self.new (id_of field) c) }
        ensures after { IfOk result (λ c. option_map arc_value c.after ≡ Some field) }
        ensures same { OnErr result (self.new ≡ self.old) }
    {
        let id = *field.id();
        let field = Arc::new(alloc, field)?;
        let after = Arc::try_clone(&field)?;
        let before = self.shared(&id)?;
        self.items = self.items.with(alloc, field)?;
        Ok(Changed {
            id,
            before,
            after: Some(after),
        })
    }

    /// Removes the airfield of this name.
    ///
    /// # Errors
    ///
    /// `NoMemory` where memory was refused. The register then stays as it was.
    pub(crate) fn remove(&mut self, alloc: Global, id: &FieldId) -> Result<Changed, NoMemory>
        ensures removed { IfOk result (λ _. self.new ≡ removed_by name_cmp id_of id.now self.old) }
        ensures change { IfOk result (λ c. IsChange self.old self.new id.now c) }
        ensures after { IfOk result (λ c. option_map arc_value c.after ≡ None) }
        ensures same { OnErr result (self.new ≡ self.old) }
    {
        let before = self.shared(id)?;
        self.items = self.items.without(alloc, id)?;
        Ok(Changed {
            id: *id,
            before,
            after: None,
        })
    }
}
