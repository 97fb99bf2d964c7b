//! The names in scope: those of the blocks around a place, and those of declarations.
//!
//! Contracts see it as the definitions' `Scope`. A block has a scope of its own, a copy of that around it, so that its names end
//! with it. The theorems are the clauses `reads` of [`Scope::bring`], [`Scope::used`] and [`Scope::directory`].

ghost use Rattle.std.specs.Prelude.{◌≡◌, option_map, map};
ghost use Rattle.spec_script.specs.Scopes.{named_in, is_variable};
ghost use Rattle.script_draft.specs.Names.{named_of};

use crate::cursor::Cursor;
use crate::kind::{Kind, is_same_kind};
use eio_value::NoMemory;
use script_forms::{Directory, ScriptFault};
use std::alloc::Global;
use std::marker::Model;

/// The most names of blocks that may be in scope.
const MOST_NAMES: usize = 64;

/// A name in scope.
#[derive(Clone, Copy)]
pub struct Named<'t> {
    /// Its bytes.
    pub name: &'t [u8],
    /// What it stands for.
    pub kind: Kind,
    /// Its slot, or the number of the declaration.
    pub number: u32,
}

/// The names in scope.
#[derive(Drop)]
pub struct Scope<'t, 'd> {
    /// What its names are allocated by.
    alloc: Global,
    /// Those of blocks, the newest first.
    names: Vec<Named<'t>>,
    /// The slot of the next one.
    next: u32,
    /// Those of declarations, in order.
    declared: &'d [Named<'t>],
}

impl<'t, 'd> Model for Scope<'t, 'd> {
    ghost use Rattle.std.specs.Prelude.{map};
    ghost use Rattle.spec_script.specs.Scopes as model;
    ghost use Rattle.script_draft.specs.Names.{named_of};

    ghost Value = { model.Scope };

    ghost view = { λ inside. record { names = map named_of inside.names.items; next = inside.next; declared = map named_of inside.declared.now } };
}

/// The name of these that has these bytes, if one has.
pub fn named_in<'t>(names: &[Named<'t>], name: &[u8]) -> Option<Named<'t>>
    ensures { option_map named_of result ≡ named_in (map named_of names.now) name.now }
{
    for it in names {
        if it.name == name {
            return Some(*it);
        }
    }
    None
}

/// Whether a name stands for a variable.
fn is_variable(named: &Option<Named>) -> bool
    ensures { result ≡ is_variable (option_map named_of named.now) }
{
    match named {
        Some(it) => is_same_kind(it.kind, Kind::Variable),
        None => false,
    }
}

impl<'t, 'd> Scope<'t, 'd> {
    ghost use Rattle.std.specs.Prelude.{◌≡◌, ◌≤◌, true, [], not, nat_lt, length, IfOk, OnOk, option_map, map};
    ghost use Rattle.spec_script.specs.Limits.{most_captured, most_names};
    ghost use Rattle.spec_script.specs.Scopes as model;
    ghost use Rattle.script_draft.specs.Ahead.{has_tree, tree_ahead, IsPast};
    ghost use Rattle.script_draft.specs.Names.{kind_of, named_of, Brings};
    ghost use Rattle.script_draft.specs.Readings.{Finds};
    ghost use Rattle.script_forms.specs.Calls.{directory_of};

    /// No name of a block, and these of declarations.
    pub fn new(alloc: Global, declared: &'d [Named<'t>]) -> Scope<'t, 'd>
        ensures { result ≡ record { names = []; next = 0; declared = map named_of declared.now } }
    {
        Scope {
            alloc,
            names: Vec::new(alloc),
            next: 0,
            declared,
        }
    }

    /// The same names, for a block inside.
    pub fn inner(&self) -> Result<Scope<'t, 'd>, NoMemory>
        ensures { IfOk result (λ inner. inner ≡ self.now) }
    {
        Ok(Scope {
            alloc: self.alloc,
            names: self.names.clone()?,
            next: self.next,
            declared: self.declared,
        })
    }

    /// The same names and a new one, which is the word that comes next, for a block inside.
    ///
    /// # Errors
    /// Those of [`Scope::bring`].
    pub fn with_name(
        &self,
        kind: Kind,
        cursor: &mut Cursor<'t>,
    ) -> Result<Scope<'t, 'd>, ScriptFault>
        requires { has_tree cursor.old ≡ true }
        ensures past { IfOk result (λ _. IsPast cursor.old cursor.new) }
        ensures reads { Finds (λ inner. inner) result (model.bring (kind_of kind) self.now (tree_ahead cursor.old)) }
    {
        let mut inner = self.inner()?;
        inner.bring(kind, cursor)?;
        Ok(inner)
    }

    /// What its names are allocated by.
    pub fn alloc(&self) -> Global {
        self.alloc
    }

    /// These names alone, beside those of declarations, for the block of a job that takes them with it.
    pub fn job(&self, names: Vec<Named<'t>>) -> Scope<'t, 'd>
        requires { length names.items ≤ most_captured }
        ensures { result ≡ record self.now { names = map named_of names.entry.items; next = length names.entry.items } }
    {
        let next = names.len() as u32;
        Scope {
            alloc: self.alloc,
            names,
            next,
            declared: self.declared,
        }
    }

    /// What a name stands for here, if for anything.
    fn named(&self, name: &[u8]) -> Option<Named<'t>>
        ensures { option_map named_of result ≡ model.named self.now name.now }
    {
        match named_in(&self.names, name) {
            Some(it) => Some(it),
            None => named_in(self.declared, name),
        }
    }

    /// Brings a new name into scope, which is the word that comes next.
    ///
    /// # Errors
    /// `Shape` where no word comes next, `Size` where as many names are in scope as may be, `Twice` where the name is taken.
    pub fn bring(&mut self, kind: Kind, cursor: &mut Cursor<'t>) -> Result<(), ScriptFault>
        requires { has_tree cursor.old ≡ true }
        ensures past { IfOk result (λ _. IsPast cursor.old cursor.new) }
        ensures reads { Brings result (kind_of kind) self.old self.new (tree_ahead cursor.old) }
    {
        let name = cursor.word()?;
        let before = self.named(name.word);
        if !is_variable(&before) {
            if self.is_full() {
                return Err(ScriptFault::Size(name.at));
            }
            if before.is_some() {
                return Err(ScriptFault::Twice(name.at));
            }
        }
        self.push(kind, name.word)?;
        Ok(())
    }

    /// Whether as many names of blocks are in scope as may be.
    fn is_full(&self) -> bool
        ensures { result ≡ not (nat_lt (length self.now.names) most_names) }
    {
        self.names.len() >= MOST_NAMES
    }

    /// One name more, which hides a variable of the same name.
    fn push(&mut self, kind: Kind, name: &'t [u8]) -> Result<(), NoMemory>
        ensures { OnOk result (self.new ≡ model.with_name (kind_of kind) name.now self.old) }
    {
        if self.next == u32::MAX {
            return Err(NoMemory);
        }
        let number = self.next;
        self.names.retain(|it| it.name != name);
        self.names.insert(0, Named { name, kind, number })?;
        self.next += 1;
        Ok(())
    }

    /// The slot or the declaration's number of the name that comes next, which stands for this kind.
    ///
    /// # Errors
    /// `Shape` where no word comes next, `Name` where it isn't in scope with this kind.
    pub fn used(&self, kind: Kind, cursor: &mut Cursor) -> Result<u32, ScriptFault>
        requires { has_tree cursor.old ≡ true }
        ensures past { IfOk result (λ _. IsPast cursor.old cursor.new) }
        ensures reads { Finds (λ number. number) result (model.used (kind_of kind) self.now (tree_ahead cursor.old)) }
    {
        let name = cursor.word()?;
        let Some(it) = self.named(name.word) else {
            return Err(ScriptFault::Name(name.at));
        };
        if !is_same_kind(it.kind, kind) {
            return Err(ScriptFault::Name(name.at));
        }
        Ok(it.number)
    }

    /// The directory that the name stands for that comes next.
    ///
    /// # Errors
    /// `Shape` where no word comes next, `Name` where it isn't in scope as a directory or a capability.
    pub fn directory(&self, cursor: &mut Cursor) -> Result<Directory, ScriptFault>
        requires { has_tree cursor.old ≡ true }
        ensures past { IfOk result (λ _. IsPast cursor.old cursor.new) }
        ensures reads { Finds directory_of result (model.directory_of self.now (tree_ahead cursor.old)) }
    {
        let name = cursor.word()?;
        let Some(it) = self.named(name.word) else {
            return Err(ScriptFault::Name(name.at));
        };
        match it.kind {
            Kind::Capability => Ok(Directory::Opened(it.number)),
            Kind::Directory => Ok(Directory::Declared(it.number)),
            _ => Err(ScriptFault::Name(name.at)),
        }
    }
}
