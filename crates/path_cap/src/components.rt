//! The components that are left of a path. Clauses see them in order, the next one first.

ghost use Rattle.std.specs.List.{slice_split};
ghost use Rattle.std.specs.Prelude.{◌==◌, map, ◌≡◌, ◌∷◌, ◌++◌, ◌↔◌, [], IsTrue, IfOk, OnOk, MatchOption};
ghost use Rattle.spec_parts.specs.Walk as model;

use eio_value::{Bytes, NoMemory};
use std::alloc::{AllocError, Global};
use std::marker::Model;

/// Whether a component asks for nothing: an empty one, or `.`.
fn asks_nothing(component: &[u8]) -> bool
    ensures { result ≡ model.asks_nothing component.now }
{
    matches!(component, [] | [b'.'])
}

/// Whether a component goes up.
pub fn is_up(component: &[u8]) -> bool
    ensures { result ≡ model.is_up component.now }
{
    matches!(component, [b'.', b'.'])
}

/// Whether a path begins with `/`.
pub fn is_absolute(path: &[u8]) -> bool
    ensures { result ≡ model.is_absolute path.now }
{
    matches!(path, [b'/', ..])
}

/// The parts of a path between `/` and `/`.
fn parts(alloc: Global, path: &[u8]) -> Result<Vec<&[u8]>, AllocError>
    ensures { IfOk result (λ parts. map (λ part. part.now) parts.items ≡ slice_split (λ b. b == 47) path.now) }
{
    path.split(|byte| *byte == b'/').collect(alloc)
}

/// Components that are left, the next one last.
#[derive(Drop)]
pub struct Components {
    names: Vec<Bytes>,
}

impl Model for Components {
    ghost use Rattle.std.specs.Prelude.{ℕ, List, reverse};

    ghost Value = { List (List ℕ) };

    ghost view = { λ inside. reverse inside.names.items };
}

impl Components {
    pub fn none(alloc: Global) -> Components
        ensures { result ≡ [] }
    {
        Components {
            names: Vec::new(alloc),
        }
    }

    pub fn is_empty(&self) -> bool
        ensures { IsTrue result ↔ (self.now ≡ []) }
    {
        self.names.is_empty()
    }

    /// The next one, which is left no more.
    pub fn take_next(&mut self) -> Option<Bytes>
        ensures { MatchOption result (self.old ≡ []) (λ name. self.old ≡ name ∷ self.new) }
    {
        self.names.pop()
    }

    /// Puts the components of a path before those that are left.
    pub fn put_before(&mut self, alloc: Global, path: &[u8]) -> Result<(), NoMemory>
        ensures { OnOk result (self.new ≡ model.components path.now ++ self.old) }
    {
        let mut parts = parts(alloc, path)?;
        while let Some(part) = parts.pop() {
            if !asks_nothing(part) {
                self.names.push(Bytes::new(Vec::from_slice(alloc, part)?))?;
            }
        }
        Ok(())
    }
}
