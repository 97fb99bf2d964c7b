//! Calls that change a tree through a capability. Each leaves the tree that the definition of its name gives; one that is refused,
//! or has no memory, leaves the tree as it was. What lies outside the capability's directory stays the same: the clause `outside` of
//! each call, and the law `changes_stay_below`.

ghost use Rattle.std.specs.Prelude.{◌≡◌, ◌<◌, ◌^◌, length, Ok, IfErr, OnOk, OnErr};
ghost use Rattle.spec_parts.specs.PathCalls as model;
ghost use Rattle.path_cap.specs.Below.{KeepsOutside};
ghost use Rattle.path_cap.specs.Changes.{saving};
ghost use Rattle.path_cap.specs.Faults.{Refuses};

use crate::cap::{Cap, CapFault};
use crate::item::HeldNode;
use crate::tree::DirTree;
use crate::walk::{Leads, Place, resolve};
use eio_value::{Bytes, PathFault};
use std::alloc::Global;

#[tactic(auto, using(crate::proofs::Keeping::unchanged_keeps))]
impl DirTree {
    /// Writes a file with this content: a new one, or, unless only a new one is wanted, in place of the one that a path leads to.
    /// A last link is followed where any file will do, so that the file is written or made where it leads.
    pub fn save(
        &mut self,
        alloc: Global,
        cap: Cap,
        path: &[u8],
        content: &[u8],
        only_new: bool,
    ) -> Result<(), CapFault>
        ensures ok { OnOk result (saving only_new self.old cap.0 path.now content.now ≡ Ok self.new) }
        ensures fault { IfErr result (λ fault. Refuses fault (saving only_new self.old cap.0 path.now content.now)) }
        ensures err { OnErr result (self.new ≡ self.old) }
        ensures outside { KeepsOutside self.old cap.0 self.new }
    {
        if only_new {
            self.save_new(alloc, cap, path, content)
        } else {
            self.save_any(alloc, cap, path, content)
        }
    }

    fn save_any(
        &mut self,
        alloc: Global,
        cap: Cap,
        path: &[u8],
        content: &[u8],
    ) -> Result<(), CapFault>
        ensures ok { OnOk result (model.save self.old cap.0 path.now content.now ≡ Ok self.new) }
        ensures fault { IfErr result (λ fault. Refuses fault (model.save self.old cap.0 path.now content.now)) }
        ensures err { OnErr result (self.new ≡ self.old) }
        ensures outside { KeepsOutside self.old cap.0 self.new }
    {
        match resolve(alloc, self, cap.0, path, true)? {
            Leads::ToDirectory(_) => Err(CapFault::Path(PathFault::IsDirectory)),
            Leads::ToFile(above, name)
            | Leads::ToLink(above, name)
            | Leads::ToNothing(above, name) => {
                let content = Bytes::new(Vec::from_slice(alloc, content)?);
                Ok(self.put(above, name, HeldNode::File(content))?)
            }
            Leads::Refused(fault) => Err(CapFault::Path(fault)),
        }
    }

    fn save_new(
        &mut self,
        alloc: Global,
        cap: Cap,
        path: &[u8],
        content: &[u8],
    ) -> Result<(), CapFault>
        ensures ok { OnOk result (model.save_new self.old cap.0 path.now content.now ≡ Ok self.new) }
        ensures fault { IfErr result (λ fault. Refuses fault (model.save_new self.old cap.0 path.now content.now)) }
        ensures err { OnErr result (self.new ≡ self.old) }
        ensures outside { KeepsOutside self.old cap.0 self.new }
    {
        match resolve(alloc, self, cap.0, path, false)? {
            Leads::ToNothing(above, name) => {
                let content = Bytes::new(Vec::from_slice(alloc, content)?);
                Ok(self.put(above, name, HeldNode::File(content))?)
            }
            Leads::Refused(fault) => Err(CapFault::Path(fault)),
            _ => Err(CapFault::Path(PathFault::AlreadyExists)),
        }
    }

    /// Makes a directory.
    pub fn mkdir(&mut self, alloc: Global, cap: Cap, path: &[u8]) -> Result<(), CapFault>
        requires { length self.old < 2 ^ 32 }
        ensures ok { OnOk result (model.mkdir self.old cap.0 path.now ≡ Ok self.new) }
        ensures fault { IfErr result (λ fault. Refuses fault (model.mkdir self.old cap.0 path.now)) }
        ensures err { OnErr result (self.new ≡ self.old) }
        ensures outside { KeepsOutside self.old cap.0 self.new }
    {
        match resolve(alloc, self, cap.0, path, false)? {
            Leads::ToNothing(above, name) => Ok(self.put_directory(alloc, above, name)?),
            Leads::Refused(fault) => Err(CapFault::Path(fault)),
            _ => Err(CapFault::Path(PathFault::AlreadyExists)),
        }
    }

    /// Removes a file or a link: a last link isn't followed.
    pub fn unlink(&mut self, alloc: Global, cap: Cap, path: &[u8]) -> Result<(), CapFault>
        ensures ok { OnOk result (model.unlink self.old cap.0 path.now ≡ Ok self.new) }
        ensures fault { IfErr result (λ fault. Refuses fault (model.unlink self.old cap.0 path.now)) }
        ensures err { OnErr result (self.new ≡ self.old) }
        ensures outside { KeepsOutside self.old cap.0 self.new }
    {
        match resolve(alloc, self, cap.0, path, false)? {
            Leads::ToDirectory(_) => Err(CapFault::Path(PathFault::IsDirectory)),
            Leads::ToFile(above, name) | Leads::ToLink(above, name) => {
                self.take_out(above, name.as_slice());
                Ok(())
            }
            Leads::ToNothing(..) => Err(CapFault::Path(PathFault::NotFound)),
            Leads::Refused(fault) => Err(CapFault::Path(fault)),
        }
    }

    /// Removes an empty directory, but not the capability's own.
    pub fn rmdir(&mut self, alloc: Global, cap: Cap, path: &[u8]) -> Result<(), CapFault>
        ensures ok { OnOk result (model.rmdir self.old cap.0 path.now ≡ Ok self.new) }
        ensures fault { IfErr result (λ fault. Refuses fault (model.rmdir self.old cap.0 path.now)) }
        ensures err { OnErr result (self.new ≡ self.old) }
        ensures outside { KeepsOutside self.old cap.0 self.new }
    {
        match resolve(alloc, self, cap.0, path, false)? {
            Leads::ToDirectory(place) => self.remove_at(&place),
            Leads::ToFile(..) | Leads::ToLink(..) => Err(CapFault::Path(PathFault::NotDirectory)),
            Leads::ToNothing(..) => Err(CapFault::Path(PathFault::NotFound)),
            Leads::Refused(fault) => Err(CapFault::Path(fault)),
        }
    }

    /// Removes the directory at a place, where it is empty and not the capability's own.
    fn remove_at(&mut self, place: &Place) -> Result<(), CapFault>
        ensures ok { OnOk result (model.emptied self.old place.now.here place.now.steps ≡ Ok self.new) }
        ensures fault { IfErr result (λ fault. Refuses fault (model.emptied self.old place.now.here place.now.steps)) }
        ensures err { OnErr result (self.new ≡ self.old) }
    {
        let Some(step) = place.last_step() else {
            return Err(CapFault::Path(PathFault::PermissionDenied));
        };
        let inner = place.here();
        if !self.is_empty(inner) {
            return Err(CapFault::Path(PathFault::NotEmpty));
        }
        self.remove_directory(step.above(), step.name(), inner);
        Ok(())
    }
}
