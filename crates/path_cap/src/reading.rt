//! Calls that read a tree through a capability. Each answers what the definition of its name answers, and a fault that is the
//! definition's; where memory runs out nothing is said of the path.

ghost use Rattle.std.specs.Prelude.{◌≡◌, Ok, IfOk, IfErr, map, option_map};
ghost use Rattle.spec_parts.specs.PathCalls as model;
ghost use Rattle.path_cap.specs.Below.{IsBelow};
ghost use Rattle.path_cap.specs.Faults.{Refuses};

use crate::cap::{Cap, CapFault};
use crate::item::HeldNode;
use crate::tree::DirTree;
use crate::walk::{Leads, resolve};
use eio_value::{NoMemory, PathFault};
use spec_parts::PathKind;
use std::alloc::Global;

impl DirTree {
    /// The capability of the directory that a path leads to.
    pub fn open_dir(&self, alloc: Global, cap: Cap, path: &[u8]) -> Result<Cap, CapFault>
        ensures ok { IfOk result (λ opened. model.open_dir self.now cap.0 path.now ≡ Ok opened.0) }
        ensures below { IfOk result (λ opened. IsBelow self.now cap.0 opened.0) }
        ensures fault { IfErr result (λ fault. Refuses fault (model.open_dir self.now cap.0 path.now)) }
    {
        match resolve(alloc, self, cap.0, path, true)? {
            Leads::ToDirectory(place) => Ok(Cap(place.here())),
            Leads::ToFile(..) | Leads::ToLink(..) => Err(CapFault::Path(PathFault::NotDirectory)),
            Leads::ToNothing(..) => Err(CapFault::Path(PathFault::NotFound)),
            Leads::Refused(fault) => Err(CapFault::Path(fault)),
        }
    }

    /// The content of the file that a path leads to.
    pub fn load(&self, alloc: Global, cap: Cap, path: &[u8]) -> Result<Vec<u8>, CapFault>
        ensures ok { IfOk result (λ content. model.load self.now cap.0 path.now ≡ Ok content.items) }
        ensures fault { IfErr result (λ fault. Refuses fault (model.load self.now cap.0 path.now)) }
    {
        match resolve(alloc, self, cap.0, path, true)? {
            Leads::ToDirectory(_) => Err(CapFault::Path(PathFault::IsDirectory)),
            Leads::ToFile(above, name) => Ok(Vec::from_slice(
                alloc,
                self.content(above, name.as_slice()),
            )?),
            Leads::ToLink(..) | Leads::ToNothing(..) => Err(CapFault::Path(PathFault::NotFound)),
            Leads::Refused(fault) => Err(CapFault::Path(fault)),
        }
    }

    /// The names in the directory that a path leads to, in the order of their bytes (`names_stay_in_order`).
    pub fn read_dir(&self, alloc: Global, cap: Cap, path: &[u8]) -> Result<Vec<Vec<u8>>, CapFault>
        ensures ok { IfOk result (λ names. model.read_dir self.now cap.0 path.now ≡ Ok (map (λ name. name.items) names.items)) }
        ensures fault { IfErr result (λ fault. Refuses fault (model.read_dir self.now cap.0 path.now)) }
    {
        let opened = self.open_dir(alloc, cap, path)?;
        Ok(self.names(alloc, opened.0)?)
    }

    /// What stands at a path: a last link isn't followed.
    pub fn kind(&self, alloc: Global, cap: Cap, path: &[u8]) -> Result<PathKind, CapFault>
        ensures ok { IfOk result (λ kind. model.kind self.now cap.0 path.now ≡ Ok kind) }
        ensures fault { IfErr result (λ fault. Refuses fault (model.kind self.now cap.0 path.now)) }
    {
        match resolve(alloc, self, cap.0, path, false)? {
            Leads::ToDirectory(_) => Ok(PathKind::Dir),
            Leads::ToFile(..) => Ok(PathKind::File),
            Leads::ToLink(..) => Ok(PathKind::Link),
            Leads::ToNothing(..) => Err(CapFault::Path(PathFault::NotFound)),
            Leads::Refused(fault) => Err(CapFault::Path(fault)),
        }
    }

    /// The target of the link that stands right in the capability's directory under a name, where there is one.
    pub fn link_target(
        &self,
        alloc: Global,
        cap: Cap,
        name: &[u8],
    ) -> Result<Option<Vec<u8>>, NoMemory>
        ensures { IfOk result (λ target. option_map (λ bytes. bytes.items) target ≡ model.link_target self.now cap.0 name.now) }
    {
        match self.held(cap.0, name) {
            Some(HeldNode::Link(target)) => Ok(Some(Vec::from_slice(alloc, target.as_slice())?)),
            _ => Ok(None),
        }
    }
}
