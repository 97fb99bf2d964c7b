//! The walk along a path below a capability. It keeps the way down from the capability, so `..` goes back up that way and never
//! above the capability. The theorem is the clause of [`resolve`]; that its way stays below is the law `leads_stay_below`.

ghost use Rattle.std.specs.Prelude.{◌≡◌, [], ◌||◌, not, slice_get, if◌then◌else◌, IfOk, OnOk};
ghost use Rattle.std.specs.Option.{option_copied};
ghost use Rattle.eio_value.specs.declared.plain.PathFault.TheVariants.{PermissionDenied};
ghost use Rattle.spec_parts.specs.Walk as model;
ghost use Rattle.path_cap.specs.Leading.{leads_of, by_link};

use crate::components::{Components, is_absolute, is_up};
use crate::item::HeldNode;
use crate::tree::DirTree;
use eio_value::{Bytes, NoMemory, PathFault};
use std::alloc::Global;
use std::marker::Model;

/// The most links that a walk follows.
const MOST_LINKS: u32 = 40;

/// A step down: the directory that it was made in, and the name.
#[derive(Drop)]
pub struct Step {
    above: u32,
    name: Bytes,
}

impl Model for Step {
    ghost use Rattle.spec_parts.specs.Walk as model;

    ghost Value = { model.Step };

    ghost view = { λ inside. record { above = inside.above; name = inside.name } };
}

impl Step {
    pub fn above(&self) -> u32
        ensures { result ≡ self.now.above }
    {
        self.above
    }

    pub fn name(&self) -> &[u8]
        ensures { result.now ≡ self.now.name }
    {
        self.name.as_slice()
    }
}

/// A place on the way: a directory, and the steps that lead to it from the capability, the last one last.
#[derive(Drop)]
pub struct Place {
    here: u32,
    steps: Vec<Step>,
}

impl Model for Place {
    ghost use Rattle.std.specs.Prelude.{reverse};
    ghost use Rattle.spec_parts.specs.Walk as model;

    ghost Value = { model.Place };

    ghost view = { λ inside. record { here = inside.here; steps = reverse inside.steps.items } };
}

impl Place {
    /// A capability's own directory.
    fn top(alloc: Global, here: u32) -> Place
        ensures { result ≡ record { here = here; steps = [] } }
    {
        Place {
            here,
            steps: Vec::new(alloc),
        }
    }

    pub fn here(&self) -> u32
        ensures { result ≡ self.now.here }
    {
        self.here
    }

    /// The last step, where the place isn't the capability's own directory.
    pub fn last_step(&self) -> Option<&Step>
        ensures { option_copied result ≡ slice_get self.now.steps 0 }
    {
        self.steps.last()
    }

    /// Goes back up, but not above the capability; whether it did.
    fn go_up(&mut self) -> bool
        ensures { (on : model.Place → model.Leads) → model.goes_up on self.old.steps ≡ (if result then on self.new else model.Refused PermissionDenied) }
    {
        match self.steps.pop() {
            Some(step) => {
                self.here = step.above;
                true
            }
            None => false,
        }
    }

    /// Goes down to a directory that stands here under a name.
    fn go_down(&mut self, name: Bytes, directory: u32) -> Result<(), NoMemory>
        ensures { OnOk result (self.new ≡ model.goes_down self.old name directory) }
    {
        let above = self.here;
        self.steps.push(Step { above, name })?;
        self.here = directory;
        Ok(())
    }
}

/// Where a path leads.
#[derive(Drop)]
pub enum Leads {
    /// To a directory.
    ToDirectory(Place),
    /// To the file of this name in a directory.
    ToFile(u32, Bytes),
    /// To the link of this name in a directory, which isn't followed.
    ToLink(u32, Bytes),
    /// To nothing: a directory has no such name, but something might be made there.
    ToNothing(u32, Bytes),
    Refused(PathFault),
}

/// Where a path leads below a capability, following a last link or not.
pub fn resolve(
    alloc: Global,
    tree: &DirTree,
    capability: u32,
    path: &[u8],
    follow: bool,
) -> Result<Leads, NoMemory>
    ensures { IfOk result (λ leads. leads_of tree.now leads ≡ model.resolve tree.now capability path.now follow) }
{
    if tree.is_removed(capability) {
        return Ok(Leads::Refused(PathFault::NotFound));
    }
    if is_absolute(path) {
        return Ok(Leads::Refused(PathFault::PermissionDenied));
    }
    let mut left = Components::none(alloc);
    left.put_before(alloc, path)?;
    walk(
        alloc,
        tree,
        MOST_LINKS,
        follow,
        Place::top(alloc, capability),
        left,
    )
}

/// Whether a link is followed: in a call that follows, and wherever it isn't the last component.
fn is_followed(follow: bool, is_last: bool) -> bool
    ensures { result ≡ (follow || not is_last) }
{
    follow || !is_last
}

/// The walk along components that follows no more than so many links.
#[cycle(walk)]
fn walk(
    alloc: Global,
    tree: &DirTree,
    links: u32,
    follow: bool,
    mut place: Place,
    mut left: Components,
) -> Result<Leads, NoMemory>
    ensures { IfOk result (λ leads. leads_of tree.now leads ≡ model.walk links tree.now follow place left) }
{
    while let Some(name) = left.take_next() {
        if is_up(name.as_slice()) {
            if !place.go_up() {
                return Ok(Leads::Refused(PathFault::PermissionDenied));
            }
            continue;
        }
        let is_last = left.is_empty();
        match tree.held(place.here(), name.as_slice()) {
            Some(HeldNode::Inner(directory)) => place.go_down(name, *directory)?,
            Some(HeldNode::Link(target)) if is_followed(follow, is_last) => {
                return follow_link(alloc, tree, links, follow, place, target.as_slice(), left);
            }
            Some(HeldNode::Link(_)) => return Ok(Leads::ToLink(place.here(), name)),
            Some(HeldNode::File(_)) if is_last => return Ok(Leads::ToFile(place.here(), name)),
            Some(HeldNode::File(_)) => return Ok(Leads::Refused(PathFault::NotDirectory)),
            None if is_last => return Ok(Leads::ToNothing(place.here(), name)),
            None => return Ok(Leads::Refused(PathFault::NotFound)),
        }
    }
    Ok(Leads::ToDirectory(place))
}

/// The walk from a place where it meets a link: the components of its target take its place.
#[cycle(walk)]
fn follow_link(
    alloc: Global,
    tree: &DirTree,
    links: u32,
    follow: bool,
    place: Place,
    target: &[u8],
    mut left: Components,
) -> Result<Leads, NoMemory>
    ensures { IfOk result (λ leads. leads_of tree.now leads ≡ by_link links tree.now follow place target.now left) }
{
    if links == 0 {
        return Ok(Leads::Refused(PathFault::TooManyLinks));
    }
    if is_absolute(target) {
        return Ok(Leads::Refused(PathFault::PermissionDenied));
    }
    left.put_before(alloc, target)?;
    walk(alloc, tree, links - 1, follow, place, left)
}
