//! What stands at a path.

/// What stands at a path.
#[derive(Clone, Copy, Debug)]
pub enum PathKind {
    File,
    Dir,
    Link,
}
