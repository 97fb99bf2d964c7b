//! The kinds of groups.

ghost use Rattle.std.specs.Prelude.{◌≡◌};
ghost use Rattle.spec_parts.specs.Groups.{keeps_a_value};
ghost use Rattle.group_core.specs.Kinds.{kind_of};

/// Which call made a group.
#[derive(Clone, Copy)]
pub enum GroupKind {
    Both,
    All,
    First,
    Any,
}

impl GroupKind {
    /// Whether the value of a branch is kept.
    pub(crate) fn keeps_a_value(self) -> bool
        ensures { result ≡ keeps_a_value (kind_of self) }
    {
        match self {
            GroupKind::Both | GroupKind::All => false,
            GroupKind::First | GroupKind::Any => true,
        }
    }
}
