//! The forms of a script that a command refuses: those for the mocked domain alone, further bodies, and what isn't built.

ghost use Rattle.std.specs.Prelude.{◌≡◌};
ghost use Rattle.spec_script.specs.Features.{feature_number, is_built};

use crate::script::Script;
use spec_script::Feature;

impl Script {
    ghost use Rattle.std.specs.Prelude.{◌≡◌};
    ghost use Rattle.spec_script.specs.RefusedForms as refused;

    /// The offset of the first form that is for the mocked domain alone, exactly where there is one.
    pub fn mock_only(&self) -> Option<u32>
        ensures { result ≡ refused.mock_only self.now }
    {
        let it = self.formed().iter().find(|it| it.mocked)?;
        Some(it.at)
    }

    /// The offset of the first body behind main, exactly where there is one.
    pub fn domain_only(&self) -> Option<u32>
        ensures { result ≡ refused.domain_only self.now }
    {
        self.first_domain()
    }

    /// The offset of the first form whose feature isn't among these, exactly where there is one.
    pub fn unbuilt(&self, built: &[Feature]) -> Option<u32>
        ensures { result ≡ refused.unbuilt built.now self.now }
    {
        let it = self
            .formed()
            .iter()
            .find(|it| !is_built(built, it.feature))?;
        Some(it.at)
    }
}

/// Whether a feature is among those that are built.
fn is_built(built: &[Feature], wanted: Feature) -> bool
    ensures { result ≡ is_built built.now wanted }
{
    built
        .iter()
        .any(|one| feature_number(*one) == feature_number(wanted))
}

/// A number for each feature, by which they are told apart.
fn feature_number(feature: Feature) -> u8
    ensures { result ≡ feature_number feature }
{
    match feature {
        Feature::FirstForms => 0,
        Feature::Reading => 1,
        Feature::Steps => 2,
        Feature::Exceptions => 3,
        Feature::Switches => 4,
        Feature::Groups => 5,
        Feature::StreamsAndPromises => 6,
        Feature::Resources => 7,
        Feature::Flows => 8,
        Feature::Paths => 9,
        Feature::Domains => 10,
        Feature::Executors => 11,
        Feature::Histories => 12,
        Feature::Lists => 13,
        Feature::Folders => 14,
        Feature::Versions => 15,
    }
}
