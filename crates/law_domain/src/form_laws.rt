//! Laws of the forms that a list of features brings.

ghost use Rattle.law_domain.specs.Forms.Laws.{BuiltFeaturesAlone, GroupFormsAlone, MockedFeaturesAlone, MockedGroupFormsAlone};

/// A script of which no form is refused as unbuilt has statements and declarations of the features that are built alone, in
/// whatever depth, whichever features these are.
pub fn built_features_alone()
    ensures trees { BuiltFeaturesAlone }
    ensures mocked { MockedFeaturesAlone }
{}

/// Where the forms up to groups are built, such a script has no other form, and declares nothing. Its `both` and `first` have
/// branches.
pub fn group_forms_alone()
    ensures trees { GroupFormsAlone }
    ensures mocked { MockedGroupFormsAlone }
{}
