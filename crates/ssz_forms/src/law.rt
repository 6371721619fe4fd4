ghost use Rattle.ssz_forms.specs.SameType.{SameTypesAreEqual};

/// The test is true of equal types alone.
pub fn same_types_are_equal()
    ensures { SameTypesAreEqual }
{}
