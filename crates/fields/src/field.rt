// A field of characteristic two.
ghost use Rattle.std.specs.Prelude.{◌≡◌};
ghost use Rattle.fields.specs.Field.{Operations, FieldLaws};

pub trait Field: Copy + Eq {
    ghost ops: { Operations Self };

    fn zero() -> Self
        ensures { result ≡ ops.zero };

    fn one() -> Self
        ensures { result ≡ ops.one };

    fn sum(self, other: Self) -> Self
        ensures { result ≡ ops.sum self other };

    fn product(self, other: Self) -> Self
        ensures { result ≡ ops.product self other };

    // None exactly for zero.
    fn inverse(self) -> Option<Self>
        ensures { result ≡ ops.inverse self };

    ghost laws: { FieldLaws ops };

    // `==` holds exactly of the same element.
    ghost equality: { (x y : Self) → Self.PartialEq.eq x y ≡ ops.equals x y };
}
