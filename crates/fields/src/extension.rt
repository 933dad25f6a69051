// An extension of a field. The marker D says where the base field lies: the field itself, or as many pairs down.
ghost use Rattle.std.specs.Prelude.{◌≡◌};
ghost use Rattle.fields.specs.Extension.{Embedding, ExtensionLaws, Keeps, Lies, itself};
ghost use Rattle.fields.specs.Extensions.{self_extends};

use super::field::Field;

// The base field is the field itself.
pub struct Here;

// The base field is where D says, seen from the halves of a pair.
pub struct Up<D> {
    below: D,
}

pub trait ExtensionField<F: Field, D>: Field {
    ghost over: { Embedding F Self };

    fn embed(x: F) -> Self
        ensures image { result ≡ over.embed x }
        ensures keeps { Keeps F.Field.ops Self.Field.ops over.embed };

    // The element of the base field whose image this is, or None if there is none.
    fn as_base(self) -> Option<F>
        ensures base { result ≡ over.base self }
        ensures lies { Lies over self result };

    // The product with an element of the base field.
    fn scale(self, x: F) -> Self
        ensures { result ≡ Self.Field.ops.product self (over.embed x) }
    {
        self.product(Self::embed(x))
    }

    ghost extends: { ExtensionLaws F.Field.ops Self.Field.ops over };
}

impl<F: Field> ExtensionField<F, Here> for F {
    ghost over = { itself };

    ghost extends = { self_extends F.Field.ops };

    fn embed(x: F) -> F {
        x
    }

    fn as_base(self) -> Option<F> {
        Some(self)
    }
}
