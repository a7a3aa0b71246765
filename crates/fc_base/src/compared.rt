// Equality of lists, shared ones too, bytes, texts and boxes, which is that of what contracts see.
ghost use Rattle.std.specs.Prelude.{◌≡◌, nat_eq};
ghost use Rattle.std.specs.Cmp.Lexicographic.{pointwise, lists_per, lists_equiv, nat_list_eq_equiv};
ghost use Rattle.std.specs.Cmp.{partial_equiv_from_equiv};

use crate::{Boxed, List, Octets, Shared, Text};

// Whether two slices have equal items in the same places.
fn equal<'a, T: PartialEq>(a: &'a [T], b: &'a [T]) -> bool
    ensures { result ≡ pointwise T.eq a.now b.now }
{
    PartialEq::eq(&a, &b)
}

impl<T: PartialEq> PartialEq for List<T> {
    ghost eq = { pointwise T.eq };

    ghost laws = { lists_per T.laws };

    fn eq(&self, other: &List<T>) -> bool {
        equal(self.as_slice(), other.as_slice())
    }
}

impl<T: Eq> Eq for List<T> {
    ghost laws = { lists_equiv T.Eq.laws };
}

impl<T: PartialEq> PartialEq for Shared<T> {
    ghost eq = { pointwise T.eq };

    ghost laws = { lists_per T.laws };

    fn eq(&self, other: &Shared<T>) -> bool {
        equal(self.as_slice(), other.as_slice())
    }
}

impl<T: Eq> Eq for Shared<T> {
    ghost laws = { lists_equiv T.Eq.laws };
}

impl PartialEq for Octets {
    ghost eq = { pointwise nat_eq };

    ghost laws = { partial_equiv_from_equiv nat_list_eq_equiv };

    fn eq(&self, other: &Octets) -> bool {
        self.as_slice() == other.as_slice()
    }
}

impl Eq for Octets {
    ghost laws = { nat_list_eq_equiv };
}

impl PartialEq for Text {
    ghost eq = { pointwise nat_eq };

    ghost laws = { partial_equiv_from_equiv nat_list_eq_equiv };

    fn eq(&self, other: &Text) -> bool {
        self.as_str() == other.as_str()
    }
}

impl Eq for Text {
    ghost laws = { nat_list_eq_equiv };
}

impl<T: PartialEq> PartialEq for Boxed<T> {
    ghost eq = { T.eq };

    ghost laws = { T.laws };

    fn eq(&self, other: &Boxed<T>) -> bool {
        self.get() == other.get()
    }
}

impl<T: Eq> Eq for Boxed<T> {
    ghost laws = { T.Eq.laws };
}
