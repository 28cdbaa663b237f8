ghost use Rattle.clocks.specs.Search.{first_of, First};
ghost use Rattle.std.specs.Cmp.{IsEquivalence};
ghost use Rattle.std.specs.Prelude.{◌≡◌};

// The place of the first element that is the same as the sought one; None exactly when none is.
// `PartialEq` does not promise that an element is the same as itself, so the answer is told for each type whose sameness is an equivalence.
pub fn position<T: PartialEq>(list: &[T], sought: &T) -> Option<usize>
    ensures value { (o : IsEquivalence T.PartialEq.eq) → result ≡ first_of (λ y. T.PartialEq.eq y sought.now) list.now }
    ensures first { (o : IsEquivalence T.PartialEq.eq) → First (λ y. T.PartialEq.eq y sought.now) list.now result }
{
    list.iter().position(|element| is_same(element, sought))
}

// A closure may compare in place. Alone, a wrong comparison is refused here, and not first in the proof of `position`.
fn is_same<T: PartialEq>(one: &T, other: &T) -> bool
    ensures { result ≡ T.PartialEq.eq one.now other.now }
{
    *one == *other
}

#[cfg(test)]
mod tests {
    use super::*;

    #[test]
    fn the_first_of_equals_is_found(rt: HostRuntime) {
        assert_eq!(rt; position(&[5, 7, 7], &7), Some(1));
        assert_eq!(rt; position(&[5, 7, 7], &9), None);
    }
}
