//! The first of places that may be there or not.

ghost use Rattle.std.specs.Prelude.{◌≡◌};
ghost use Rattle.index_versions.specs.FirstPlaces as spec;

/// The place before the other; where one of them isn't there, the other.
pub fn sooner(first: Option<u32>, second: Option<u32>) -> Option<u32>
    ensures { result ≡ spec.sooner first second }
{
    match (first, second) {
        (None, _) => second,
        (Some(_), None) => first,
        (Some(a), Some(b)) => Some(a.min(b)),
    }
}
