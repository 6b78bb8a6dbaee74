//! The first element of a slice for which a test is false.

ghost use Rattle.wu_audit.specs.Against.{FirstFalse};

/// Returns the place of the first element for which the test is false, or `None` if there is none.
pub fn first_against<T, F: Fn(&T) -> bool>(elements: &[T], is_right: F) -> Option<usize>
    // The test may be called at any element, any number of times.
    requires { F.IsAlwaysCallable is_right }
    // A place, from 0, is the first at which the test is false; `None` means that it is true of
    // each.
    ensures { FirstFalse F.Fn is_right elements.now result }
{
    for (place, element) in elements.iter().enumerate() {
        if !is_right(element) {
            return Some(place);
        }
    }
    None
}
