//! The words of views.

ghost use Rattle.std.specs.Prelude.{◌≡◌};
ghost use Rattle.wu_arguments.specs.Lines.{view_named};

use wu_machine::View;

/// Returns the view of this name.
pub fn view_named(name: &str) -> Option<View>
    // Each of the six names gives its view, and any other text `None`.
    ensures { result ≡ view_named name.now }
{
    match name {
        "workunits" => Some(View::Workunits),
        "results" => Some(View::Results),
        "hosts" => Some(View::Hosts),
        "archive" => Some(View::Archive),
        "summary" => Some(View::Summary),
        "classes" => Some(View::Classes),
        _ => None,
    }
}
