ghost use Rattle.std.specs.Prelude.{◌≡◌, ◌<◌, length};
ghost use Rattle.script_nodes.specs.Views.{named_of, scripts_of, library_of};
ghost use Rattle.replay_spec.specs.Book.{are_same};
ghost use Rattle.shelf.specs.Present.{is_same, IsSameAt};

use script_nodes::{Library, NamedScript, Setup};

// Whether two scripts have the same name and text.
fn is_same(named: &NamedScript, told: &NamedScript) -> bool
    ensures { result ≡ is_same (named_of named.now) (named_of told.now) }
{
    named.name.as_bytes() == told.name.as_bytes() && named.text.as_slice() == told.text.as_slice()
}

// Whether the script of a place in the setup has the name and the text of the present one there.
fn is_same_at(library: &Library, setup: &Setup, place: usize) -> bool
    requires within { place < length (scripts_of setup.now) }
    requires present { length (library_of library.now).setup ≡ length (scripts_of setup.now) }
    ensures { IsSameAt (scripts_of setup.now) (library_of library.now).setup place result }
{
    let Some(start) = library.start(place) else {
        unreachable!()
    };
    match (setup.get(place), library.get(start)) {
        (Some(named), Some(told)) => is_same(named, told),
        _ => unreachable!(),
    }
}

/// Whether a setup has the names and texts of the present one, in their order.
pub fn is_present(library: &Library, setup: &Setup) -> bool
    ensures { result ≡ are_same (scripts_of setup.now) (library_of library.now).setup }
{
    if library.present() != setup.len() {
        return false;
    }
    for place in 0..setup.len() {
        if !is_same_at(library, setup, place) {
            return false;
        }
    }
    true
}
