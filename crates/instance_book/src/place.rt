ghost use Rattle.std.specs.Prelude.{◌≡◌, ◌<◌, length, slice_get, IfSome};
ghost use Rattle.script_nodes.specs.Views.{library_of};
ghost use Rattle.instance_book.specs.Makes.{HasPlaces};
ghost use Rattle.instance_book.specs.Standing.{named_if, IsPlaceOf, IsPlacedAt, IsScriptOf, HasItsMark, IsKeptWhere};

use crate::book::Book;
use crate::instance::KeptInstance;
use crate::numbered::Numbered;
use crate::page::KeptPage;
use script_nodes::{Library, NamedScript};

/// A page that stands in an instance, with the instance's script.
#[derive(Clone, Copy)]
pub struct Place<'a> {
    pub script: &'a NamedScript,
    pub instance: &'a Numbered<KeptInstance>,
    pub page: &'a Numbered<KeptPage>,
}

// The script of an instance, which is one of the library.
pub(crate) fn script_of<'a>(
    library: &'a Library,
    instance: &Numbered<KeptInstance>,
) -> Option<&'a NamedScript>
    requires { instance.now.item.script < length (library_of library.now).all }
    ensures script { named_if result
        ≡ slice_get (library_of library.now).all instance.now.item.script }
    ensures its { IsScriptOf (library_of library.now).all instance.now result }
{
    library.get(instance.item.script)
}

/// The page of this number in the instance of this number.
pub fn place_of_numbers<'a>(
    book: &'a Book,
    library: &'a Library,
    instance: u64,
    page: u64,
) -> Option<Place<'a>>
    requires { HasPlaces (library_of library.now).all book.now }
    ensures place { IsPlaceOf (library_of library.now) book.now instance page result }
    ensures placed { IfSome result (IsPlacedAt (library_of library.now).all) }
    ensures marked { IfSome result HasItsMark }
    ensures states { IsKeptWhere (library_of library.now) book.now result }
{
    let instance = book.instances.instance(instance)?;
    let script = script_of(library, instance)?;
    let shown = instance.item.pages.page(page)?;
    Some(Place {
        script,
        instance,
        page: shown,
    })
}
