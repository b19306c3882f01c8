ghost use Rattle.std.specs.Prelude.{◌↔◌, IsTrue};
ghost use Rattle.web_cells.specs.Own.{BindsAllOf};

use web_cells::Shades;

/// Whether each web cell that the parent binds is bound.
pub fn binds_all_of(parent: &Shades, child: &Shades) -> bool
    ensures { IsTrue result ↔ BindsAllOf parent.now child.now }
{
    for shadow in parent.as_slice() {
        if child.lookup(shadow.cell).is_none() {
            return false;
        }
    }
    true
}
