// The label of a row, made up of its parts.
ghost use Rattle.std.specs.Prelude.{◌≡◌, ◌<◌, ◌≤◌};
ghost use Rattle.rules.specs.paper.Limits.{names, most_bindings};
ghost use Rattle.machine.specs.Layout.{link};

use machine::layout::{LABEL_UNIT, POINTER_UNIT};

// The name, the label of what it is bound to, and the pointer of the row below.
pub(crate) fn row_label(name: u64, label: u64, pointer: usize) -> u64
    requires name_low { name < names }
    requires label_low { label < 2 }
    requires pointer_low { pointer ≤ most_bindings }
    ensures { result ≡ link name label pointer }
{
    name + LABEL_UNIT * label + POINTER_UNIT * pointer as u64
}
