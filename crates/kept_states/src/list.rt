ghost use Rattle.std.specs.Prelude.{◌≡◌, IfOk, map};
ghost use Rattle.script_value.specs.Views.{meaning};
ghost use Rattle.value_bytes.specs.Spelling.{values_bytes, HaveBytes};

use crate::memory::trimmed;
use script_value::{Bytes, Items, Value};
use std::alloc::{AllocError, Global};
use std::marker::Model;
use value_bytes::{have_bytes, read_values, write_values};
use wire_bytes::{Cursor, Writer};

/// Values as they are kept, one after the other: in the spelling of their list, where it has one.
///
/// It has none where one of them has none, and where there are 2^32 or more.
#[derive(Drop)]
pub struct StoredValues {
    form: ListForm,
}

#[derive(Drop)]
enum ListForm {
    Spelled(Bytes),
    Whole(Items),
}

impl Model for StoredValues {
    ghost use Rattle.std.specs.Prelude.{List};
    ghost use Rattle.std.specs.Coded.{coded_list};
    ghost use Rattle.script_value.specs.Val.{Val};
    ghost use Rattle.script_value.specs.ValCode.{val_code};

    ghost Value = { List Val };

    ghost coded = { coded_list val_code };

    ghost use Rattle.kept_states.specs.Forms.{list_in, IsListForm};

    ghost view = { λ stored. list_in stored.form };

    ghost invariant = { λ stored. IsListForm stored.form };
}

// The spelling of values as a list.
fn spelling(alloc: Global, values: &[Value]) -> Result<Bytes, AllocError>
    requires { HaveBytes (map meaning values.now) }
    ensures { IfOk result (λ bytes. bytes ≡ values_bytes (map meaning values.now)) }
{
    let mut writer = Writer::new(alloc);
    write_values(&mut writer, values)?;
    Ok(trimmed(writer.finish()))
}

impl StoredValues {
    /// What is kept of values.
    #[tactic(auto, using(crate::proofs::Forms::values_read, crate::proofs::Forms::values_spell))]
    pub fn of(alloc: Global, values: Items) -> Result<StoredValues, AllocError>
        ensures { IfOk result (λ stored. stored ≡ values) }
    {
        if have_bytes(values.as_slice()) {
            let bytes = spelling(alloc, values.as_slice())?;
            Ok(StoredValues {
                form: ListForm::Spelled(bytes),
            })
        } else {
            Ok(StoredValues {
                form: ListForm::Whole(values),
            })
        }
    }

    /// The values.
    #[tactic(auto, using(crate::proofs::Forms::values_kept))]
    pub fn values(&self, alloc: Global) -> Result<Items, AllocError>
        ensures { IfOk result (λ values. values ≡ self.now) }
    {
        match &self.form {
            ListForm::Spelled(bytes) => {
                let mut cursor = Cursor::over(bytes.as_slice());
                match read_values(alloc, &mut cursor)? {
                    Some(values) => Ok(values),
                    None => unreachable!(),
                }
            }
            ListForm::Whole(values) => values.try_clone(alloc),
        }
    }

    /// A copy, equal to its source.
    pub fn try_clone(&self, alloc: Global) -> Result<StoredValues, AllocError>
        ensures { IfOk result (λ copy. copy ≡ self.now) }
    {
        let form = match &self.form {
            ListForm::Spelled(bytes) => ListForm::Spelled(bytes.try_clone(alloc)?),
            ListForm::Whole(values) => ListForm::Whole(values.try_clone(alloc)?),
        };
        Ok(StoredValues { form })
    }
}
