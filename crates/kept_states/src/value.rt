ghost use Rattle.std.specs.Prelude.{◌≡◌, IfOk};
ghost use Rattle.script_value.specs.Views.{meaning};
ghost use Rattle.value_bytes.specs.Spelling.{value_bytes, HasBytes};

use crate::memory::trimmed;
use script_value::{Bytes, Value};
use std::alloc::{AllocError, Global};
use std::marker::Model;
use value_bytes::{has_bytes, read_value, write_value};
use wire_bytes::{Cursor, Writer};

/// A value as it is kept: in its spelling, where it has one.
///
/// A value that nests deeper than 200 lists, or has a text, a symbol or a list of 2^32 bytes or items, has none.
#[derive(Drop)]
pub struct StoredValue {
    form: ValueForm,
}

#[derive(Drop)]
enum ValueForm {
    Spelled(Bytes),
    Whole(Value),
}

impl Model for StoredValue {
    ghost use Rattle.script_value.specs.Val.{Val};
    ghost use Rattle.script_value.specs.ValCode.{val_code};

    ghost Value = { Val };

    ghost coded = { val_code };

    ghost use Rattle.kept_states.specs.Forms.{value_in, IsValueForm};

    ghost view = { λ stored. value_in stored.form };

    ghost invariant = { λ stored. IsValueForm stored.form };
}

// The spelling of a value.
fn spelling(alloc: Global, value: &Value) -> Result<Bytes, AllocError>
    requires { HasBytes (meaning value.now) }
    ensures { IfOk result (λ bytes. bytes ≡ value_bytes (meaning value.now)) }
{
    let mut writer = Writer::new(alloc);
    write_value(&mut writer, value)?;
    Ok(trimmed(writer.finish()))
}

impl StoredValue {
    /// What is kept of a value.
    #[tactic(auto, using(crate::proofs::Forms::value_read, crate::proofs::Forms::value_spells))]
    pub fn of(alloc: Global, value: &Value) -> Result<StoredValue, AllocError>
        ensures { IfOk result (λ stored. stored ≡ meaning value.now) }
    {
        if has_bytes(value) {
            let bytes = spelling(alloc, value)?;
            Ok(StoredValue {
                form: ValueForm::Spelled(bytes),
            })
        } else {
            Ok(StoredValue {
                form: ValueForm::Whole(value.try_clone(alloc)?),
            })
        }
    }

    /// The value.
    #[tactic(auto, using(crate::proofs::Forms::value_kept))]
    pub fn value(&self, alloc: Global) -> Result<Value, AllocError>
        ensures { IfOk result (λ value. meaning value ≡ self.now) }
    {
        match &self.form {
            ValueForm::Spelled(bytes) => {
                let mut cursor = Cursor::over(bytes.as_slice());
                match read_value(alloc, &mut cursor)? {
                    Some(value) => Ok(value),
                    None => unreachable!(),
                }
            }
            ValueForm::Whole(value) => value.try_clone(alloc),
        }
    }

    /// A copy, equal to its source.
    pub fn try_clone(&self, alloc: Global) -> Result<StoredValue, AllocError>
        ensures { IfOk result (λ copy. copy ≡ self.now) }
    {
        let form = match &self.form {
            ValueForm::Spelled(bytes) => ValueForm::Spelled(bytes.try_clone(alloc)?),
            ValueForm::Whole(value) => ValueForm::Whole(value.try_clone(alloc)?),
        };
        Ok(StoredValue { form })
    }
}
