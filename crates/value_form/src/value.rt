// Values, and rows as lists of values.
ghost use Rattle.std.specs.Prelude.{◌≡◌, [], ◌∷◌, ◌++◌, OnOk, OnErr};

use disk_face::{Bytes, Txt};
use std::alloc::{AllocError, Global};
use std::marker::Model;

/// A value of SQL.
#[derive(Debug, Drop)]
pub enum Value {
    /// No value.
    Null,
    /// An integer of 64 bits.
    Int(i64),
    /// A text, which may hold any bytes.
    Text(Txt),
    /// Bytes that are no text.
    Blob(Bytes),
}

/// A list of values. A contract sees it as that list.
#[derive(Debug, Drop)]
pub struct Row {
    items: Vec<Value>,
}

impl Model for Row {
    ghost use Rattle.std.specs.Prelude.{List};
    ghost use Rattle.std.specs.Coded.{coded_list};
    ghost use Rattle.value_form.specs.declared.value.Value.{Value as SqlValue};
    ghost use Rattle.value_form.specs.contracts.value.Value.{the_row};

    ghost Value = { List SqlValue };

    ghost coded = { coded_list the_row.coded };

    ghost view = { λ row. row.items.items };
}

impl Row {
    /// A row without values. It takes no memory.
    pub fn new(alloc: Global) -> Row
        ensures { result ≡ [] }
    {
        Row {
            items: Vec::new(alloc),
        }
    }

    /// Appends a value. The error is want of memory, and then the row is as it was.
    pub fn push(&mut self, value: Value) -> Result<(), AllocError>
        ensures ok { OnOk result (self.new ≡ self.old ++ value ∷ []) }
        ensures err { OnErr result (self.new ≡ self.old) }
    {
        self.items.push(value)?;
        Ok(())
    }

    /// All the values, in order.
    pub fn values(&self) -> &[Value]
        ensures { result.now ≡ self.now }
    {
        self.items.as_slice()
    }
}
