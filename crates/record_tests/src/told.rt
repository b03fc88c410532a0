// A row as a text, in the words in which bench/record_vectors.py tells what sqlite3 says.
use std::alloc::{AllocError, Global};
use value_form::{Row, Value};

/// The values, with a comma between: each value's type, and an integer in decimal or bytes in hexadecimal.
pub fn row_text(alloc: Global, row: &Row) -> Result<Vec<u8>, AllocError> {
    let mut text = Vec::new(alloc);
    for (at, value) in row.values().iter().enumerate() {
        if at > 0 {
            text.extend_from_slice(b", ")?;
        }
        put_value(&mut text, alloc, value)?;
    }
    Ok(text)
}

fn put_value(text: &mut Vec<u8>, alloc: Global, value: &Value) -> Result<(), AllocError> {
    match value {
        Value::Null => text.extend_from_slice(b"null"),
        Value::Int(n) => {
            text.extend_from_slice(b"integer ")?;
            text.extend_from_slice(format!(in alloc; "{n}")?.as_bytes())
        }
        Value::Text(bytes) => {
            text.extend_from_slice(b"text ")?;
            put_hexadecimal(text, bytes.bytes())
        }
        Value::Blob(bytes) => {
            text.extend_from_slice(b"blob ")?;
            put_hexadecimal(text, bytes.bytes())
        }
    }
}

fn put_hexadecimal(text: &mut Vec<u8>, bytes: &[u8]) -> Result<(), AllocError> {
    let digits = b"0123456789ABCDEF";
    for byte in bytes {
        let (high, low) = (*byte / 16, *byte % 16);
        text.extend_from_slice(&[digits[high as usize], digits[low as usize]])?;
    }
    Ok(())
}
