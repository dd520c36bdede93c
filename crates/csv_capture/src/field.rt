//! The fields of a row.
ghost use Rattle.std.specs.Prelude.{◌≡◌, ◌≤◌, drop, length};
ghost use Rattle.csv.specs.Records.{fields_of};
ghost use Rattle.csv_capture.specs.Fields as fields;

use csv::ByteRecord;

fn is_blank(byte: u8) -> bool
    ensures { result ≡ fields.is_blank byte }
{
    byte == b' ' || byte == b'\t'
}

/// The field without the spaces and tabs at its front.
fn trimmed_front(field: &[u8]) -> &[u8]
    ensures { result.now ≡ fields.trimmed_front field.now }
{
    'bytes: for at in 0..field.len() {
        if !is_blank(field[at]) {
            return &field[at..];
        }
    }
    &field[field.len()..]
}

/// The field without the spaces and tabs at its end.
fn trimmed_back(field: &[u8]) -> &[u8]
    ensures { result.now ≡ fields.trimmed_back field.now }
{
    let len = field.len();
    'bytes: for back in 0..len {
        let end = len - back;
        if !is_blank(field[end - 1]) {
            return &field[..end];
        }
    }
    &field[..0]
}

/// The field without the spaces and tabs around it.
pub fn trimmed(field: &[u8]) -> &[u8]
    ensures { result.now ≡ fields.trimmed field.now }
{
    trimmed_back(trimmed_front(field))
}

/// The text of a row's field at this place, from 0. It is empty where there is none.
pub fn field_text(row: &ByteRecord, at: usize) -> &[u8]
    ensures { result.now ≡ fields.field_text (fields_of row.now) at }
{
    match row.get(at) {
        Some(field) => trimmed(field),
        None => &[],
    }
}

/// The level that a field gives.
pub fn level_of(text: &[u8]) -> Option<bool>
    ensures { result ≡ fields.level_of text.now }
{
    if text == b"0".as_slice() {
        return Some(false);
    }
    if text == b"1".as_slice() {
        return Some(true);
    }
    None
}
