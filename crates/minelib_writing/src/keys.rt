//! The key lines of the model files.

ghost use Rattle.std.specs.Prelude.{◌≡◌, ◌++◌, ◌∷◌, [], OnOk};
ghost use Rattle.minelib_lines.specs.KeyParts.{text_in};
ghost use Rattle.minelib_lines.specs.HeaderTable.{key_line, key_lines};
ghost use Rattle.minelib_lines.specs.Lines.{text_of};
ghost use Rattle.devices.specs.sinks.Writes.{WritesOn};

use crate::fields::{append_decimal_to, append_integer_to, append_text};
use devices::sinks::sink::Sink;
use devices::sinks::slices::flush_full;
use devices::sinks::write_fault::WriteFault;
use minelib_lines::header_key::HeaderKey;
use minelib_lines::key_values::{KeyValue, KeyValues};
use std::alloc::AllocError;

/// Writes the lines of these keys after the bytes that the buffer holds.
#[tactic(auto, using(crate::proofs::SectionsWritten::nothing_put))]
pub fn write_keys<S: Sink>(
    sink: &mut S,
    buffer: &mut Vec<u8>,
    values: &KeyValues,
    keys: &[HeaderKey],
) -> Result<(), WriteFault>
    ensures { WritesOn (text_of (key_lines (text_in values.now) keys.now))
        buffer.old.items buffer.new.items (S.state sink.old) (S.state sink.new) result }
{
    append_keys(buffer, values, keys)?;
    flush_full(sink, buffer)?;
    Ok(())
}

fn append_keys(out: &mut Vec<u8>, values: &KeyValues, keys: &[HeaderKey]) -> Result<(), AllocError>
    ensures { OnOk result (out.new.items
        ≡ out.old.items ++ text_of (key_lines (text_in values.now) keys.now)) }
{
    for key in keys {
        append_key(out, values, *key)?;
    }
    Ok(())
}

fn append_key(out: &mut Vec<u8>, values: &KeyValues, key: HeaderKey) -> Result<(), AllocError>
    ensures { OnOk result (out.new.items
        ≡ out.old.items ++ (key_line key (text_in values.now key) ++ 10 ∷ [])) }
{
    append_text(out, key.word(), b':')?;
    out.push(b' ')?;
    append_value(out, values, key)
}

// Appends the value of a key.
fn append_value(out: &mut Vec<u8>, values: &KeyValues, key: HeaderKey) -> Result<(), AllocError>
    ensures { OnOk result (out.new.items
        ≡ out.old.items ++ (text_in values.now key ++ 10 ∷ [])) }
{
    match values.of(key) {
        KeyValue::Text(text) => append_text(out, text, b'\n'),
        KeyValue::Whole(number) => append_integer_to(out, number, b'\n'),
        KeyValue::Decimal(number) => append_decimal_to(out, number, b'\n'),
    }
}
