// The texts of records.
ghost use Rattle.std.specs.Prelude.{◌≡◌, ◌++◌, IfOk, OnErr, OnOk, map};
ghost use Rattle.issue_csv.specs.Writing.{record_text};

use csv::WriterBuilder;
use field_values::{Memory, Text};
use std::alloc::{AllocError, Global};

fn text_of(alloc: Global, fields: &[&[u8]]) -> Result<Vec<u8>, AllocError>
    ensures { IfOk result (λ text. text.items ≡ record_text (map (λ f. f.now) fields.now)) }
{
    let mut writer = WriterBuilder::new().from_writer(Vec::new(alloc));
    if writer.write_fields(fields).is_err() {
        return Err(AllocError);
    }
    match writer.into_inner() {
        Ok(text) => Ok(text),
        Err(_) => Err(AllocError),
    }
}

fn lent<'a>(alloc: Global, fields: &'a [Text]) -> Result<Vec<&'a [u8]>, AllocError>
    ensures { IfOk result (λ lent. map (λ f. f.now) lent.items ≡ fields.now) }
{
    let mut lent = Vec::with_capacity(alloc, fields.len())?;
    for field in fields {
        lent.push(field.as_str().as_bytes())?;
    }
    Ok(lent)
}

/// Writes a record of these fields behind what stands there, or leaves all as it is.
pub fn write_record(alloc: Global, fields: &[Text], out: &mut Vec<u8>) -> Result<(), Memory>
    ensures ok { OnOk result (out.new.items ≡ out.old.items ++ record_text fields.now) }
    ensures err { OnErr result (out.new.items ≡ out.old.items) }
{
    let lent = lent(alloc, fields)?;
    let text = text_of(alloc, &lent)?;
    out.extend_from_slice(&text)?;
    Ok(())
}
