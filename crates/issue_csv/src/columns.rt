// The columns of a record, and those of the header.
ghost use Rattle.std.specs.Prelude.{◌≡◌, map};
ghost use Rattle.csv.specs.Records.{fields_of};
ghost use Rattle.issue_csv.specs.Reading.{column, header, same_fields};

use csv::StringRecord;

/// The field of a column, counted from 0; an empty one where there is none.
pub fn column(row: &StringRecord, place: usize) -> &str
    ensures { result.now ≡ column (fields_of row.now) place }
{
    row.get(place).unwrap_or("")
}

fn header() -> &'static [&'static str]
    ensures { map (λ name. name.now) result.now ≡ header }
{
    &[
        "external", "project", "type", "summary", "assignee", "reporter", "priority", "points",
        "due",
    ]
}

/// Whether the record is the header.
pub fn is_header(row: &StringRecord) -> bool
    ensures { result ≡ same_fields (fields_of row.now) header }
{
    has_fields(row, header())
}

fn has_fields(row: &StringRecord, names: &[&str]) -> bool
    ensures { result ≡ same_fields (fields_of row.now) (map (λ s. s.now) names.now) }
{
    if row.len() != names.len() {
        return false;
    }
    for (i, name) in names.iter().enumerate() {
        match row.get(i) {
            Some(field) => {
                if field != *name {
                    return false;
                }
            }
            None => return false,
        }
    }
    true
}
