// Records as `csv` reads them, one after the other.
ghost use Rattle.std.specs.Prelude.{◌≡◌, ◌≤◌, Some, length};
ghost use Rattle.csv.specs.Reading.{is_bom, strip_bom};
ghost use Rattle.issue_csv.specs.Reading.{records_of};
ghost use Rattle.issue_csv.specs.Reader.{IsOpen, IsNextRecord, left_of};

use csv::{ErrorKind, Reader, ReaderBuilder, StringRecord};
use std::alloc::Global;

/// The records of an input, the last of which is at hand.
pub struct Records<'a> {
    pub reader: Reader<&'a [u8]>,
    pub row: StringRecord,
    /// How many were read, the header among them.
    pub number: usize,
    /// An input has no more records than it has bytes, so that the number never comes to this.
    pub most: usize,
}

// Written by hand, so that whoever lets one go makes one call, and its proof takes one step there.
impl<'a> Drop for Records<'a> {
    fn drop(self) {
        let Records {
            reader: _,
            row: _,
            number: _,
            most: _,
        } = self;
    }
}

/// What a reading of the next record finds.
#[derive(Clone, Copy)]
pub enum NextRecord {
    /// A record of UTF-8, which is now at hand.
    Text,
    /// A record that has other bytes.
    Other,
    /// No record is left.
    End,
    /// There was not enough memory.
    Failed,
}

fn is_mark(first: u8, second: u8, third: u8) -> bool
    ensures { result ≡ is_bom first second third }
{
    first == 0xEF && second == 0xBB && third == 0xBF
}

// How many bytes there are behind a byte order mark.
fn text_len(bytes: &[u8]) -> usize
    ensures text { result ≡ length (strip_bom bytes.now) }
    ensures within { result ≤ length bytes.now }
{
    if bytes.len() < 3 {
        return bytes.len();
    }
    if is_mark(bytes[0], bytes[1], bytes[2]) {
        return bytes.len() - 3;
    }
    bytes.len()
}

impl<'a> Records<'a> {
    /// All records of an input.
    pub fn of(alloc: Global, bytes: &'a [u8]) -> Self
        ensures open { IsOpen result }
        ensures all { left_of result ≡ Some (records_of bytes.now) }
        ensures number { result.number ≡ 0 }
    {
        let reader = ReaderBuilder::new()
            .has_headers(false)
            .flexible(true)
            .from_reader(alloc, bytes);
        Records {
            reader,
            row: StringRecord::new(alloc),
            number: 0,
            most: text_len(bytes) + 1,
        }
    }

    /// Reads the next record.
    pub fn read(&mut self) -> NextRecord
        requires { IsOpen self.old }
        ensures { IsNextRecord self.old result self.new }
    {
        if self.number >= self.most {
            return NextRecord::End;
        }
        self.number += 1;
        match self.reader.read_record(&mut self.row) {
            Ok(true) => NextRecord::Text,
            Ok(false) => NextRecord::End,
            Err(error) => match error.kind() {
                ErrorKind::Utf8 { .. } => NextRecord::Other,
                ErrorKind::Io(_) | ErrorKind::OutOfMemory => NextRecord::Failed,
                // Records of any length are read, and nothing else is done with them.
                _ => unreachable!(),
            },
        }
    }
}
