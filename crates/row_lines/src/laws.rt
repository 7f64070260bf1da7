//! What is proved of all rows and lines. These functions do nothing: each clause is a law.
ghost use Rattle.row_lines.specs.Laws.{LinesAreTheirRows, LinesAreOfOneRow, TextsTellTheirRows, BytesTellOneList, ToldLinesAreGood};

/// The line of a row is read as that row, and as no other.
pub fn lines_tell_their_rows()
    ensures again { LinesAreTheirRows }
    ensures one { LinesAreOfOneRow }
{}

/// The lines of rows in order are read as those rows; bytes tell one list of rows at most, or have a first bad line, and never both.
pub fn texts_tell_their_rows()
    ensures again { TextsTellTheirRows }
    ensures one { BytesTellOneList }
    ensures apart { ToldLinesAreGood }
{}
