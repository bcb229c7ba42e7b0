// The programs: what each begins what it tells with, its usage and its help.

#[derive(Clone, Copy)]
pub enum Program {
    Sheet,
    Explain,
    Sheets,
    Apart,
    Read,
    Repair,
}

impl Program {
    // How each line of it on standard error begins.
    pub fn opening(self) -> &'static str {
        match self {
            Program::Sheet => "sheet: ",
            Program::Explain => "explain: ",
            Program::Sheets => "sheets: ",
            Program::Apart => "apart: ",
            Program::Read => "read: ",
            Program::Repair => "repair: ",
        }
    }

    pub fn usage(self) -> &'static str {
        match self {
            Program::Sheet => "usage: sheet [--progress] DESCRIPTION RECORDS|-\n",
            Program::Explain =>
                "usage: explain [--short] [--progress] DESCRIPTION RECORDS PAGE LINE\n",
            Program::Sheets =>
                "usage: sheets [--order LIST] [--progress] DESCRIPTION CODE1 RECORDS1 CODE2 RECORDS2\n",
            Program::Apart => "usage: apart FILE CODE1 SHEET1 CODE2 SHEET2\n",
            Program::Read => "usage: read [W] SHEET|-\n",
            Program::Repair => "usage: repair [W] SHEET|- [-o FILE]\n",
        }
    }

    // What it prints behind its usage where help is asked for.
    pub fn help(self) -> &'static str {
        match self {
            Program::Sheet => SHEET_HELP,
            Program::Explain => EXPLAIN_HELP,
            Program::Sheets => SHEETS_HELP,
            Program::Apart => APART_HELP,
            Program::Read => READ_HELP,
            Program::Repair => REPAIR_HELP,
        }
    }
}

const SHEET_HELP: &str = "
Prints the sheet of a record file: INITIATE, GENERATE every record as detail 0, TERMINATE. A refused call is told on
standard error and ends the sheet; what was accepted before stands. Rows count from 1, fields and bytes from 0.

  -           take the records from standard input; the lines of a row are written before more is read
              (a file of this name is ./-)
  --progress  tell on standard error how many rows are done
  --help      print this
";

const EXPLAIN_HELP: &str = "
Tells where each sum on a line of the sheet comes from. PAGE and LINE are those that the line was printed with: its
first six and its next three digits. The records are those of the whole file, as detail 0. For each sum: the routes by
which a field counts, the rows that make it up, and their total, worked out from the rows alone. Rows count from 1,
fields, counters, controls and levels from 0, columns from 1.

  --short     print no routes and no rows, only how many rows there are and their total
  --progress  tell on standard error how many rows are done
  --help      print this
";

const SHEETS_HELP: &str = "
Prints the sheets of two agents into one output, each line with its agent's code of two characters in front: INITIATE of
both, GENERATE every record as detail 0, in turn, the first agent's first, TERMINATE of the first and of the second. When
one file is used up the other goes on alone. A refused call is told on standard error and ends the output; what was
accepted before stands. Rows of each agent count from 1, fields and bytes from 0.

  --order LIST  a file whose characters 1 and 2 say whose row is next, blanks and line ends aside; the rows left when it
                ends follow in turn
  --progress    tell on standard error how many rows are done
  --help        print this
";

const APART_HELP: &str = "
Takes a file with the sheets of two agents apart: the lines that carry CODE1 go to the file SHEET1, those with CODE2 to
SHEET2, in order, with the code taken off. Both are made anew. A line that carries neither code or does not end where
the first one does is told on standard error and ends the work; what stands before it is written. Records count from 1,
bytes from 0.

  --help  print this
";

const READ_HELP: &str = "
Prints a sheet to be read, a line for each record: its page in 6 columns, its line in 3, its text. W is the width of the
text, 1 to 132; where it is left out, the first line end of the sheet shows it. A record that is not well-formed is told
on standard error and ends the work; what stands before it is printed. Records count from 1, bytes from 0.

  -       take the sheet from standard input (a file of this name is ./-)
  --help  print this
";

const REPAIR_HELP: &str = "
Prints a damaged sheet without its damage: of each W + 10 bytes from the start, those that are a well-formed record with
a later page, or a later line on the same page, than the last one kept. What is dropped is told on standard error, a
line each, and at the end how many were kept and dropped; of a sheet without damage nothing is told. W is the width of
the text, 1 to 132; where it is left out, the first line end of the sheet shows it. Records count from 1, bytes from 0.

  -o FILE  put the repaired sheet into FILE, which is made for it: a file that is there already is left as it is; the
           option may stand in front too
  -        take the sheet from standard input (a file of this name is ./-)
  --help   print this
";
