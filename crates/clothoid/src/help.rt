// What the program says of itself.
use commands::Name;
use std::fmt;

/// How the program is called.
pub const USAGE: &str = "usage: clothoid [--stop] [FILE]";

/// The commands, each with what it does and an example, and what holds for all of them.
#[derive(Clone, Copy, Debug)]
pub struct Help;

// What stands before the commands.
const HEAD: &str = "Answers the commands of FILE, or of standard input, a line each.
With --stop it ends at the first line that is refused or wrong, after its answer.
Lengths and radii are in mm, turns in ten-thousandths of a gon, speeds in km/h.
Rows are counted from 0.
";

// Each command with its operands, what it does, and an example that goes on from the one before.
const COMMANDS: [(Name, &str, &str); 13] = [
    (
        Name::Road,
        " CLASS SPEED B LANES usual|top",
        "      Opens a road with an empty sheet of rows, in place of the sheet before: its
      class (A, M or C), its speed, the distance B from the axis of rotation to the
      pavement's edge, the lanes turning (3 for more), and whether J is the usual one
      or the top one. Later commands speak of this road. A road that is refused leaves
      the sheet before.
      road C 100 3500 1 usual
      opened C-100 group 2 least radius 450000
",
    ),
    (
        Name::Label,
        " R W",
        "      What a curve of radius R that turns by W has on the open road: the
      superelevation p in hundredths of a percent, the lengths of clothoid that
      comfort, the superelevation's transition, the azimuth, the shift and a fifth
      of the turn ask for (none where no length up to 2000000 does), the least length
      that is compulsory, which is what the first four ask for together, and its
      parameter A.
      label 1000000 300000
      label 1000000 300000 p 647 comfort 9555 transition 49229 azimuth 111112 shift 109545 fifth 188502 least 111112 A 333335
",
    ),
    (
        Name::Straight,
        " LENGTH [before N]",
        "      Adds a straight before row N, or after the last row.
      straight 250000
      added 0
",
    ),
    (
        Name::Curve,
        " left|right R W [before N]",
        "      Adds a curve of radius R that turns by W, with clothoids of length 0.
      curve left 1000000 300000
      added 1
",
    ),
    (
        Name::Remove,
        " N",
        "      Takes row N out; the rows after it move down.
      remove 0
      removed 0
",
    ),
    (
        Name::Set,
        " N ENTRY EXIT",
        "      Gives the curve in row N clothoids of these lengths.
      set 0 111112 111112
      set 0
",
    ),
    (
        Name::Rows,
        "",
        "      Lists the rows: straight N LENGTH, or curve N SENSE R W ENTRY EXIT.
      rows
      curve 0 left 1000000 300000 111112 111112
",
    ),
    (
        Name::Limit,
        " NAME..",
        "      Has the clothoids keep these limits, together: comfort, transition, azimuth,
      shift, fifth, or table FILE, a client's table. A sheet just opened has the
      compulsory four: comfort transition azimuth shift.
      limit comfort fifth
      limit comfort fifth
",
    ),
    (
        Name::Check,
        "",
        "      Lists what is not in order: the row, the rule's number, the part of the row,
      whether it is a breach or advice, and why; and then how many findings there are.
      check
      finding 0 1 entry breach: entry clothoid of 111112 mm; at least 188502 mm required
      finding 0 1 exit breach: exit clothoid of 111112 mm; at least 188502 mm required
      findings 2
",
    ),
    (
        Name::Fit,
        "",
        "      Gives the curves the shortest clothoids that keep rules 1 to 6 under the limits,
      and prints how many rows there are and the setting-out list: S ROW LENGTH for a
      straight, V ROW ENTRY A EXIT A for a curve, each A the parameter of the clothoid
      before it. Where no clothoids keep the rules, refused 12 names the first row up
      to which there are none. A fitted sheet is not edited before it is reopened.
      limit azimuth
      limit azimuth
      fit
      fitted 1
      V 0 111112 333335 111112 333335
",
    ),
    (
        Name::Parameter,
        " N entry|exit",
        "      The parameter of the clothoid at that end of the curve in row N of a fitted sheet.
      parameter 0 entry
      parameter 0 entry 333335
",
    ),
    (
        Name::Reopen,
        "",
        "      Makes a fitted sheet one that may be edited, with its lengths.
      reopen
      reopened
",
    ),
    (
        Name::Report,
        "",
        "      Shows the sheet as a table in metres, gon and percent: its road, its mark, the
      limits in force with their numbers, and each row; for a curve its superelevation,
      the lengths of its clothoids and their parameters, the least length that the
      limits admit there, and which limit that comes from. Below it stands what a check
      finds, with the figures that decide it.
      report
      road C-100, group 2, least radius 450.000 m, edge distance 3.500 m, lanes turning 1, J 0.4 m/s3
      draft, 1 row
      limits: 1 azimuth

       row  kind           length    radius      turn         p     entry         A      exit         A     least  governed by
                                m         m       gon         %         m         m         m         m         m
         0  curve left             1000.000   30.0000      6.47   111.112   333.335   111.112   333.335   111.112  1 azimuth

      0 findings
",
    ),
];

// What stands behind them.
const FOOT: &str = "
Numbers are digits only. Blank lines and lines that begin with # are skipped.
A command that the rules refuse answers 'refused NUMBER ROW: ' with the reason, the
value that was refused and the line. A line that is no command or no UTF-8 text, or is
longer than 16384 bytes, or speaks of a road before there is any, or names a file that
cannot be read, or is a command that a fitted sheet or a draft does not have, is wrong,
and answers 'error LINE: ' and what is wrong with it. Neither changes anything, and the
lines behind it are still answered, unless --stop is given. At the end standard error
has how many lines were wrong and how many were refused, with the first of each.
The status is 0 where no line was wrong or refused; 1 where a line or an argument was
wrong, or reading or writing failed; 2 where lines were refused and none was wrong.
";

impl fmt::Display for Help {
    fn fmt<W: fmt::Write>(&self, f: &mut fmt::Formatter<W>) -> fmt::Result {
        f.write_str(HEAD)?;
        for (name, operands, what) in &COMMANDS {
            write!(f, "\n  {name}{operands}\n{what}")?;
        }
        f.write_str(FOOT)
    }
}
